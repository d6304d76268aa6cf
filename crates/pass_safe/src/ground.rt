//! What a store was opened with.
use pass_hold::Whose;
use std::marker::Brand;

/// Which opening a store is of: its book, and what its vault was opened with. It is picked once, where the store is opened.
pub trait Opening: Whose {
    ghost use Rattle.std.specs.Prelude.{Bool};
    ghost use Rattle.pass_safe.specs.Grounds.{Ground};

    ghost ground: { Ground };

    /// Whether contracts may speak of the disk's content.
    ghost tells: { Bool };
}

impl Opening for Brand {
    ghost use Rattle.std.specs.Prelude.{false};
    ghost use Rattle.pass_safe.specs.Grounds.{no_ground};

    ghost ground = { no_ground };

    ghost tells = { false };
}
