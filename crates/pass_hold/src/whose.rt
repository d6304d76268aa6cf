//! Which book it is.
use std::marker::Brand;

/// Which book it is, with the session that it is of, and how many entries it may have. What lies under the locks of one store, and
/// the processes that work on it, have the same one. It is picked once, where the store is opened.
pub trait Whose {
    ghost use Rattle.pass_book.specs.Tokens.{BookId};
    ghost use Rattle.std.specs.Prelude.{ℕ};

    ghost book: { BookId };

    ghost places: { ℕ };
}

impl Whose for Brand {
    ghost use Rattle.pass_hold.specs.Callers.{no_book};

    ghost book = { no_book };

    ghost places = { 0 };
}
