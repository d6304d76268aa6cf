//! The text of a pattern.
ghost use Rattle.std.specs.Prelude.{◌≡◌, IfOk};

use std::alloc::{AllocError, Global};
use std::marker::Model;

/// The text of a pattern, which isn't judged yet. Seen as its bytes.
#[derive(Drop)]
pub struct PatternText {
    bytes: Vec<u8>,
}

impl Model for PatternText {
    ghost use Rattle.std.specs.Prelude.{ℕ, List};

    ghost Value = { List ℕ };

    ghost view = { λ t. t.bytes.items };
}

impl PatternText {
    pub fn of(alloc: Global, bytes: &[u8]) -> Result<PatternText, AllocError>
        ensures { IfOk result (λ t. t ≡ bytes.now) }
    {
        Ok(PatternText {
            bytes: Vec::from_slice(alloc, bytes)?,
        })
    }

    pub fn as_bytes(&self) -> &[u8]
        ensures { result.now ≡ self.now }
    {
        self.bytes.as_slice()
    }
}
