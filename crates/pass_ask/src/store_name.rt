//! The name of a store.
ghost use Rattle.std.specs.Prelude.{◌≡◌, IfOk};

use std::alloc::{AllocError, Global};
use std::marker::Model;

/// What a store is called among others: any bytes. Seen as these.
#[derive(Drop)]
pub struct StoreName {
    bytes: Vec<u8>,
}

impl Model for StoreName {
    ghost use Rattle.std.specs.Prelude.{ℕ, List};

    ghost Value = { List ℕ };

    ghost view = { λ n. n.bytes.items };
}

impl StoreName {
    pub fn of(alloc: Global, bytes: &[u8]) -> Result<StoreName, AllocError>
        ensures { IfOk result (λ n. n ≡ bytes.now) }
    {
        Ok(StoreName {
            bytes: Vec::from_slice(alloc, bytes)?,
        })
    }

    pub fn as_bytes(&self) -> &[u8]
        ensures { result.now ≡ self.now }
    {
        self.bytes.as_slice()
    }
}
