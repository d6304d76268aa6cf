//! What the calls here work with.
use pass_hold::Shelf;
use pass_outside::{Disk, Gate};
use pass_safe::{Opening, Safe};
use pass_slots::Locks;
use std::alloc::Global;
use std::sync::{Mutex, MutexGuard, Wait};

/// The store of a call, by its locks and its vault, with what the call waits by and takes memory from.
#[derive_where(Clone, Copy)]
pub(crate) struct Context<'a, 'g, R, J: Opening, D: Disk, G: Gate> {
    pub locks: &'a Locks<'g, J, G>,
    pub vault: &'a Mutex<Safe<J, D>>,
    pub rt: &'a R,
    pub alloc: Global,
}

impl<'a, R: Wait, J: Opening, D: Disk, G: Gate> Context<'a, '_, R, J, D, G> {
    /// Locks the book.
    pub(crate) fn book(&self) -> MutexGuard<'a, Shelf<J>> {
        self.locks.book.lock(self.rt)
    }

    /// Locks the vault.
    pub(crate) fn vault(&self) -> MutexGuard<'a, Safe<J, D>> {
        self.vault.lock(self.rt)
    }
}
