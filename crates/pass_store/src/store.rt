//! The store.

use pass_entry::Record;
use pass_outside::{Disk, Gate};
use pass_plain::Start;
use pass_safe::{Opening, Safe};
use pass_slots::Locks;
use std::sync::Mutex;

/// A store that threads share. Each call is made for a process that one thread drives: the calls are functions of `pass_shared` over the
/// locks, and of `pass_kept` over the locks and the vault.
#[derive(Drop)]
pub struct Store<'g, J: Opening, D: Disk, G: Gate> {
    /// What the session began with; its files have their sizes and rows, and no bytes.
    pub start: Start,
    /// The records of the opening.
    pub list: Vec<Record>,
    /// The disk's count of faults as the store was opened.
    pub opened: u64,
    pub locks: Locks<'g, J, G>,
    pub vault: Mutex<Safe<J, D>>,
}
