//! What has changed a disk in memory.
use crate::Area;

/// What a device call made of an area.
#[derive(Drop)]
pub enum Change {
    Wrote { at: u64, bytes: Vec<u8> },
    Cut { len: u64 },
    Synced,
}

/// A change, and the number of the device call that made it.
#[derive(Drop)]
pub struct Event {
    pub call: u64,
    pub area: Area,
    pub change: Change,
}
