//! Threads that wait for one another, for a stated number of turns at most.
use std::sync::atomic::{AtomicU64, Ordering};
use std::thread;

/// For how many turns a thread waits at most.
const TURNS: u32 = 4_000_000;

/// Counts who has come to a place, and who waited there in vain.
#[derive(Drop)]
pub struct Meeting {
    come: AtomicU64,
    late: AtomicU64,
}

impl Meeting {
    pub fn new() -> Meeting {
        Meeting {
            come: AtomicU64::new(0),
            late: AtomicU64::new(0),
        }
    }

    pub fn come(&self) {
        self.come.fetch_add(1, Ordering::SeqCst);
    }

    /// Whether so many have come.
    pub fn has(&self, many: u64) -> bool {
        self.come.load(Ordering::SeqCst) >= many
    }

    /// Waits until so many have come.
    pub fn wait_for(&self, many: u64) {
        for _ in 0..TURNS {
            if self.has(many) {
                return;
            }
            thread::yield_now();
        }
        self.late.fetch_add(1, Ordering::SeqCst);
    }

    /// How many have waited in vain.
    pub fn late(&self) -> u64 {
        self.late.load(Ordering::SeqCst)
    }
}
