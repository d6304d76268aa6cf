//! The outside of the store: sources, sinks, a disk of two areas, gates, and forms of them in memory.
//!
//! The traits `Source`, `Sink` and `Disk` say which calls fail (exactly where a count of faults rose), what a read gives, and what
//! a crash may leave, now and since each device call. `MemDisk` is proved against them, and `after_crash` is exactly the image that
//! the changes so far and the way of keeping them give.
#![tactic(auto)]

mod areas;
mod blocks;
mod change;
mod changes;
mod content;
mod disk;
mod due;
mod fault;
mod gate;
mod keep;
mod memory;
mod no_disk;
mod plan;
mod sink;
mod source;
mod step;
mod stream;
mod synced;
mod watch;

pub use disk::{Area, Disk};
pub use fault::Failed;
pub use gate::{Gate, OpenGate};
pub use keep::Keep;
pub use memory::MemDisk;
pub use no_disk::NoDisk;
pub use sink::MemSink;
pub use source::MemSource;
pub use stream::{Sink, Source};
pub use synced::{sync_both, write_synced};
pub use watch::{Watch, WatchDisk};
