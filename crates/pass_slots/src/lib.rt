//! What the threads of a store share, but for its disk: each object, the registry and the book in locks of their own.
//!
//! Whoever needs more than one lock takes them in this order: objects by ascending numbers, the registry, the vault (which stands in
//! crates above), the book, the list of changed files. Nobody who holds the book or that list waits for another lock.
//!
//! What lies in an object's lock is a `Slot`. `hold` and `object` give the lock of what is looked for, and what is looked for lies
//! there (`Has`, `HasObject`); they would wait if it didn't. `two` takes the locks of two objects, the lower number first. `named`
//! gives the registry and the file that has a name as the registry sees it then (`some`, `none`). That every object of the session
//! lies in some lock is how the code is written: no clause says so.
#![tactic(auto)]

mod asking;
mod locks;
mod slot;

pub use asking::{asked, held_pipe, see_way};
pub use locks::{Locks, REGISTRY, made_file};
pub use slot::{Slot, Sought};
