//! How a session begins over a disk: everything that can be refused is done before any lock is made, and then what lies under the
//! locks is laid out for one book.
//!
//! `open` recovers, takes the memory of the session's book and objects, and makes its ceiling durable. It is refused for a broken
//! frame, a bad record or a flaw, in that order, and then for a log that ends above 2^38, each exactly there (`judged`), and such a
//! store isn't written to (`bad_store`). A device fault is answered only where the disk's count rose or is at its end
//! (`disk_fault`). Whatever the refusal, since the opening's two syncs, where both came, a crash leaves what was read, or that with
//! the ceiling (`left`). What is opened is the session over the log's records as they were read (`vault`, `opening`, `sound`,
//! `continues`). From then on every crash leaves its ceiling, so no number is given twice (`ceiling`, `begun`, `laws::ceilings`).
//!
//! `Opened::with` names the book and lays out what lies under the locks: files, app objects, the desks that nobody has used, the
//! registry and the first process are exactly as the start says (`files`, `apps`, `blanks`, `registry`, `first`). It hands out the
//! vault as it was opened, which has seen nothing, over a disk of which no call has failed since (`vault`, `fresh`, `healthy`,
//! `low`); the store lays it into its lock. Want of memory gives the disk back (`disk`), and so does `into_disk`, where no store is
//! made.
#![tactic(auto)]

mod ground;
mod held;
pub mod laws;
mod objects;
mod opened;
mod opening;

pub use held::Held;
pub use opened::Opened;
pub use opening::open;
