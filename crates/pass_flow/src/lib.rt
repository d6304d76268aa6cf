//! What files, pipes and app objects have in common, and app objects.
//!
//! `enter_on` makes every entry on an object with versions: it marks, freezes and links as the definitions have it, and its records
//! are exactly the entry's (`entry`, `object`, `at`). The acts that leave an object's content (freeze, the two sides of a
//! disclosure, tag, the first step of a sync) are functions of the module `acts`, once for all kinds of objects: each makes its one
//! entry, and answers its place and the object's node there (`entry`, `at`, `state`). What a kind of object gives for
//! that is the trait `Versioned`: its number, its current version, room for a source, and how an entry is made that leaves its
//! content. `AppDesk` is an app object under its lock.
#![tactic(auto)]

pub mod acts;
mod app;
mod entering;
mod tag;
mod versioned;

pub use app::AppDesk;
pub use entering::enter_on;
pub use tag::TagRoom;
pub use versioned::Versioned;
