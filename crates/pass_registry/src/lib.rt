//! The names of a store's files and the objects that it has made.
//!
//! A `Registry` is their state alone. Each call answers and does exactly what the plain registry does (`answer`, `plain`, `ok`),
//! and a refusal changes nothing (`err`). A file's number never changes and is given once (`laws::file_numbers`). A `RegistryDesk`
//! is what lies under the registry's lock: the state after all that its desk has seen (`state`). Each act gets the reply that the
//! definitions give (`answer`), with its one entry and its records. Numbers run up from the opening's ceiling, and none is given
//! twice (`made`). A file's number is told (`number`), and how many files there are (`files`).
#![tactic(auto)]

mod desk;
pub mod laws;
mod names;
mod objects;
mod opening;
mod registry;
mod rooms;
mod slips;

pub use desk::RegistryDesk;
pub use registry::Registry;
pub use rooms::{BindRoom, MoveRoom, UnbindRoom};
