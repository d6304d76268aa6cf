//! The calls that the words of passold make: runs whose file versions an archive keeps, and what the archive answers.
#![tactic(auto)]

mod alike;
mod consulting;
mod diffing;
mod listing;
mod main_call;
mod pruning;
mod questions;
mod retracing;
mod running;
mod status;
mod tarring;
mod words;
mod writing;

pub use diffing::{ByteRange, differences};
pub use main_call::{OldEnded, old_main};
pub use pass_status::Status;
pub use pruning::{PruneEnded, prune_main, third_folder};
pub use status::OldStatus;
pub use words::{LogQuestion, OldCommand, OldQuestion, read_words, writes};
