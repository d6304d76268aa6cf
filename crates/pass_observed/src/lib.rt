//! What calls tell of a run's things: its files, their names and what was in them before it, its pipes, and its processes with
//! their descriptors and what they have in memory. `spelled` is turned back by percent-decoding; `word_spelling` gives exactly its
//! definition. No other clause speaks of what is kept.
#![tactic(auto)]

mod devices;
mod endings;
mod files;
mod images;
mod ledger;
mod loaders;
mod overlaps;
mod paths;
mod pipes;
mod processes;
mod spelling;
mod stored;
mod survey;

pub use devices::{outside, own_descriptor};
pub use endings::Ending;
pub use files::{File, Files, Named, Origin, Shown};
pub use images::{Before, Image};
pub use ledger::{Ledger, Skipped, Told};
pub use loaders::{Loader, Loaders};
pub use overlaps::{Touch, Touches};
pub use paths::{Links, below, joined, split_last};
pub use pipes::{Pipe, Pipes, Taking};
pub use processes::{Held, Mapping, Process, Range, Slot};
pub use spelling::{
    ATTRIBUTE, SIZE, UNKNOWN, given_name, line_of, name_of, spelled, text_of, unspelled,
    word_spelling,
};
pub use stored::{Stored, StoredFile};
pub use survey::Survey;
