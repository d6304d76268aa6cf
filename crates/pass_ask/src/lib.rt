//! Questions about a store, and the following of another one's log: what the words of a command ask for, and what is
//! answered.
//!
//! It stands on no store. `read_words` gives exactly the command that the words name (`command`,
//! `workers`): the command line of `Line` takes the words, as `clap`'s contract says, and the table of commands (`Words`)
//! has them. `ask` answers `check` and the questions: its statuses come exactly by cause (words, pattern, disk, store, a
//! node or a place that isn't there). The text of `check` is exactly the counts and the unmatched ranges of the log and the
//! store area as they read; the text of a question is the definitions' answer over the records of the log. Unless a device
//! call failed the disk reads as before, and each crash leaves what it might have left before (`answer`, `write_fault`,
//! `unwritten`, `unopened`, `alone`, `later`). `ask_for` is `ask` over words that were read, and `show` says the same of
//! the words of `passview`. `ask_lines` answers the questions of a source, each a line, over one index: by definition each text is
//! what its question alone writes, and where memory or the sink fails, those of the first lines were given (`answer`, `starved`,
//! `laws::answered_alone`). `writes` tells exactly whether words are those of a command that writes, and want of memory
//! apart.
//!
//! `follow` hands a standby what the source gives. Its status is judged by the bytes of the log area and of the stream,
//! each cause exactly: the device's faults come first, then the log's, then the source's or the stream's (`judged`). Each
//! crash leaves what it might have left before, or the log with some of the whole frames that came, byte by byte
//! (`HasSomeMore`); unless a device call failed it then leaves all of them (`on_disk`, `stands`). A follower that had
//! nothing and took all that is sent of a log has that log (`laws::sent`). `write_answer` writes the text of a status; a
//! fault of the sink replaces the status exactly where its count rose (`fault`), and then a prefix was taken (`part`).
#![tactic(auto)]

mod asking;
mod counting;
mod following;
mod graph;
mod judged;
pub mod laws;
mod line;
mod listing;
mod matching;
mod numbers;
mod opening;
mod pattern_text;
mod questions;
mod sending;
mod showing;
mod store_name;
mod telling;
mod words;
mod writing;

pub use asking::{Asked, ask, ask_for};
pub use following::{Followed, follow};
pub use judged::Judged;
pub use numbers::{LAST_NUMBER, node_in, number_in};
pub use opening::open_index;
pub use pass_status::Status;
pub use pattern_text::PatternText;
pub use questions::ask_lines;
pub use showing::show;
pub use store_name::StoreName;
pub use telling::spelled_in;
pub use words::{Command, GraphQuestion, Question, read_words, writes};
pub use writing::write_answer;
