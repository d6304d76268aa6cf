//! What a node came from, as a tar.
//!
//! `write_tar` writes each version of a file among a node and all that it came from, with its bytes in an archive, as the definition
//! has it (`IsTarOf`), and answers those that the archive lacks. All memory is taken before the first byte is written, so want of
//! memory leaves the sink as it was. Beside the leaves there lie in memory the headers, and of the contents the longest one alone. All
//! leaves are gone through twice before, and for each file its own ones, at most twice.
#![tactic(auto)]

mod choosing;
mod facts;
mod fault;
mod places;
mod planning;
mod shown;
mod tar;
mod writing;

pub use fault::TarFault;
pub use tar::write_tar;
