//! Questions that are asked by names and answered with names.
//!
//! A node may be given by the name of a file (`Spelled`). `inquire` gives the text of exactly the nodes that answer (`text`), each with
//! its kind and with the name of a file, what a process ran, or the attributes of an app object, as the records tell it; `NoObject`
//! names the first given node that the graph hasn't, and node 0.0 where no file ever had the name (`absent`). `Inputs` and `Outputs`
//! are the versions of files that edges join with the node; where only data count, edges of data (`is_data`), and where it is asked
//! for, without the files of the system (`is_system_name`). Each edge is looked at a fixed number of times.
#![tactic(auto)]

mod attributes;
mod facts;
mod files;
mod flows;
mod inquiry;
mod output;
mod spelled;
mod told;

pub use attributes::Attributes;
pub use facts::{Naming, Ran};
pub use inquiry::{Choice, Inquiry, Wanted, inquire};
pub use spelled::{Spelled, node_meant};
pub use told::{Title, Told};
