//! A graph of versions, or what a node came from, as a picture and in the standard form of provenance.
//!
//! `select` gives the nodes, each once and ascending (`nodes`), each with its kind, its name, the last name that it was given,
//! whether the system brings it, and its attributes in the order of the records (`told`), and the edges that leave them, each once
//! (`edges`). What an edge means follows from which of its ends are processes (`related`). `NoObject` comes exactly where the graph
//! hasn't the node (`absent`). `dot` and `prov` write exactly the definitions' texts of such a view, `plain` takes the system's
//! files and their edges out of it (`nodes`, `edges`); PROV is a tree of JSON, written by the kit's writer. `view_text` is all of
//! them together, from the index to the text (`text`, `absent`). `tabulate` writes a view as a table of CSV, by the kit's writer, and
//! `table_text` does it from the index (`text`, `there`); the rows of a table read back (`laws::rows_read_back`), and a key tells the
//! store and the node (`laws::keys_apart`). That Graphviz and readers of PROV take these texts is tested in `cases/pictures`, and
//! that SQLite reads the tables in `cases/tables`.
#![tactic(auto)]

mod csvs;
mod dots;
mod facts;
mod labels;
pub mod laws;
mod picture;
mod provs;
mod selecting;
mod tags;
mod texts;

pub use csvs::{Table, tabulate};
pub use dots::{dot, plain};
pub use facts::is_system_name;
pub use labels::str_of;
pub use picture::{Link, Relation, Shown, View};
pub use provs::prov;
pub use selecting::select;
pub use tags::Tags;
pub use texts::{Form, table_text, view_text};
