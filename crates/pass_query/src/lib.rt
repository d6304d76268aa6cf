//! Questions on the graph of versions of a log.
//!
//! `ancestors` and `descendants` answer exactly the nodes that a path joins with the given node, sorted, each once (`all`). `path`
//! answers a path with as few edges as any, the least of these compared node by node (`least`), and none exactly where there is
//! none (`none`). `NoObject` names the first given node that the graph hasn't (`absent`). The search is handed a walk that gives
//! the edges of a node for steps, and not the index, so a bound on steps bounds the edges that it looks at (`steps`, `counted`).
//! That each edge which is looked at takes a step is how the walk is written. `named`, `to_text` and `to_json` are exactly the
//! definitions. `answer` is the text that answers a question, or names the first node that isn't there (`text`, `absent`).
#![tactic(auto)]

mod fault;
mod lineage;
mod naming;
mod output;
mod question;
mod routes;
mod search;
mod steps;
mod walk;

pub use fault::QueryFault;
pub use lineage::{ancestors, descendants};
pub use naming::named;
pub use output::{no_path, to_json, to_text};
pub use question::{Form, Query, answer};
pub use routes::path;
pub use steps::Steps;
