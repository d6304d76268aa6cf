//! The calls that move bytes between processes, files, pipes and memory, and the lines that they are in a trace. No clause says
//! which lines.
#![tactic(auto)]

mod executing;
mod leaving;
mod mappings;
mod transfers;

pub use executing::exec;
pub use leaving::leave;
pub use mappings::{map, protect, unmap_part};
pub use transfers::{
    copy_range, cut, cut_name, device, payload_of, pour, seek, send_file, tee, transfer,
};
