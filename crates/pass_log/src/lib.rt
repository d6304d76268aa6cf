//! The log: records in frames behind gates, so that a crash leaves each frame whole or not at all.
//!
//! `read_image` answers the records of an area's bytes, and names each fault exactly: an area that is too long, the first broken
//! frame, the first record that isn't one. `read_bytes` gives the bytes. `append` and `append_frame` write a frame behind the
//! closed gate, sync it, and then open the gate. Every image since the call began has the old records, or the old records and the
//! whole batch (`any_moment`); after Ok every image has both (`acknowledged`). Byte by byte `append_frame` also says: after Ok the
//! area holds its old bytes up to the old end, and behind them the frame as it stands in a log (`bytes`), and every image has the
//! area as it reads (`durable`); every image since the call began has those old bytes, alone or with the frame (`frame_moment`).
//! Each image that a call adds has the store area of an image before it (`store`). An append that is done makes four device calls,
//! an opening two or none (`calls`, `untouched`). After a fault of the disk both answer Broken until the log is opened again
//! (`broken`). What a call does to the disk's counts is one relation (`work`). `spell` gives the bytes of a batch.
#![tactic(auto)]

mod area;
mod fault;
mod frame;
mod image;
mod log;

pub use area::{read_bytes, read_image};
pub use fault::LogFault;
pub use frame::{spell, stage};
pub use image::LogImage;
pub use log::Log;
