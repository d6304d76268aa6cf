//! Number fields, big-endian: taken off the front of bytes, and put at the end of a vector.
//!
//! A field that was written is read again, whatever bytes come behind it.
#![tactic(auto)]

mod cursor;
mod put;

pub use cursor::{Cursor, Short};
pub use put::{put_u8, put_u16, put_u32, put_u64};
