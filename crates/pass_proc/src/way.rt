//! A write to a pipe that has made its first entry.
ghost use Rattle.std.specs.Prelude.{◌≡◌, ◌==◌, ◌&&◌, bytes_eq};

use pass_entry::{Bytes, Descriptor, Node};

/// A write to a pipe without room, whose first entry stands at the place `out`: the bytes go by the descriptor that the process held
/// then, from the node `source` that it had. The same call goes on with it, and another call that makes an entry leaves it.
#[derive(Drop)]
pub struct Way {
    pub fd: u8,
    pub bytes: Bytes,
    pub to: Descriptor,
    pub out: u64,
    pub source: Node,
}

impl Way {
    /// It is a write of these bytes by this descriptor.
    pub fn is_of(&self, fd: u8, bytes: &Bytes) -> bool
        ensures { result ≡ (self.now.fd == fd && bytes_eq self.now.bytes bytes.now) }
    {
        self.fd == fd && self.bytes.as_bytes() == bytes.as_bytes()
    }
}
