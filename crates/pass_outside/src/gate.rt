//! Gates, by which tests hold a caller back.
use pass_entry::Pnode;

/// Where the program tells where it is. A gate answers nothing and has no faults.
pub trait Gate {
    /// Called before the call of a trace's line is made, with no lock held.
    fn enter(&self, process: u32, line: u32);

    /// Called once in each step, while the lock of that object is held.
    fn inside(&self, pnode: Pnode);
}

/// Returns at once, and so holds nobody back.
#[derive(Clone, Copy)]
pub struct OpenGate;

impl Gate for OpenGate {
    fn enter(&self, _process: u32, _line: u32) {}

    fn inside(&self, _pnode: Pnode) {}
}
