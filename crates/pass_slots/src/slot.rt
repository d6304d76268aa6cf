//! What lies in the lock of an object.
ghost use Rattle.std.specs.Prelude.{◌≡◌, true};
ghost use Rattle.pass_slots.specs.Slots.{Has, HasObject};

use pass_entry::{Descriptor, Kind, Pnode};
use pass_file::FileDesk;
use pass_flow::{AppDesk, Versioned};
use pass_hold::{Blank, Whose};
use pass_pipe::PipeDesk;
use pass_proc::{Ended, Living};
use std::mem;

/// What lies in the lock of an object: its desk until its first use, then the object itself.
#[derive(Drop)]
pub enum Slot<J: Whose> {
    Blank(Blank<J>),
    File(FileDesk<J>),
    Pipe(PipeDesk<J>),
    App(AppDesk<J>),
    Living(Living<J>),
    Ended(Ended<J>),
    /// Nothing, while its holder works on what lay here.
    Empty,
}

/// What a caller looks for in the lock of an object.
#[derive(Clone, Copy, Drop)]
pub enum Sought {
    /// A desk that nobody has used.
    Blank,
    File,
    Pipe,
    /// The right to end a process.
    Living,
    /// A process that has ended, or the right to end it.
    Process,
}

impl<J: Whose> Slot<J> {
    /// Lays this here, in place of what lay here.
    pub fn lay(&mut self, held: Slot<J>)
        ensures { self.new ≡ held }
    {
        drop(mem::replace(self, held));
    }

    /// The file that lies here.
    pub fn into_file(self) -> Option<FileDesk<J>> {
        match self {
            Slot::File(file) => Some(file),
            other => {
                drop(other);
                None
            }
        }
    }

    /// What is looked for lies here, of this number.
    pub fn has(&self, sought: Sought, object: Pnode) -> bool
        ensures { result ≡ true → Has self.now sought object }
    {
        match (self, sought) {
            (Slot::Blank(found), Sought::Blank) => found.pnode() == object,
            (Slot::File(found), Sought::File) => found.what() == object,
            (Slot::Pipe(found), Sought::Pipe) => found.what() == object,
            (Slot::Living(found), Sought::Living) => found.pnode() == object,
            (Slot::Living(found), Sought::Process) => found.pnode() == object,
            (Slot::Ended(found), Sought::Process) => found.pnode() == object,
            _ => false,
        }
    }

    /// The number of the file that lies here.
    pub fn file(&self) -> Option<Pnode> {
        match self {
            Slot::File(file) => Some(file.what()),
            _ => None,
        }
    }

    /// The object of a descriptor lies here.
    pub fn has_object(&self, d: &Descriptor) -> bool
        ensures { result ≡ true → HasObject self.now d.now }
    {
        match (self, d.kind) {
            (Slot::File(found), Kind::File) => found.what() == d.pnode,
            (Slot::Pipe(found), Kind::Pipe) => found.what() == d.pnode,
            (Slot::App(found), Kind::App) => found.what() == d.pnode,
            _ => false,
        }
    }
}
