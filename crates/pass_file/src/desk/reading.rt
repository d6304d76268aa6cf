//! The entries by which data leaves a file.
ghost use Rattle.std.specs.Prelude.{◌≡◌, ◌≤◌, ◌<◌, IfOk, drop, take};
ghost use Rattle.pass_entry.specs.Limits.{transfer_limit};
ghost use Rattle.pass_entry.specs.declared.entry.Act.TheVariants as act;
ghost use Rattle.pass_entry.specs.declared.entry.CallName.TheVariants as calls;
ghost use Rattle.pass_entry.specs.declared.entry.Reply.TheVariants as answer;
ghost use Rattle.pass_plain.specs.Files.{file_after};
ghost use Rattle.pass_hold.specs.Places.{HasRoom};
ghost use Rattle.pass_hold.specs.Entering.{MayEnter, Enters, IsAt};
ghost use Rattle.pass_file.specs.Desks.{entry_on};

use crate::desk::FileDesk;
use crate::state::FileState;
use pass_entry::{Act, Bytes, CallName, Entry, Node, Pnode, Reply};
use pass_flow::Versioned;
use pass_hold::{Caller, Shelf, Whose};
use std::alloc::{AllocError, Global};

/// The bytes of a file from a place on, at most so many.
fn bytes_from(alloc: Global, state: &FileState, at: u64, len: u32) -> Result<Bytes, AllocError>
    requires { len ≤ transfer_limit }
    ensures { IfOk result (λ bytes. bytes ≡ take len (drop at state.now.bytes)) }
{
    let count = state.size().saturating_sub(at).min(u64::from(len)) as usize;
    let mut bytes = vec![in alloc; 0; count]?;
    state.read_into(at, bytes.as_mut_slice());
    match Bytes::from_vec(bytes) {
        Ok(bytes) => Ok(bytes),
        Err(_) => Err(AllocError),
    }
}

impl<J: Whose> FileDesk<J> {
    /// The bytes of the file from a place on, at most so many.
    pub fn read(&self, alloc: Global, at: u64, len: u32) -> Result<Bytes, AllocError>
        requires { len ≤ transfer_limit }
        ensures { IfOk result (λ bytes. bytes ≡ take len (drop at (file_after J.book.session self.now.seen self.now.what))) }
    {
        bytes_from(alloc, &self.state, at, len)
    }

    /// Makes the entry of a `Give`, by which a call of `pass_read` takes bytes out of the file, and answers its place and the
    /// file's node there. The bytes are those that `read` answers now.
    pub fn give(
        &mut self,
        alloc: Global,
        shelf: &mut Shelf<J>,
        caller: &mut Caller<J>,
        who: Pnode,
        number: u64,
        at: u64,
        len: u32,
        bytes: Bytes,
    ) -> (u64, Node)
        requires bytes { bytes ≡ take len (drop at (file_after J.book.session self.old.seen self.old.what)) }
        requires place { HasRoom shelf.old caller.old.held 3 }
        requires who { caller.old.who ≡ who }
        requires entry { MayEnter caller.old.seen (entry_on self.old.what who number calls.Read (act.Give at len) (answer.Took bytes)) 2 }
        ensures entry { Enters J.book.session caller.old caller.new self.old.seen (entry_on self.old.what who number calls.Read (act.Give at len) (answer.Took bytes)) 2 }
        ensures at { IsAt J.book.session caller.new.seen result }
        ensures state { self.new ≡ record self.old { seen = caller.new.seen; syncs = caller.new.syncs } }
        ensures shelf { shelf.new ≡ record shelf.old { history = caller.new.seen; syncs = shelf.new.syncs; claimed = shelf.new.claimed } }
    {
        let entry = Entry {
            who,
            number,
            call: CallName::Read,
            what: self.what(),
            act: Act::Give { at, len },
            reply: Reply::Took(bytes),
        };
        self.enter(shelf, caller, entry, None, Vec::new(alloc), 2)
    }

    /// Makes the entry of a `Load`, by which a call of `exec` runs the file as a program, and answers its place and the file's
    /// node there.
    pub fn load(
        &mut self,
        alloc: Global,
        shelf: &mut Shelf<J>,
        caller: &mut Caller<J>,
        who: Pnode,
        number: u64,
    ) -> (u64, Node)
        requires place { 1 < caller.old.held }
        requires who { caller.old.who ≡ who }
        requires entry { MayEnter caller.old.seen (entry_on self.old.what who number calls.Exec act.Load answer.Done) 1 }
        ensures entry { Enters J.book.session caller.old caller.new self.old.seen (entry_on self.old.what who number calls.Exec act.Load answer.Done) 1 }
        ensures at { IsAt J.book.session caller.new.seen result }
        ensures state { self.new ≡ record self.old { seen = caller.new.seen; syncs = caller.new.syncs } }
        ensures shelf { shelf.new ≡ record shelf.old { history = caller.new.seen; syncs = shelf.new.syncs; claimed = shelf.new.claimed } }
    {
        let entry = Entry {
            who,
            number,
            call: CallName::Exec,
            what: self.what(),
            act: Act::Load,
            reply: Reply::Done,
        };
        self.enter(shelf, caller, entry, None, Vec::new(alloc), 1)
    }
}
