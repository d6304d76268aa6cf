//! The entries by which the content of a file changes.
ghost use Rattle.std.specs.Prelude.{◌≡◌, ◌+◌, ◌-◌, ◌≤◌, ◌<◌, IfOk, Some, length, slice_get};
ghost use Rattle.pass_entry.specs.Limits.{file_limit};
ghost use Rattle.pass_entry.specs.declared.entry.Act.TheVariants as act;
ghost use Rattle.pass_entry.specs.declared.entry.CallName.TheVariants as calls;
ghost use Rattle.pass_entry.specs.declared.entry.Reply.TheVariants as answer;
ghost use Rattle.pass_plain.specs.Files.{file_after, resized, written};
ghost use Rattle.pass_plain.specs.Versions.{nodes_of};
ghost use Rattle.pass_hold.specs.Entering.{MayEnter, Enters};
ghost use Rattle.pass_file.specs.Desks.{change_records, entry_on};

use crate::desk::FileDesk;
use pass_entry::{Act, Bytes, CallName, Entry, Node, Pnode, Record, Reply};
use pass_flow::Versioned;
use pass_hold::{Caller, Shelf, Whose};
use std::alloc::{AllocError, Global};

impl<J: Whose> FileDesk<J> {
    /// The records of the entry of a `Put`, if that is the next one on the file: the file's size, and the digest of each block that
    /// changes. They hang on the file alone, so nobody needs the book for them.
    pub fn put_records(
        &self,
        alloc: Global,
        at: u64,
        bytes: &Bytes,
    ) -> Result<Vec<Record>, AllocError>
        requires { at + length bytes.now ≤ file_limit }
        ensures { IfOk result (λ list. list.items ≡ change_records J.book.session self.now.seen self.now.what (act.Put 0 at bytes.now)) }
    {
        let bytes = bytes.clone()?;
        self.records(alloc, &Act::Put { out: 0, at, bytes })
    }

    /// The records of the entry of a `Cut`, if that is the next one on the file.
    pub fn cut_records(&self, alloc: Global, size: u64) -> Result<Vec<Record>, AllocError>
        requires { size ≤ file_limit }
        ensures { IfOk result (λ list. list.items ≡ change_records J.book.session self.now.seen self.now.what (act.Cut 0 size)) }
    {
        self.records(alloc, &Act::Cut { out: 0, size })
    }

    /// Makes the entry of a `Put`, by which a call of `pass_write` puts bytes at a place of the file, and answers the file's node
    /// there. `out` is the place of the entry of the call that gave the bytes, and `source` the node there. `list` has the records
    /// that `put_records` answers now.
    pub fn put(
        &mut self,
        shelf: &mut Shelf<J>,
        caller: &mut Caller<J>,
        who: Pnode,
        number: u64,
        list: Vec<Record>,
        out: u64,
        source: &Node,
        at: u64,
        bytes: Bytes,
    ) -> Node
        requires room { (at + length bytes ≤ self.old.room) × (1 ≤ self.old.spare) }
        requires list { list.items ≡ change_records J.book.session self.old.seen self.old.what (act.Put 0 at bytes) }
        requires place { 0 < caller.old.held }
        requires who { caller.old.who ≡ who }
        requires entry { MayEnter caller.old.seen (entry_on self.old.what who number calls.Write (act.Put out at bytes) answer.Done) 0 }
        requires source { slice_get (nodes_of J.book.session caller.old.seen) out ≡ Some source.now }
        ensures entry { Enters J.book.session caller.old caller.new self.old.seen (entry_on self.old.what who number calls.Write (act.Put out at bytes) answer.Done) 0 }
        ensures node { slice_get (nodes_of J.book.session caller.new.seen) (length caller.new.seen - 1) ≡ Some result }
        ensures state { self.new ≡ record self.old { seen = caller.new.seen; syncs = caller.new.syncs; spare = self.old.spare - 1; room = self.new.room } }
        ensures content { file_after J.book.session self.new.seen self.new.what ≡ written (file_after J.book.session self.old.seen self.old.what) at bytes }
        ensures shelf { shelf.new ≡ record shelf.old { history = caller.new.seen; syncs = shelf.new.syncs; claimed = shelf.new.claimed } }
    {
        let entry = Entry {
            who,
            number,
            call: CallName::Write,
            what: self.what(),
            act: Act::Put { out, at, bytes },
            reply: Reply::Done,
        };
        let (_place, node) = self.enter(shelf, caller, entry, Some(*source), list, 0);
        node
    }

    /// Makes the entry of a `Cut`, by which a call of `truncate` gives the file a size, and answers the file's node there. `out`
    /// is the place of the entry of the call by which its process is the source, and `source` the node there. `list` has the records
    /// that `cut_records` answers now.
    pub fn cut(
        &mut self,
        shelf: &mut Shelf<J>,
        caller: &mut Caller<J>,
        who: Pnode,
        number: u64,
        list: Vec<Record>,
        out: u64,
        source: &Node,
        size: u64,
    ) -> Node
        requires room { (size ≤ self.old.room) × (1 ≤ self.old.spare) }
        requires list { list.items ≡ change_records J.book.session self.old.seen self.old.what (act.Cut 0 size) }
        requires place { 0 < caller.old.held }
        requires who { caller.old.who ≡ who }
        requires entry { MayEnter caller.old.seen (entry_on self.old.what who number calls.Truncate (act.Cut out size) answer.Done) 0 }
        requires source { slice_get (nodes_of J.book.session caller.old.seen) out ≡ Some source.now }
        ensures entry { Enters J.book.session caller.old caller.new self.old.seen (entry_on self.old.what who number calls.Truncate (act.Cut out size) answer.Done) 0 }
        ensures node { slice_get (nodes_of J.book.session caller.new.seen) (length caller.new.seen - 1) ≡ Some result }
        ensures state { self.new ≡ record self.old { seen = caller.new.seen; syncs = caller.new.syncs; spare = self.old.spare - 1; room = self.new.room } }
        ensures content { file_after J.book.session self.new.seen self.new.what ≡ resized (file_after J.book.session self.old.seen self.old.what) size }
        ensures shelf { shelf.new ≡ record shelf.old { history = caller.new.seen; syncs = shelf.new.syncs; claimed = shelf.new.claimed } }
    {
        let entry = Entry {
            who,
            number,
            call: CallName::Truncate,
            what: self.what(),
            act: Act::Cut { out, size },
            reply: Reply::Done,
        };
        let (_place, node) = self.enter(shelf, caller, entry, Some(*source), list, 0);
        node
    }
}
