//! The calls of each process: which have ended, and what its forks made.
ghost use Rattle.std.specs.Prelude.{ℕ, List, [], ◌∷◌, ◌++◌, ◌≡◌, ◌==◌, ◌&&◌, ◌||◌, true, false, Some, None, OnOk, nat_lt};
ghost use Rattle.pass_entry.specs.declared.entry.Entry.{Entry as AnyEntry};
ghost use Rattle.pass_plain.specs.Histories.{is_of_call, pnode_of as pnode_of_reply};
ghost use Rattle.pass_plain.specs.Calls.{is_last};
ghost use Rattle.pass_plain.specs.Legal.{before_call};
ghost use Rattle.pass_report.specs.CallTables.{makes_process as makes_process_of, child_in, ended_by, child_by, IsCallTable};

use pass_entry::{Act, Entry, Kind, Pnode};
use pass_plain::steps::pnode_of;
use std::alloc::{AllocError, Global};
use std::collections::BTreeMap;

// The last call of a process, and whether it has ended.
#[derive(Clone, Copy)]
struct LastCall {
    number: u64,
    ended: bool,
}

/// The last call of each process, and the processes that calls have made.
#[derive(Drop)]
pub struct Calls {
    last: BTreeMap<Pnode, LastCall>,
    children: BTreeMap<(Pnode, u64), Pnode>,
}

impl LastCall {
    fn is_over(&self, number: u64) -> bool
        ensures { result ≡ nat_lt number self.now.number || number == self.now.number && self.now.ended }
    {
        number < self.number || (number == self.number && self.ended)
    }
}

fn makes_process(act: &Act) -> bool
    ensures { result ≡ makes_process_of act.now }
{
    matches!(
        act,
        Act::Mint {
            kind: Kind::Process
        }
    )
}

impl Calls {
    /// Before the first entry.
    pub fn new(alloc: Global) -> Calls
        ensures { IsCallTable [] result }
    {
        Calls {
            last: BTreeMap::new(alloc),
            children: BTreeMap::new(alloc),
        }
    }

    /// One more entry, which ends its call or doesn't.
    pub fn note(&mut self, entry: &Entry, ended: bool) -> Result<(), AllocError>
        ensures { OnOk result ((past : List AnyEntry) → ended ≡ is_last (before_call past entry.now.who entry.now.number) entry.now
            → IsCallTable past self.old → IsCallTable (past ++ entry.now ∷ []) self.new) }
    {
        let call = LastCall {
            number: entry.number,
            ended,
        };
        self.last.insert(entry.who, call)?;
        self.note_child(entry)
    }

    // What the first entry of a call makes stays noted.
    fn note_child(&mut self, entry: &Entry) -> Result<(), AllocError>
        ensures last { self.new.last ≡ self.old.last }
        ensures made { OnOk result (makes_process_of entry.now.act ≡ true → child_in self.old entry.now.who entry.now.number ≡ None → child_in self.new entry.now.who entry.now.number ≡ Some (pnode_of_reply entry.now.reply)) }
        ensures kept { OnOk result ((who number child : ℕ) → child_in self.old who number ≡ Some child → child_in self.new who number ≡ Some child) }
        ensures others { OnOk result ((who number : ℕ) → is_of_call who number entry.now ≡ false → child_in self.new who number ≡ child_in self.old who number) }
    {
        let key = (entry.who, entry.number);
        if makes_process(&entry.act) && !self.children.contains_key(&key) {
            self.children.insert(key, pnode_of(&entry.reply))?;
        }
        Ok(())
    }

    /// The call of this number has ended, in a history in which all calls of a process but its last one have.
    pub fn is_over(&self, who: Pnode, number: u64) -> bool
        ensures { result ≡ ended_by self.now who number }
    {
        match self.last.get(&who) {
            Some(call) => call.is_over(number),
            None => false,
        }
    }

    /// The process that the call of this number has made.
    pub fn child(&self, who: Pnode, number: u64) -> Pnode
        ensures { result ≡ child_by self.now who number }
    {
        match self.children.get(&(who, number)) {
            Some(child) => *child,
            None => Pnode(0),
        }
    }
}
