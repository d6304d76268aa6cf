//! The acts by which a living process takes from other objects.
ghost use Rattle.std.specs.Prelude.{◌≡◌, ◌-◌, ◌<◌, [], true, None, Some, length, if◌then◌else◌};
ghost use Rattle.std.specs.FinSet as finite_set;
ghost use Rattle.pass_entry.specs.declared.entry.Act.TheVariants as act;
ghost use Rattle.pass_entry.specs.declared.entry.Ask.TheVariants as ask;
ghost use Rattle.pass_entry.specs.declared.entry.CallName.TheVariants as calls;
ghost use Rattle.pass_entry.specs.declared.entry.Reply.TheVariants as answer;
ghost use Rattle.pass_plain.specs.Histories.{bytes_at};
ghost use Rattle.pass_plain.specs.Lineages.{IsAlike, has, linked};
ghost use Rattle.pass_plain.specs.Processes.{AllBelow64, Gains, changed_at, process_act, refusal, risen};
ghost use Rattle.pass_plain.specs.Versions.{nodes_of, source_in};
ghost use Rattle.pass_version.specs.declared.versions.Taken.TheVariants as taken_as;
ghost use Rattle.pass_hold.specs.Entering.{MayEnter, Enters};
ghost use Rattle.pass_proc.specs.Acts.{bytes_in, is_taking, own_entry};

use crate::desk::ProcessDesk;
use pass_entry::{Act, Bytes, CallName, Entry, Node, Pnode, Reply};
use pass_hold::{Caller, Shelf, Whose, slip_of};
use pass_version::Taken;
use std::alloc::Global;

impl<J: Whose> ProcessDesk<J> {
    /// Makes the last entry of a call, by which the process takes from a source. `gained` are the bytes that a `Gain` gains.
    fn enter_taking(
        &mut self,
        alloc: Global,
        shelf: &mut Shelf<J>,
        caller: &mut Caller<J>,
        entry: Entry,
        source: &Node,
        gained: Option<Bytes>,
    ) -> Taken
        requires act { is_taking entry.act ≡ true }
        requires numbers { AllBelow64 entry.act }
        requires gained { Gains caller.old.seen entry.act (bytes_in gained) }
        requires sources { finite_set.len (process_act [] self.old.state entry.act).children < self.old.spare }
        requires done { entry.reply ≡ answer.Done }
        requires own { (entry.who ≡ self.old.who) × (entry.what ≡ self.old.who) }
        requires place { 0 < caller.old.held }
        requires who { caller.old.who ≡ self.old.who }
        requires entry { MayEnter caller.old.seen entry 0 }
        requires source { source_in (nodes_of J.book.session caller.old.seen) entry ≡ Some source.now }
        ensures entry { Enters J.book.session caller.old caller.new self.old.seen entry 0 }
        ensures taken { result ≡ (if has self.old.lineage source.now then taken_as.Dropped else if self.old.lineage.marked then taken_as.FrozenAndLinked else taken_as.Linked) }
        ensures lineage { IsAlike self.new.lineage (linked self.old.lineage source.now) }
        ensures state { self.new ≡ record self.old { seen = caller.new.seen; state = process_act caller.old.seen self.old.state entry.act; lineage = self.new.lineage; spare = self.old.spare - 1 } }
    {
        let _ = self.desk.seen();
        self.holdings.apply(&entry.act, gained);
        let taken = self.versions.take(*source);
        let slip = slip_of(taken, &self.versions.current(), source, Vec::new(alloc));
        caller.enter(shelf, &mut self.desk, slip, entry, 0);
        taken
    }

    /// Takes the bytes that a source gave as its last read ones. Room for the source was reserved.
    pub fn gain(
        &mut self,
        alloc: Global,
        shelf: &mut Shelf<J>,
        caller: &mut Caller<J>,
        number: u64,
        out: u64,
        fd: u8,
        bytes: Bytes,
        source: &Node,
    ) -> Taken
        requires fd { fd < 64 }
        requires bytes { bytes_at caller.old.seen out ≡ bytes }
        requires room { finite_set.len self.old.state.children < self.old.spare }
        requires place { 0 < caller.old.held }
        requires who { caller.old.who ≡ self.old.who }
        requires entry { MayEnter caller.old.seen (own_entry self.old.who number calls.Read (act.Gain out fd) answer.Done) 0 }
        requires source { source_in (nodes_of J.book.session caller.old.seen) (own_entry self.old.who number calls.Read (act.Gain out fd) answer.Done) ≡ Some source.now }
        ensures entry { Enters J.book.session caller.old caller.new self.old.seen (own_entry self.old.who number calls.Read (act.Gain out fd) answer.Done) 0 }
        ensures taken { result ≡ (if has self.old.lineage source.now then taken_as.Dropped else if self.old.lineage.marked then taken_as.FrozenAndLinked else taken_as.Linked) }
        ensures lineage { IsAlike self.new.lineage (linked self.old.lineage source.now) }
        ensures state { self.new ≡ record self.old { seen = caller.new.seen; state = record self.old.state { descriptors = changed_at self.old.state.descriptors fd (risen (length bytes)); last_read = bytes }; lineage = self.new.lineage; spare = self.old.spare - 1 } }
    {
        let entry = Entry {
            who: self.who,
            number,
            call: CallName::Read,
            what: self.who,
            act: Act::Gain { out, fd },
            reply: Reply::Done,
        };
        self.enter_taking(alloc, shelf, caller, entry, source, Some(bytes))
    }

    /// Takes from a child that has ended, and waits for it no more. Its place was reserved when the child was made.
    pub fn gather(
        &mut self,
        alloc: Global,
        shelf: &mut Shelf<J>,
        caller: &mut Caller<J>,
        number: u64,
        out: u64,
        child: Pnode,
        source: &Node,
    ) -> Taken
        requires child { refusal self.old.state (ask.Child child) ≡ None }
        requires place { 0 < caller.old.held }
        requires who { caller.old.who ≡ self.old.who }
        requires entry { MayEnter caller.old.seen (own_entry self.old.who number calls.WaitChild (act.Gather out child) answer.Done) 0 }
        requires source { source_in (nodes_of J.book.session caller.old.seen) (own_entry self.old.who number calls.WaitChild (act.Gather out child) answer.Done) ≡ Some source.now }
        ensures entry { Enters J.book.session caller.old caller.new self.old.seen (own_entry self.old.who number calls.WaitChild (act.Gather out child) answer.Done) 0 }
        ensures taken { result ≡ (if has self.old.lineage source.now then taken_as.Dropped else if self.old.lineage.marked then taken_as.FrozenAndLinked else taken_as.Linked) }
        ensures lineage { IsAlike self.new.lineage (linked self.old.lineage source.now) }
        ensures state { self.new ≡ record self.old { seen = caller.new.seen; state = record self.old.state { children = finite_set.remove self.old.state.children child }; lineage = self.new.lineage; spare = self.old.spare - 1 } }
    {
        let entry = Entry {
            who: self.who,
            number,
            call: CallName::WaitChild,
            what: self.who,
            act: Act::Gather { out, child },
            reply: Reply::Done,
        };
        self.enter_taking(alloc, shelf, caller, entry, source, None)
    }
}
