//! A process in the slot in which its desk lies once it has ended.
ghost use Rattle.std.specs.Prelude.{◌≡◌, ◌+◌, ◌<◌, false, true, length};
ghost use Rattle.pass_entry.specs.declared.entry.Act.TheVariants as act;
ghost use Rattle.pass_entry.specs.declared.entry.CallName.TheVariants as calls;
ghost use Rattle.pass_entry.specs.declared.entry.Reply.TheVariants as answer;
ghost use Rattle.pass_plain.specs.Legal.{CallerAllows};
ghost use Rattle.pass_plain.specs.Lineages.{used};
ghost use Rattle.pass_plain.specs.Processes.{has_ended};
ghost use Rattle.pass_hold.specs.Callings.{IsEntered};
ghost use Rattle.pass_hold.specs.Places.{HasRoom};
ghost use Rattle.pass_hold.specs.Entering.{MayEnter, Enters, IsAt};
ghost use Rattle.pass_proc.specs.Acts.{own_entry};
ghost use Rattle.pass_proc.specs.Ends.{end_entry, reap_entry};

use crate::desk::ProcessDesk;
use crate::trail::Trail;
use pass_book::{Desk, Last, Note, Slip};
use pass_entry::{Act, CallName, Entry, Node, Pnode, Reply};
use pass_hold::{Caller, Shelf, Whose};
use pass_version::Versions;
use std::alloc::Global;
use std::marker::{Model, PhantomData};

/// The right to end a process, which lies in the process's slot as long as the process lives.
#[derive(Drop)]
pub struct Living<J: Whose> {
    who: Pnode,
    last: Last,
    whose: PhantomData<J>,
}

impl<J: Whose> Model for Living<J> {
    ghost use Rattle.std.specs.Prelude.{◌≡◌};
    ghost use Rattle.std.specs.Coded.{codes};
    ghost use Rattle.pass_entry.specs.contracts.entry.Entry as entry_type;
    ghost use Rattle.pass_proc.specs.Ends.{LivingView};

    ghost Value = { LivingView };

    ghost coded = { Prim.hlevel (codes, entry_type.the_row.coded) };

    ghost view = { λ l. record { who = l.who; seen = l.last.seen } };

    ghost invariant = { λ l. (l.last.book ≡ J.book) × (l.last.what ≡ l.who) };
}

impl<J: Whose> Living<J> {
    /// A process that has begun.
    pub fn of(who: Pnode, last: Last) -> Living<J>
        requires { (last.book ≡ J.book) × (last.what ≡ who) }
        ensures { result ≡ record { who = who; seen = last.seen } }
    {
        Living {
            who,
            last,
            whose: PhantomData,
        }
    }

    /// The process's number as an object.
    pub fn pnode(&self) -> Pnode
        ensures { result ≡ self.now.who }
    {
        self.who
    }

    /// It sees what the holder of a note had seen. Where it is found here, the process has not ended in that.
    pub fn meet(&mut self, note: Note)
        requires { note.book ≡ J.book }
        ensures lives { has_ended note.seen self.old.who ≡ false }
        ensures who { self.new.who ≡ self.old.who }
    {
        self.last.meet(note);
    }
}

/// A process that has ended, with its desk and its last version.
#[derive(Drop)]
pub struct Ended<J: Whose> {
    who: Pnode,
    versions: Versions,
    desk: Desk,
    whose: PhantomData<J>,
}

impl<J: Whose> Model for Ended<J> {
    ghost use Rattle.std.specs.Prelude.{◌≡◌};
    ghost use Rattle.std.specs.Coded.{codes};
    ghost use Rattle.pass_entry.specs.contracts.entry.Entry as entry_type;
    ghost use Rattle.pass_entry.specs.contracts.objects.Node as node_type;
    ghost use Rattle.pass_proc.specs.Ends.{EndedView, HasEnded};

    ghost Value = { EndedView };

    ghost coded = { Prim.hlevel (codes, entry_type.the_row.coded, node_type.the_row.coded) };

    ghost view = { λ p. record { who = p.who; seen = p.desk.seen; lineage = p.versions.lineage } };

    ghost invariant = { λ p. (p.desk.book ≡ J.book) × (p.desk.what ≡ p.who) × HasEnded J.book.session (record { who = p.who; seen = p.desk.seen; lineage = p.versions.lineage }) };
}

impl<J: Whose> Ended<J> {
    /// The process's number.
    pub fn pnode(&self) -> Pnode
        ensures { result ≡ self.now.who }
    {
        self.who
    }

    /// Its holder sees the whole history, in which the process has ended.
    pub fn look(&mut self, shelf: &mut Shelf<J>)
        ensures state { self.new ≡ record self.old { seen = shelf.old.history } }
        ensures ended { has_ended shelf.old.history self.old.who ≡ true }
        ensures shelf { shelf.new ≡ record shelf.old { syncs = shelf.new.syncs } }
    {
        shelf.show(&mut self.desk);
    }

    /// Is used as the source of its parent, which waits for it, and answers the place and its node.
    pub fn reap(
        &mut self,
        alloc: Global,
        shelf: &mut Shelf<J>,
        caller: &mut Caller<J>,
        who: Pnode,
        number: u64,
    ) -> (u64, Node)
        requires place { HasRoom shelf.old caller.old.held 3 }
        requires who { caller.old.who ≡ who }
        requires entry { MayEnter caller.old.seen (reap_entry who number self.old.who) 2 }
        ensures entry { Enters J.book.session caller.old caller.new self.old.seen (reap_entry who number self.old.who) 2 }
        ensures at { IsAt J.book.session caller.new.seen result }
        ensures state { self.new ≡ record self.old { seen = caller.new.seen; lineage = used self.old.lineage } }
    {
        let entry = Entry {
            who,
            number,
            call: CallName::WaitChild,
            what: self.who,
            act: Act::Reap,
            reply: Reply::Done,
        };
        let place = caller.enter(shelf, &mut self.desk, Slip::new(alloc), entry, 2);
        let node = self.versions.mark();
        (place, node)
    }

    /// Shows its end to its parent, which waits for it and takes nothing from it: its version stays as it is.
    pub fn show_end(
        &mut self,
        alloc: Global,
        shelf: &mut Shelf<J>,
        caller: &mut Caller<J>,
        who: Pnode,
        number: u64,
    )
        requires place { HasRoom shelf.old caller.old.held 3 }
        requires who { caller.old.who ≡ who }
        requires entry { MayEnter caller.old.seen (end_entry who number self.old.who) 2 }
        ensures entry { Enters J.book.session caller.old caller.new self.old.seen (end_entry who number self.old.who) 2 }
        ensures state { self.new ≡ record self.old { seen = caller.new.seen } }
    {
        let entry = Entry {
            who,
            number,
            call: CallName::Await,
            what: self.who,
            act: Act::Ended,
            reply: Reply::Done,
        };
        caller.enter(shelf, &mut self.desk, Slip::new(alloc), entry, 2);
    }
}

impl<J: Whose> ProcessDesk<J> {
    /// Ends the process, and answers the place of its last entry, what lies in its slot from now on, and what it had seen.
    pub fn finish(
        self,
        alloc: Global,
        shelf: &mut Shelf<J>,
        caller: Caller<J>,
        living: Living<J>,
        number: u64,
    ) -> (u64, Ended<J>, Trail<J>)
        requires own { 0 < caller.own }
        requires who { caller.who ≡ self.who }
        requires last { living.who ≡ self.who }
        requires allows { CallerAllows caller.seen (own_entry self.who number calls.Exit act.Finish answer.Done) }
        ensures entered { IsEntered J.book.session caller.seen self.seen result.2.seen (own_entry self.who number calls.Exit act.Finish answer.Done) }
        ensures place { result.0 + 1 ≡ length result.2.seen }
        ensures ended { result.1 ≡ record { who = self.who; seen = result.2.seen; lineage = self.lineage } }
        ensures trail { result.2.who ≡ self.who }
    {
        let ProcessDesk {
            who,
            holdings: _,
            versions,
            mut desk,
            whose: _,
        } = self;
        let Living {
            who: _,
            last,
            whose: _,
        } = living;
        let entry = Entry {
            who,
            number,
            call: CallName::Exit,
            what: who,
            act: Act::Finish,
            reply: Reply::Done,
        };
        let (place, line) = caller.finish(shelf, &mut desk, last, Slip::new(alloc), entry);
        let ended = Ended {
            who,
            versions,
            desk,
            whose: PhantomData,
        };
        (place, ended, Trail::of_line(line))
    }
}
