//! The acts by which a living process refuses a call, changes its descriptors, lets a child go, and is used as a source.
ghost use Rattle.std.specs.Prelude.{◌≡◌, ◌+◌, ◌-◌, ◌<◌, ◌≤◌, [], true, None, Some, length};
ghost use mathlib.Core.List.{IsPrefix};
ghost use Rattle.std.specs.FinMap as finite_map;
ghost use Rattle.std.specs.FinSet as finite_set;
ghost use Rattle.pass_entry.specs.declared.entry.Act.TheVariants as act;
ghost use Rattle.pass_entry.specs.declared.entry.Ask.TheVariants as ask;
ghost use Rattle.pass_entry.specs.declared.entry.CallName.TheVariants as calls;
ghost use Rattle.pass_entry.specs.declared.entry.Reply.TheVariants as answer;
ghost use Rattle.pass_entry.specs.declared.objects.Mode.TheVariants as mode;
ghost use Rattle.pass_plain.specs.Lineages.{used};
ghost use Rattle.pass_plain.specs.Processes.{AllBelow64, changed_at, pipe_end, process_act, refusal, risen};
ghost use Rattle.pass_book.specs.Syncs.{Backs};
ghost use Rattle.pass_hold.specs.Places.{HasRoom};
ghost use Rattle.pass_hold.specs.Entering.{MayEnter, Enters, IsAt};
ghost use Rattle.pass_proc.specs.Acts.{is_quiet, is_use, own_entry, room_needed};

use crate::desk::ProcessDesk;
use pass_book::Slip;
use pass_entry::{Act, Ask, CallFault, CallName, Descriptor, Entry, Node, Pnode, Reply};
use pass_hold::{Caller, Shelf, Whose};
use std::alloc::Global;

impl<J: Whose> ProcessDesk<J> {
    /// Refuses a call, whose one entry this is.
    pub fn deny(
        &mut self,
        alloc: Global,
        shelf: &mut Shelf<J>,
        caller: &mut Caller<J>,
        number: u64,
        call: CallName,
        ask: Ask,
        fault: CallFault,
    )
        requires refused { refusal self.old.state ask ≡ Some fault }
        requires place { HasRoom shelf.old caller.old.held 3 }
        requires who { caller.old.who ≡ self.old.who }
        requires entry { MayEnter caller.old.seen (own_entry self.old.who number call (act.Deny ask) (answer.Fault fault)) 0 }
        ensures entry { Enters J.book.session caller.old caller.new self.old.seen (own_entry self.old.who number call (act.Deny ask) (answer.Fault fault)) 0 }
        ensures same { self.new ≡ record self.old { seen = caller.new.seen } }
    {
        let entry = Entry {
            who: self.who,
            number,
            call,
            what: self.who,
            act: Act::Deny { ask },
            reply: Reply::Fault(fault),
        };
        caller.enter(shelf, &mut self.desk, Slip::new(alloc), entry, 0);
    }

    /// Makes an entry that changes at most the descriptors or lets a child go.
    fn enter_quiet(
        &mut self,
        alloc: Global,
        shelf: &mut Shelf<J>,
        caller: &mut Caller<J>,
        entry: Entry,
        keep: u32,
    )
        requires act { is_quiet entry.act ≡ true }
        requires numbers { AllBelow64 entry.act }
        requires done { entry.reply ≡ answer.Done }
        requires own { (entry.who ≡ self.old.who) × (entry.what ≡ self.old.who) }
        requires place { HasRoom shelf.old caller.old.held (keep + 1) }
        requires who { caller.old.who ≡ self.old.who }
        requires backs { Backs J.book.session caller.old.seen (length caller.old.seen) caller.old.syncs entry }
        requires entry { MayEnter caller.old.seen entry keep }
        ensures entry { Enters J.book.session caller.old caller.new self.old.seen entry keep }
        ensures state { self.new ≡ record self.old { seen = caller.new.seen; state = process_act [] self.old.state entry.act } }
        ensures grows { IsPrefix caller.old.syncs caller.new.syncs }
    {
        let _ = self.desk.seen();
        self.holdings.apply(&entry.act, None);
        caller.enter(shelf, &mut self.desk, Slip::new(alloc), entry, keep);
    }

    /// Holds a descriptor under a number.
    pub fn attach(
        &mut self,
        alloc: Global,
        shelf: &mut Shelf<J>,
        caller: &mut Caller<J>,
        number: u64,
        call: CallName,
        fd: u8,
        descriptor: &Descriptor,
    )
        requires fd { fd < 64 }
        requires place { 0 < caller.old.held }
        requires who { caller.old.who ≡ self.old.who }
        requires entry { MayEnter caller.old.seen (own_entry self.old.who number call (act.Attach fd descriptor.now) answer.Done) 0 }
        ensures entry { Enters J.book.session caller.old caller.new self.old.seen (own_entry self.old.who number call (act.Attach fd descriptor.now) answer.Done) 0 }
        ensures state { self.new ≡ record self.old { seen = caller.new.seen; state = record self.old.state { descriptors = finite_map.insert self.old.state.descriptors fd descriptor.now } } }
    {
        let entry = Entry {
            who: self.who,
            number,
            call,
            what: self.who,
            act: Act::Attach {
                fd,
                descriptor: *descriptor,
            },
            reply: Reply::Done,
        };
        self.enter_quiet(alloc, shelf, caller, entry, 0);
    }

    /// Holds both ends of a new pipe.
    pub fn attach_pipe(
        &mut self,
        alloc: Global,
        shelf: &mut Shelf<J>,
        caller: &mut Caller<J>,
        number: u64,
        reader: u8,
        writer: u8,
        pnode: Pnode,
    )
        requires numbers { (reader < 64) × (writer < 64) }
        requires place { 0 < caller.old.held }
        requires who { caller.old.who ≡ self.old.who }
        requires entry { MayEnter caller.old.seen (own_entry self.old.who number calls.MakePipe (act.AttachPipe reader writer pnode) answer.Done) 0 }
        ensures entry { Enters J.book.session caller.old caller.new self.old.seen (own_entry self.old.who number calls.MakePipe (act.AttachPipe reader writer pnode) answer.Done) 0 }
        ensures state { self.new ≡ record self.old { seen = caller.new.seen; state = record self.old.state { descriptors = finite_map.insert (finite_map.insert self.old.state.descriptors reader (pipe_end pnode mode.Read)) writer (pipe_end pnode mode.Write) } } }
    {
        let entry = Entry {
            who: self.who,
            number,
            call: CallName::MakePipe,
            what: self.who,
            act: Act::AttachPipe {
                reader,
                writer,
                pnode,
            },
            reply: Reply::Done,
        };
        self.enter_quiet(alloc, shelf, caller, entry, 0);
    }

    /// Holds a number no more, and answers what it held under it. `keep`: how many places the call still needs.
    pub fn detach(
        &mut self,
        alloc: Global,
        shelf: &mut Shelf<J>,
        caller: &mut Caller<J>,
        number: u64,
        fd: u8,
        keep: u32,
    ) -> Descriptor
        requires held { refusal self.old.state (ask.Held fd) ≡ None }
        requires place { HasRoom shelf.old caller.old.held (keep + 1) }
        requires who { caller.old.who ≡ self.old.who }
        requires entry { MayEnter caller.old.seen (own_entry self.old.who number calls.CloseFd (act.Detach fd) answer.Done) keep }
        ensures answer { finite_map.get self.old.state.descriptors fd ≡ Some result }
        ensures entry { Enters J.book.session caller.old caller.new self.old.seen (own_entry self.old.who number calls.CloseFd (act.Detach fd) answer.Done) keep }
        ensures state { self.new ≡ record self.old { seen = caller.new.seen; state = record self.old.state { descriptors = finite_map.remove self.old.state.descriptors fd } } }
    {
        let Some(descriptor) = self.holdings.descriptor(fd) else {
            unreachable!()
        };
        let entry = Entry {
            who: self.who,
            number,
            call: CallName::CloseFd,
            what: self.who,
            act: Act::Detach { fd },
            reply: Reply::Done,
        };
        self.enter_quiet(alloc, shelf, caller, entry, keep);
        descriptor
    }

    /// Sets the offset of a descriptor.
    pub fn seek(
        &mut self,
        alloc: Global,
        shelf: &mut Shelf<J>,
        caller: &mut Caller<J>,
        number: u64,
        fd: u8,
        at: u64,
    )
        requires fd { fd < 64 }
        requires place { HasRoom shelf.old caller.old.held 3 }
        requires who { caller.old.who ≡ self.old.who }
        requires entry { MayEnter caller.old.seen (own_entry self.old.who number calls.Seek (act.Seek fd at) answer.Done) 0 }
        ensures entry { Enters J.book.session caller.old caller.new self.old.seen (own_entry self.old.who number calls.Seek (act.Seek fd at) answer.Done) 0 }
        ensures state { self.new ≡ record self.old { seen = caller.new.seen; state = record self.old.state { descriptors = changed_at self.old.state.descriptors fd (λ d. record d { offset = at }) } } }
    {
        let entry = Entry {
            who: self.who,
            number,
            call: CallName::Seek,
            what: self.who,
            act: Act::Seek { fd, at },
            reply: Reply::Done,
        };
        self.enter_quiet(alloc, shelf, caller, entry, 0);
    }

    /// Lets a child go that has ended, and takes nothing from it.
    pub fn release(
        &mut self,
        alloc: Global,
        shelf: &mut Shelf<J>,
        caller: &mut Caller<J>,
        number: u64,
        child: Pnode,
    )
        requires place { 0 < caller.old.held }
        requires who { caller.old.who ≡ self.old.who }
        requires entry { MayEnter caller.old.seen (own_entry self.old.who number calls.Await (act.Release child) answer.Done) 0 }
        ensures entry { Enters J.book.session caller.old caller.new self.old.seen (own_entry self.old.who number calls.Await (act.Release child) answer.Done) 0 }
        ensures state { self.new ≡ record self.old { seen = caller.new.seen; state = record self.old.state { children = finite_set.remove self.old.state.children child } } }
    {
        let entry = Entry {
            who: self.who,
            number,
            call: CallName::Await,
            what: self.who,
            act: Act::Release { child },
            reply: Reply::Done,
        };
        self.enter_quiet(alloc, shelf, caller, entry, 0);
    }

    /// Says that the object of a descriptor is kept.
    pub fn kept(
        &mut self,
        alloc: Global,
        shelf: &mut Shelf<J>,
        caller: &mut Caller<J>,
        number: u64,
        fd: u8,
    )
        requires place { 0 < caller.old.held }
        requires who { caller.old.who ≡ self.old.who }
        requires entry { MayEnter caller.old.seen (own_entry self.old.who number calls.Sync (act.Kept fd) answer.Done) 0 }
        requires backs { Backs J.book.session caller.old.seen (length caller.old.seen) caller.old.syncs (own_entry self.old.who number calls.Sync (act.Kept fd) answer.Done) }
        ensures entry { Enters J.book.session caller.old caller.new self.old.seen (own_entry self.old.who number calls.Sync (act.Kept fd) answer.Done) 0 }
        ensures same { self.new ≡ record self.old { seen = caller.new.seen } }
        ensures grows { IsPrefix caller.old.syncs caller.new.syncs }
    {
        let entry = Entry {
            who: self.who,
            number,
            call: CallName::Sync,
            what: self.who,
            act: Act::Kept { fd },
            reply: Reply::Done,
        };
        self.enter_quiet(alloc, shelf, caller, entry, 0);
    }

    /// Makes an entry that uses the process as a source, and answers its place and the process's node there.
    fn enter_use(
        &mut self,
        alloc: Global,
        shelf: &mut Shelf<J>,
        caller: &mut Caller<J>,
        entry: Entry,
        keep: u32,
    ) -> (u64, Node)
        requires act { is_use entry.act ≡ true }
        requires numbers { AllBelow64 entry.act }
        requires room { room_needed entry.act ≤ self.old.room }
        requires sources { finite_set.len self.old.state.children + room_needed entry.act ≤ self.old.spare }
        requires done { entry.reply ≡ answer.Done }
        requires own { (entry.who ≡ self.old.who) × (entry.what ≡ self.old.who) }
        requires place { HasRoom shelf.old caller.old.held (keep + 1) }
        requires who { caller.old.who ≡ self.old.who }
        requires entry { MayEnter caller.old.seen entry keep }
        ensures entry { Enters J.book.session caller.old caller.new self.old.seen entry keep }
        ensures at { IsAt J.book.session caller.new.seen result }
        ensures state { self.new ≡ record self.old { seen = caller.new.seen; state = process_act [] self.old.state entry.act; lineage = used self.old.lineage; room = self.old.room - room_needed entry.act } }
    {
        let _ = self.desk.seen();
        self.holdings.apply(&entry.act, None);
        let place = caller.enter(shelf, &mut self.desk, Slip::new(alloc), entry, keep);
        let node = self.versions.mark();
        (place, node)
    }

    /// Is used as the source of a transfer of so many bytes by a descriptor, and answers its place and its node.
    pub fn show(
        &mut self,
        alloc: Global,
        shelf: &mut Shelf<J>,
        caller: &mut Caller<J>,
        number: u64,
        call: CallName,
        fd: u8,
        len: u32,
    ) -> (u64, Node)
        requires fd { fd < 64 }
        requires place { HasRoom shelf.old caller.old.held 3 }
        requires who { caller.old.who ≡ self.old.who }
        requires entry { MayEnter caller.old.seen (own_entry self.old.who number call (act.Show fd len) answer.Done) 2 }
        ensures entry { Enters J.book.session caller.old caller.new self.old.seen (own_entry self.old.who number call (act.Show fd len) answer.Done) 2 }
        ensures at { IsAt J.book.session caller.new.seen result }
        ensures state { self.new ≡ record self.old { seen = caller.new.seen; lineage = used self.old.lineage; state = record self.old.state { descriptors = changed_at self.old.state.descriptors fd (risen len) } } }
    {
        let entry = Entry {
            who: self.who,
            number,
            call,
            what: self.who,
            act: Act::Show { fd, len },
            reply: Reply::Done,
        };
        self.enter_use(alloc, shelf, caller, entry, 2)
    }

    /// Makes a child, which takes from this process, and answers its place and its node. Room for the child was reserved.
    pub fn spawn(
        &mut self,
        alloc: Global,
        shelf: &mut Shelf<J>,
        caller: &mut Caller<J>,
        number: u64,
        child: Pnode,
    ) -> (u64, Node)
        requires room { 1 ≤ self.old.room }
        requires source { finite_set.len self.old.state.children < self.old.spare }
        requires place { 130 < caller.old.held }
        requires who { caller.old.who ≡ self.old.who }
        requires entry { MayEnter caller.old.seen (own_entry self.old.who number calls.Fork (act.Spawn child) answer.Done) 130 }
        ensures entry { Enters J.book.session caller.old caller.new self.old.seen (own_entry self.old.who number calls.Fork (act.Spawn child) answer.Done) 130 }
        ensures at { IsAt J.book.session caller.new.seen result }
        ensures state { self.new ≡ record self.old { seen = caller.new.seen; lineage = used self.old.lineage; room = self.old.room - 1; state = record self.old.state { children = finite_set.insert self.old.state.children child } } }
    {
        let entry = Entry {
            who: self.who,
            number,
            call: CallName::Fork,
            what: self.who,
            act: Act::Spawn { child },
            reply: Reply::Done,
        };
        self.enter_use(alloc, shelf, caller, entry, 130)
    }
}
