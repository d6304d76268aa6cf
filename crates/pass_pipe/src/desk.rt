//! A pipe, as it lies under its lock.
ghost use Rattle.std.specs.Prelude.{◌≡◌, ◌+◌, ◌-◌, ◌≤◌, ◌<◌, ◌^◌, [], true, false, Some, None, IfOk, is_some, not, length, slice_get, if◌then◌else◌};
ghost use Rattle.std.specs.Option.{option_map_or};
ghost use Rattle.pass_entry.specs.declared.entry.Act.TheVariants as act;
ghost use Rattle.pass_entry.specs.declared.entry.CallName.TheVariants as calls;
ghost use Rattle.pass_entry.specs.declared.entry.Reply.TheVariants as answer;
ghost use Rattle.pass_plain.specs.Legal.{CallerAllows};
ghost use Rattle.pass_plain.specs.Pipes.{new_pipe, pipe_act, pipe_after};
ghost use Rattle.pass_plain.specs.Replies.{pushed, taken};
ghost use Rattle.pass_plain.specs.Sessions.{is_opened};
ghost use Rattle.pass_plain.specs.Versions.{nodes_of};
ghost use Rattle.pass_hold.specs.Callers.{moved_on};
ghost use Rattle.pass_hold.specs.Callings.{HasLooked};
ghost use Rattle.pass_hold.specs.Places.{HasRoom};
ghost use Rattle.pass_hold.specs.Entering.{MayEnter, Enters, IsAt};
ghost use Rattle.pass_pipe.specs.Desks.{take_entry, push_entry, join_entry, leave_entry, push_reply, given_reply};

use crate::pipe::PipeState;
use pass_book::{Desk, Slip};
use pass_entry::{Act, Bytes, CallFault, CallName, End, Entry, Node, Pnode, Record, Reply};
use pass_flow::{Versioned, enter_on};
use pass_hold::{Caller, Shelf, Whose};
use pass_version::Versions;
use std::alloc::{AllocError, Global};
use std::marker::{Model, PhantomData};

/// A pipe with its desk: what it holds and its version are those of the definitions after what was seen of it.
#[derive(Drop)]
pub struct PipeDesk<J: Whose> {
    state: PipeState,
    versions: Versions,
    desk: Desk,
    whose: PhantomData<J>,
}

impl<J: Whose> Model for PipeDesk<J> {
    ghost use Rattle.std.specs.Prelude.{◌≡◌};
    ghost use Rattle.std.specs.Coded.{codes};
    ghost use Rattle.pass_entry.specs.contracts.entry.Entry as entry_type;
    ghost use Rattle.pass_plain.specs.Pipes.{pipe_after};
    ghost use Rattle.pass_flow.specs.Entering.{IsVersioned};
    ghost use Rattle.pass_flow.specs.Flows.{ObjectView};

    ghost Value = { ObjectView };

    ghost coded = { Prim.hlevel (codes, entry_type.the_row.coded) };

    ghost view = { λ p. record { what = p.desk.what; seen = p.desk.seen; syncs = p.desk.syncs; spare = p.versions.spare } };

    ghost invariant = { λ p. IsVersioned J.book p.desk p.versions × (p.state ≡ pipe_after p.desk.seen p.desk.what) };
}

impl<J: Whose> PipeDesk<J> {
    /// A pipe of which nothing was seen, as a session makes it.
    pub fn new(alloc: Global, what: Pnode, state: PipeState, desk: Desk) -> PipeDesk<J>
        requires desk { (desk.book ≡ J.book) × (desk.what ≡ what) × (desk.seen ≡ []) }
        requires state { state ≡ new_pipe }
        requires made { is_opened J.book.session.start what ≡ false }
        ensures { result ≡ record { what = what; seen = []; syncs = desk.syncs; spare = 0 } }
    {
        PipeDesk {
            state,
            versions: Versions::new(alloc, what, 1, false),
            desk,
            whose: PhantomData,
        }
    }

    /// What a reader would get now, at most so many bytes; None where it has to wait, because the pipe is empty and has a writer.
    pub fn first(&self, alloc: Global, len: u32) -> Result<Option<Bytes>, AllocError>
        ensures { IfOk result (λ o. option_map_or (λ b. Some (answer.Took b)) o None ≡ taken (pipe_after self.now.seen self.now.what) len) }
    {
        self.state.peek(alloc, len)
    }

    /// Whether a write of so many bytes has to wait, because the pipe has a reader and too little room.
    pub fn is_full_for(&self, len: u32) -> bool
        ensures { result ≡ not (is_some (pushed (pipe_after self.now.seen self.now.what) len)) }
    {
        self.state.is_full_for(len)
    }

    /// Its holder and the process see the whole history: what they find not ready is so in it.
    pub fn look(&mut self, shelf: &mut Shelf<J>, caller: &mut Caller<J>)
        ensures pipe { self.new ≡ record self.old { seen = shelf.old.history; syncs = self.new.syncs } }
        ensures same { pipe_after self.new.seen self.new.what ≡ pipe_after self.old.seen self.old.what }
        ensures looked { HasLooked J.book.session caller.old.who caller.old.seen caller.new.seen }
        ensures whole { caller.new.seen ≡ shelf.old.history }
        ensures caller { caller.new ≡ moved_on caller.old caller.new.seen caller.new.syncs caller.old.held }
        ensures few { length caller.new.seen ≤ 2 ^ 32 }
        ensures shelf { shelf.new ≡ record shelf.old { syncs = shelf.new.syncs } }
    {
        shelf.show(&mut self.desk);
        caller.look(shelf);
    }

    /// Gives its oldest bytes to a reader, and answers the place and the pipe's node there. `bytes` are those that `first` tells.
    pub fn take(
        &mut self,
        alloc: Global,
        shelf: &mut Shelf<J>,
        caller: &mut Caller<J>,
        who: Pnode,
        number: u64,
        len: u32,
        bytes: Bytes,
    ) -> (u64, Node)
        requires who { caller.old.who ≡ who }
        requires reply { taken (pipe_after self.old.seen self.old.what) len ≡ Some (answer.Took bytes) }
        requires place { HasRoom shelf.old caller.old.held 3 }
        requires entry { MayEnter caller.old.seen (take_entry who number self.old.what len bytes) 2 }
        ensures entry { Enters J.book.session caller.old caller.new self.old.seen (take_entry who number self.old.what len bytes) 2 }
        ensures at { IsAt J.book.session caller.new.seen result }
        ensures state { self.new ≡ record self.old { seen = caller.new.seen; syncs = caller.new.syncs } }
    {
        let what = self.what();
        let entry = Entry {
            who,
            number,
            call: CallName::Read,
            what,
            act: Act::Take { len },
            reply: Reply::Took(bytes),
        };
        self.state.skip(len as usize);
        enter_on(
            shelf,
            caller,
            &mut self.desk,
            &mut self.versions,
            entry,
            None,
            Vec::new(alloc),
            2,
        )
    }

    /// Puts a writer's bytes behind those that are there, all of them, and answers the place and the pipe's node there. It is the last
    /// step of its call, whose first one stands at `out` and has the node `source`.
    pub fn push(
        &mut self,
        alloc: Global,
        shelf: &mut Shelf<J>,
        caller: &mut Caller<J>,
        who: Pnode,
        number: u64,
        out: u64,
        source: &Node,
        bytes: Bytes,
    ) -> Result<(u64, Node), CallFault>
        requires who { caller.old.who ≡ who }
        requires ready { ¬ (pushed (pipe_after self.old.seen self.old.what) (length bytes) ≡ None) }
        requires place { 0 < caller.old.held }
        requires spare { 1 ≤ self.old.spare }
        requires source { slice_get (nodes_of J.book.session caller.old.seen) out ≡ Some source.now }
        requires entry { (reply : _) → MayEnter caller.old.seen (push_entry who number self.old.what out bytes reply) 0 }
        ensures reply { pushed (pipe_after self.old.seen self.old.what) (length bytes) ≡ Some (push_reply result) }
        ensures entry { Enters J.book.session caller.old caller.new self.old.seen (push_entry who number self.old.what out bytes (push_reply result)) 0 }
        ensures at { IfOk result (IsAt J.book.session caller.new.seen) }
        ensures state { self.new ≡ record self.old { seen = caller.new.seen; syncs = caller.new.syncs; spare = self.new.spare } }
    {
        let what = self.what();
        let given = give_if_read(&mut self.state, &bytes);
        let entry = Entry {
            who,
            number,
            call: CallName::Write,
            what,
            act: Act::Push { out, bytes },
            reply: give_answer(given),
        };
        let at = enter_on(
            shelf,
            caller,
            &mut self.desk,
            &mut self.versions,
            entry,
            source_if(given, source),
            Vec::new(alloc),
            0,
        );
        pushed_at(given, at)
    }

    /// One more descriptor of a child is on an end. Its call then still needs `keep` places.
    pub fn join(
        &mut self,
        alloc: Global,
        shelf: &mut Shelf<J>,
        caller: &mut Caller<J>,
        who: Pnode,
        number: u64,
        end: End,
        keep: u32,
    ) -> u64
        requires who { caller.old.who ≡ who }
        requires place { keep < caller.old.held }
        requires entry { MayEnter caller.old.seen (join_entry who number self.old.what end) keep }
        ensures entry { Enters J.book.session caller.old caller.new self.old.seen (join_entry who number self.old.what end) keep }
        ensures place { result + 1 ≡ length caller.new.seen }
        ensures state { self.new ≡ record self.old { seen = caller.new.seen; syncs = caller.new.syncs } }
    {
        let what = self.what();
        let entry = Entry {
            who,
            number,
            call: CallName::Fork,
            what,
            act: Act::Join { end },
            reply: Reply::Done,
        };
        shelf.show(&mut self.desk);
        self.state.hold(end);
        let (place, _) = enter_on(
            shelf,
            caller,
            &mut self.desk,
            &mut self.versions,
            entry,
            None,
            Vec::new(alloc),
            keep,
        );
        place
    }

    /// A descriptor on an end is closed. It is the last step of its call.
    pub fn leave(
        &mut self,
        alloc: Global,
        shelf: &mut Shelf<J>,
        caller: &mut Caller<J>,
        who: Pnode,
        number: u64,
        end: End,
    ) -> u64
        requires who { caller.old.who ≡ who }
        requires place { 0 < caller.old.held }
        requires entry { MayEnter caller.old.seen (leave_entry who number calls.CloseFd self.old.what end) 0 }
        ensures entry { Enters J.book.session caller.old caller.new self.old.seen (leave_entry who number calls.CloseFd self.old.what end) 0 }
        ensures place { result + 1 ≡ length caller.new.seen }
        ensures state { self.new ≡ record self.old { seen = caller.new.seen; syncs = caller.new.syncs } }
    {
        let what = self.what();
        let entry = Entry {
            who,
            number,
            call: CallName::CloseFd,
            what,
            act: Act::Leave { end },
            reply: Reply::Done,
        };
        drop_one(&mut self.state, end);
        let (place, _) = enter_on(
            shelf,
            caller,
            &mut self.desk,
            &mut self.versions,
            entry,
            None,
            Vec::new(alloc),
            0,
        );
        place
    }

    /// A descriptor on an end is gone by its process's exit, whose last step is another one.
    pub fn leave_by_exit(
        &mut self,
        alloc: Global,
        shelf: &mut Shelf<J>,
        caller: &mut Caller<J>,
        who: Pnode,
        number: u64,
        end: End,
    ) -> u64
        requires who { caller.old.who ≡ who }
        requires place { 0 < caller.old.own }
        requires allows { CallerAllows caller.old.seen (leave_entry who number calls.Exit self.old.what end) }
        ensures entry { Enters J.book.session (record caller.old { own = caller.old.own - 1 }) caller.new self.old.seen (leave_entry who number calls.Exit self.old.what end) 0 }
        ensures place { result + 1 ≡ length caller.new.seen }
        ensures state { self.new ≡ record self.old { seen = caller.new.seen; syncs = caller.new.syncs } }
    {
        let what = self.what();
        let entry = Entry {
            who,
            number,
            call: CallName::Exit,
            what,
            act: Act::Leave { end },
            reply: Reply::Done,
        };
        drop_one(&mut self.state, end);
        caller.leave(shelf, &mut self.desk, Slip::new(alloc), entry)
    }
}

/// Puts bytes into a pipe where somebody may read them, and tells whether.
fn give_if_read(state: &mut PipeState, bytes: &Bytes) -> bool
    requires { ¬ (pushed state.old (length bytes.now) ≡ None) }
    ensures reply { pushed state.old (length bytes.now) ≡ Some (given_reply result) }
    ensures state { (out : _) → state.new ≡ (if result then pipe_act state.old (act.Push out bytes.now) else state.old) }
{
    match state.give(bytes.as_bytes()) {
        Ok(()) => true,
        Err(_) => false,
    }
}

fn give_answer(given: bool) -> Reply
    ensures { result ≡ given_reply given }
{
    if given {
        Reply::Done
    } else {
        Reply::Fault(CallFault::BrokenPipe)
    }
}

fn pushed_at(given: bool, at: (u64, Node)) -> Result<(u64, Node), CallFault>
    ensures reply { push_reply result ≡ given_reply given }
    ensures at { IfOk result (λ r. r ≡ at) }
{
    if given {
        Ok(at)
    } else {
        Err(CallFault::BrokenPipe)
    }
}

fn source_if(given: bool, source: &Node) -> Option<Node>
    ensures { result ≡ (if given then Some source.now else None) }
{
    if given { Some(*source) } else { None }
}

/// One descriptor less is on an end, where there is one.
fn drop_one(state: &mut PipeState, end: End)
    ensures { state.new ≡ pipe_act state.old (act.Leave end) }
{
    let count = match end {
        End::Reader => state.readers(),
        End::Writer => state.writers(),
    };
    if count > 0 {
        state.drop_end(end);
    }
}

impl<J: Whose> Versioned<J> for PipeDesk<J> {
    ghost object = { λ p. p };

    fn what(&self) -> Pnode {
        self.versions.current().pnode
    }

    fn current(&self) -> Node {
        self.versions.current()
    }

    fn reserve_source(&mut self) -> Result<(), AllocError> {
        self.versions.reserve(1)
    }

    fn enter_flow(
        &mut self,
        shelf: &mut Shelf<J>,
        caller: &mut Caller<J>,
        entry: Entry,
        source: Option<Node>,
        rest: Vec<Record>,
        keep: u32,
    ) -> (u64, Node) {
        enter_on(
            shelf,
            caller,
            &mut self.desk,
            &mut self.versions,
            entry,
            source,
            rest,
            keep,
        )
    }
}
