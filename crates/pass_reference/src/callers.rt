//! The calls of a process in a history.
ghost use Rattle.std.specs.Prelude.{◌≡◌, ◌<◌, ◌≤◌, ◌+◌, ◌^◌, ◌||◌, IfOk, OnOk, ◌++◌, ◌∷◌, length, List, [], ℕ, true, false, IsTrue, ◌↔◌};
ghost use Rattle.pass_entry.specs.Limits.{transfer_limit};
ghost use Rattle.pass_entry.specs.declared.entry.Entry.{Entry as AnyEntry};
ghost use Rattle.pass_plain.specs.Histories.{own_step};
ghost use Rattle.pass_plain.specs.Processes.{Process, process_act, Gains, AllBelow64, OffsetsFit, begins as begins_of};
ghost use Rattle.pass_plain.specs.Legal.{CallerAllows, is_start as is_start_of, goes_on as goes_on_of, ends_call as ends_call_of, leaves_call as leaves_call_of};
ghost use Rattle.pass_plain.specs.States.{noted, IsBlank, IsLawful};
ghost use Rattle.pass_reference.specs.States.{call_of, may_go as may_go_of, IsCaller};

use crate::copying::copied_entry;
use crate::next::is_next_step;
use crate::steps::{ends_call, leaves_call};
use pass_entry::{Act, CallName, Entry, Pnode, Reply};
use pass_plain::process::ProcessState;
use pass_plain::registry::is_own;
use std::alloc::{AllocError, Global};

/// The last call of a process: its number, 0 where it has made none, the process's state before it, and the entries that it
/// has made, each with its place.
#[derive(Drop)]
pub struct LastCall {
    pub number: u64,
    pub before: ProcessState,
    pub made: Vec<(u64, Entry)>,
}

/// What the next entry of a process is judged by.
#[derive(Drop)]
pub struct Caller {
    pub begun: bool,
    pub state: ProcessState,
    pub call: LastCall,
}

fn copied_entries(alloc: Global, made: &[(u64, Entry)]) -> Result<Vec<(u64, Entry)>, AllocError>
    ensures { IfOk result (λ v. v.items ≡ made.now) }
{
    let mut copies = Vec::new(alloc);
    for (place, entry) in made {
        copies.push((*place, copied_entry(entry)?))?;
    }
    Ok(copies)
}

impl LastCall {
    /// A copy of it.
    pub fn copied(&self, alloc: Global) -> Result<LastCall, AllocError>
        ensures { IfOk result (λ c. call_of c ≡ call_of self.now) }
    {
        let before = self.before.clone()?;
        let made = copied_entries(alloc, &self.made)?;
        Ok(LastCall {
            number: self.number,
            before,
            made,
        })
    }

    /// One more entry of the history, at a place. `state` is the process's before it.
    fn note(
        &mut self,
        alloc: Global,
        state: &ProcessState,
        place: usize,
        who: Pnode,
        e: &Entry,
    ) -> Result<(), AllocError>
        ensures { OnOk result (call_of self.new ≡ noted (call_of self.old) state.now place who e.now) }
    {
        if e.who != who {
            return Ok(());
        }
        if e.number == self.number {
            self.made.push((place as u64, copied_entry(e)?))?;
            return Ok(());
        }
        let mut made = Vec::new(alloc);
        made.push((place as u64, copied_entry(e)?))?;
        self.number = e.number;
        self.before = state.clone()?;
        self.made = made;
        Ok(())
    }
}

/// The entry begins the process.
fn begins(who: Pnode, e: &Entry) -> bool
    ensures { result ≡ begins_of who e.now.call e.now.act e.now.what e.now.reply }
{
    match e.call {
        CallName::Start => match &e.reply {
            Reply::Made(pnode) => *pnode == who,
            _ => false,
        },
        _ => match &e.act {
            Act::Born { .. } => e.what == who,
            _ => false,
        },
    }
}

/// The bytes that an act gains from the entry that it names.
fn gained_by<'a>(past: &'a [Entry], act: &Act) -> &'a [u8]
    ensures bytes { Gains past.now act.now result.now }
    ensures short { length result.now ≤ transfer_limit }
{
    match act {
        Act::Gain { out, .. } => match past.get(*out as usize) {
            Some(e) => match &e.reply {
                Reply::Took(bytes) => bytes.as_bytes(),
                _ => &[],
            },
            None => &[],
        },
        _ => &[],
    }
}

/// A process after one more entry, before which the history is `past`.
fn follow(
    state: &mut ProcessState,
    alloc: Global,
    past: &[Entry],
    who: Pnode,
    e: &Entry,
) -> Result<(), AllocError>
    requires offsets { OffsetsFit state.old.descriptors }
    requires numbers { AllBelow64 e.now.act }
    ensures { OnOk result (state.new ≡ own_step (λ past p e. process_act past p e.act) who past.now state.old e.now) }
{
    if is_own(who, e) {
        state.apply(alloc, &e.act, gained_by(past, &e.act))?;
    }
    Ok(())
}

impl Caller {
    /// A process of which a history has nothing.
    pub fn new(alloc: Global) -> Caller
        ensures { (history : List AnyEntry) (who : ℕ) → IsBlank history who → IsCaller history who result }
    {
        Caller {
            begun: false,
            state: ProcessState::new(alloc),
            call: LastCall {
                number: 0,
                before: ProcessState::new(alloc),
                made: Vec::new(alloc),
            },
        }
    }

    /// The process after one more entry of a history.
    pub fn follow(
        &mut self,
        alloc: Global,
        history: &[Entry],
        who: Pnode,
        e: &Entry,
    ) -> Result<(), AllocError>
        requires lawful { IsLawful (history.now ++ e.now ∷ []) }
        requires caller { IsCaller history.now who self.old }
        ensures { OnOk result (IsCaller (history.now ++ e.now ∷ []) who self.new) }
    {
        self.call.note(alloc, &self.state, history.len(), who, e)?;
        self.begun = self.begun || begins(who, e);
        follow(&mut self.state, alloc, history, who, e)
    }

    /// A process after a history.
    pub fn after(alloc: Global, history: &[Entry], who: Pnode) -> Result<Caller, AllocError>
        requires { IsLawful history.now }
        ensures { IfOk result (IsCaller history.now who) }
    {
        let mut caller = Caller::new(alloc);
        for i in 0..history.len() {
            caller.follow(alloc, &history[..i], who, &history[i])?;
        }
        Ok(caller)
    }
}

/// A number goes on with the last call, or begins the next one.
fn goes_on(number: u64, last: u64, over: bool, left: bool) -> bool
    ensures { result ≡ goes_on_of number last over left }
{
    if number == last {
        last != 0 && !over
    } else {
        number > last && number - last == 1 && (last == 0 || over || left)
    }
}

impl Caller {
    fn is_next_number(&self, number: u64) -> bool
        ensures { result ≡ goes_on_of number self.now.call.number (ends_call_of self.now.call.before self.now.call.made.items) (leaves_call_of self.now.call.before self.now.call.made.items) }
    {
        let over = ends_call(&self.call.before, &self.call.made);
        let left = leaves_call(&self.call.before, &self.call.made);
        goes_on(number, self.call.number, over, left)
    }

    fn may_go(&self, number: u64) -> bool
        ensures { result ≡ may_go_of self.now.begun self.now.state (call_of self.now.call) number }
    {
        self.begun && !self.state.is_ended() && self.is_next_number(number)
    }

    /// The process may make this entry next, whatever its object answers. The entry is no `Start`.
    pub fn allows(&self, alloc: Global, e: &Entry) -> Result<bool, AllocError>
        requires { is_start_of e.now.call ≡ false }
        ensures { IfOk result (λ b. (history : List AnyEntry) → IsLawful history → IsCaller history e.now.who self.now → IsTrue b ↔ CallerAllows history e.now) }
    {
        if !self.may_go(e.number) {
            return Ok(false);
        }
        if e.number == self.call.number {
            let LastCall { before, made, .. } = &self.call;
            let next = is_next_step(alloc, e.who, before, made, e.call, e.what, &e.act)?;
            Ok(next)
        } else {
            let next = is_next_step(alloc, e.who, &self.state, &[], e.call, e.what, &e.act)?;
            Ok(next)
        }
    }
}

/// A `Start` begins a session.
pub fn is_start(call: CallName) -> bool
    ensures { result ≡ is_start_of call }
{
    matches!(call, CallName::Start)
}

/// The entry may begin a session: it is the outside's first one.
pub fn start_allows(alloc: Global, history: &[Entry], e: &Entry) -> Result<bool, AllocError>
    requires { is_start_of e.now.call ≡ true }
    ensures { IfOk result (λ b. IsTrue b ↔ CallerAllows history.now e.now) }
{
    if !history.is_empty() || e.who.0 != 0 || e.number != 0 {
        return Ok(false);
    }
    let before = ProcessState::new(alloc);
    is_next_step(alloc, e.who, &before, &[], e.call, e.what, &e.act)
}
