//! The states of objects after a history, kept while it grows.
ghost use Rattle.std.specs.Prelude.{◌≡◌, ◌++◌, ◌∷◌, [], List, ℕ, true, false, None, IfOk, IfSome, option_copied};
ghost use Rattle.std.specs.Option.{MatchOption};
ghost use Rattle.std.specs.Ordering.{nat_cmp};
ghost use Rattle.std.specs.BTreeMap.{get};
ghost use Rattle.pass_entry.specs.declared.entry.Entry.{Entry as AnyEntry};
ghost use Rattle.pass_plain.specs.declared.start.Start.{Start as AnyStart};
ghost use Rattle.pass_plain.specs.Histories.{is_fault as is_fault_of};
ghost use Rattle.pass_plain.specs.Legal.{session_of, MayFollow};
ghost use Rattle.pass_plain.specs.Pipes.{new_pipe, pipe_after};
ghost use Rattle.pass_plain.specs.Recording.{is_change as is_change_of, bytes_after};
ghost use Rattle.pass_plain.specs.Sessions.{opening_bytes};
ghost use Rattle.pass_plain.specs.States.{IsBlank, IsLawful};
ghost use Rattle.pass_reference.specs.States.{IsRegistry, IsPipe, IsCaller};
ghost use Rattle.pass_reference.specs.Cache.{is_pipe_change as is_pipe_change_of, other_process as other_process_of, ChangesAt, IsCachedFile, IsCachedPipe, IsCachedCaller, AreCached, IsPlainState};

use crate::callers::{Caller, is_start};
use crate::file::content_after;
use crate::pipe::PipeState;
use crate::registry;
use pass_entry::{Act, Entry, Pnode};
use pass_plain::file::{apply, opening_content};
use pass_plain::process::changes_process;
use pass_plain::registry::{RegistryState, is_fault, is_own};
use pass_plain::steps::pnode_of;
use pass_plain::{Start, is_change};
use std::alloc::{AllocError, Global};
use std::collections::BTreeMap;

/// The states of the objects of one kind. An object that has none is as it began, as long as none was lost for want of
/// memory.
#[derive(Drop)]
pub struct Cached<T> {
    pub states: BTreeMap<u64, T>,
    pub whole: bool,
}

impl<T: Drop> Cached<T> {
    fn new(alloc: Global) -> Cached<T>
        ensures none { result.states.entries ≡ [] }
        ensures whole { result.whole ≡ true }
    {
        Cached {
            states: BTreeMap::new(alloc),
            whole: true,
        }
    }

    /// The state that is kept of an object.
    pub fn get(&self, object: Pnode) -> Option<&T>
        ensures { option_copied result ≡ get nat_cmp self.now.states object }
    {
        self.states.get(&object.0)
    }

    /// Keeps a state of an object that has none, or loses it.
    fn keep(&mut self, object: Pnode, state: T)
        ensures at { ChangesAt object self.old self.new }
        ensures here { MatchOption (get nat_cmp self.new.states object) (self.new.whole ≡ false) (λ x. x ≡ state) }
    {
        if self.states.insert(object.0, state).is_err() {
            self.whole = false;
        }
    }

    /// Keeps no state of an object any more.
    fn lose(&mut self, object: Pnode)
        ensures at { ChangesAt object self.old self.new }
        ensures here { get nat_cmp self.new.states object ≡ None }
        ensures whole { self.new.whole ≡ false }
    {
        let _ = self.states.remove(&object.0);
        self.whole = false;
    }
}

/// The states of all objects that have changed since the session began.
#[derive(Drop)]
pub struct StateCache {
    pub registry: Option<RegistryState>,
    pub files: Cached<Vec<u8>>,
    pub pipes: Cached<PipeState>,
    pub callers: Cached<Caller>,
}

/// The act changes the state of its pipe.
fn is_pipe_change(act: &Act) -> bool
    ensures { result ≡ is_pipe_change_of act.now }
{
    matches!(
        act,
        Act::Take { .. } | Act::Push { .. } | Act::Join { .. } | Act::Leave { .. }
    )
}

/// The process that an entry may change besides its caller, or the caller.
fn other_process(e: &Entry) -> Pnode
    ensures { result ≡ other_process_of e.now }
{
    if changes_process(&e.act) {
        e.what
    } else if is_start(e.call) {
        pnode_of(&e.reply)
    } else {
        e.who
    }
}

/// The registry after a history, from what is kept of it.
fn taken_registry(
    alloc: Global,
    kept: Option<RegistryState>,
    start: &Start,
    history: &[Entry],
) -> Result<RegistryState, AllocError>
    requires { IfSome kept (IsRegistry start.now history.now) }
    ensures { IfOk result (IsRegistry start.now history.now) }
{
    match kept {
        Some(registry) => Ok(registry),
        None => registry::after(alloc, start, history),
    }
}

/// The registry after one more entry of a history.
fn registry_with(
    alloc: Global,
    kept: Option<RegistryState>,
    start: &Start,
    history: &[Entry],
    e: &Entry,
) -> Result<RegistryState, AllocError>
    requires { IfSome kept (IsRegistry start.now history.now) }
    ensures { IfOk result (IsRegistry start.now (history.now ++ e.now ∷ [])) }
{
    let mut registry = taken_registry(alloc, kept, start, history)?;
    registry.follow(e)?;
    Ok(registry)
}

/// Brings the registry up to date with one more entry of a history.
fn note_registry(
    alloc: Global,
    kept: &mut Option<RegistryState>,
    start: &Start,
    history: &[Entry],
    e: &Entry,
)
    requires { IfSome kept.old (IsRegistry start.now history.now) }
    ensures { IfSome kept.new (IsRegistry start.now (history.now ++ e.now ∷ [])) }
{
    if is_own(Pnode(0), e) {
        let old = kept.take();
        *kept = registry_with(alloc, old, start, history, e).ok();
    }
}

/// The content of a file, where none is kept.
pub fn absent_file(
    alloc: Global,
    whole: bool,
    start: &Start,
    history: &[Entry],
    object: Pnode,
) -> Result<Vec<u8>, AllocError>
    requires { whole ≡ true → bytes_after start.now history.now object ≡ opening_bytes start.now object }
    ensures { IfOk result (λ v. v.items ≡ bytes_after start.now history.now object) }
{
    if whole {
        opening_content(alloc, start, object)
    } else {
        content_after(alloc, start, history, object)
    }
}

/// The content of a file after a history, taken out.
fn take_file(
    alloc: Global,
    kept: &mut Cached<Vec<u8>>,
    start: &Start,
    history: &[Entry],
    object: Pnode,
) -> Result<Vec<u8>, AllocError>
    requires { IsCachedFile start.now history.now kept.old object }
    ensures at { ChangesAt object kept.old kept.new }
    ensures content { IfOk result (λ v. v.items ≡ bytes_after start.now history.now object) }
{
    match kept.states.remove(&object.0) {
        Some(content) => Ok(content),
        None => absent_file(alloc, kept.whole, start, history, object),
    }
}

/// The content of the file of an entry after the entry, taken out.
fn file_with(
    alloc: Global,
    kept: &mut Cached<Vec<u8>>,
    start: &Start,
    history: &[Entry],
    e: &Entry,
) -> Result<Vec<u8>, AllocError>
    requires done { is_fault_of e.now.reply ≡ false }
    requires here { IsCachedFile start.now history.now kept.old e.now.what }
    ensures at { ChangesAt e.now.what kept.old kept.new }
    ensures content { IfOk result (λ v. v.items ≡ bytes_after start.now (history.now ++ e.now ∷ []) e.now.what) }
{
    let mut content = take_file(alloc, kept, start, history, e.what)?;
    apply(&mut content, &e.act)?;
    Ok(content)
}

/// Brings the files up to date with one more entry of a history.
fn note_file(alloc: Global, kept: &mut Cached<Vec<u8>>, start: &Start, history: &[Entry], e: &Entry)
    requires { (object : ℕ) → IsCachedFile start.now history.now kept.old object }
    ensures { (object : ℕ) → IsCachedFile start.now (history.now ++ e.now ∷ []) kept.new object }
{
    if is_fault(&e.reply) || !is_change(&e.act) {
        return;
    }
    match file_with(alloc, kept, start, history, e) {
        Ok(content) => kept.keep(e.what, content),
        Err(_) => kept.lose(e.what),
    }
}

/// A pipe, where none is kept.
pub fn absent_pipe(
    alloc: Global,
    whole: bool,
    history: &[Entry],
    object: Pnode,
) -> Result<PipeState, AllocError>
    requires { whole ≡ true → pipe_after history.now object ≡ new_pipe }
    ensures { IfOk result (IsPipe history.now object) }
{
    if whole {
        Ok(PipeState::new(alloc))
    } else {
        PipeState::after(alloc, history, object)
    }
}

/// A pipe after a history, taken out.
fn take_pipe(
    alloc: Global,
    kept: &mut Cached<PipeState>,
    history: &[Entry],
    object: Pnode,
) -> Result<PipeState, AllocError>
    requires { IsCachedPipe history.now kept.old object }
    ensures at { ChangesAt object kept.old kept.new }
    ensures pipe { IfOk result (IsPipe history.now object) }
{
    match kept.states.remove(&object.0) {
        Some(pipe) => Ok(pipe),
        None => absent_pipe(alloc, kept.whole, history, object),
    }
}

/// The pipe of an entry after the entry, taken out.
fn pipe_with(
    alloc: Global,
    kept: &mut Cached<PipeState>,
    history: &[Entry],
    e: &Entry,
) -> Result<PipeState, AllocError>
    requires { IsCachedPipe history.now kept.old e.now.what }
    ensures at { ChangesAt e.now.what kept.old kept.new }
    ensures pipe { IfOk result (IsPipe (history.now ++ e.now ∷ []) e.now.what) }
{
    let mut pipe = take_pipe(alloc, kept, history, e.what)?;
    pipe.follow(alloc, e.what, e)?;
    Ok(pipe)
}

/// Brings the pipes up to date with one more entry of a history.
fn note_pipe(alloc: Global, kept: &mut Cached<PipeState>, history: &[Entry], e: &Entry)
    requires { (object : ℕ) → IsCachedPipe history.now kept.old object }
    ensures { (object : ℕ) → IsCachedPipe (history.now ++ e.now ∷ []) kept.new object }
{
    if is_pipe_change(&e.act) {
        match pipe_with(alloc, kept, history, e) {
            Ok(pipe) => kept.keep(e.what, pipe),
            Err(_) => kept.lose(e.what),
        }
    }
}

/// A process, where none is kept.
pub fn absent_caller(
    alloc: Global,
    whole: bool,
    history: &[Entry],
    who: Pnode,
) -> Result<Caller, AllocError>
    requires lawful { IsLawful history.now }
    requires whole { whole ≡ true → IsBlank history.now who }
    ensures { IfOk result (IsCaller history.now who) }
{
    if whole {
        Ok(Caller::new(alloc))
    } else {
        Caller::after(alloc, history, who)
    }
}

/// A process after a history, taken out.
fn take_caller(
    alloc: Global,
    kept: &mut Cached<Caller>,
    history: &[Entry],
    who: Pnode,
) -> Result<Caller, AllocError>
    requires lawful { IsLawful history.now }
    requires here { IsCachedCaller history.now kept.old who }
    ensures at { ChangesAt who kept.old kept.new }
    ensures caller { IfOk result (IsCaller history.now who) }
{
    match kept.states.remove(&who.0) {
        Some(caller) => Ok(caller),
        None => absent_caller(alloc, kept.whole, history, who),
    }
}

/// A process after one more entry, taken out.
fn caller_with(
    alloc: Global,
    kept: &mut Cached<Caller>,
    history: &[Entry],
    e: &Entry,
    who: Pnode,
) -> Result<Caller, AllocError>
    requires lawful { IsLawful (history.now ++ e.now ∷ []) }
    requires here { IsCachedCaller history.now kept.old who }
    ensures at { ChangesAt who kept.old kept.new }
    ensures caller { IfOk result (IsCaller (history.now ++ e.now ∷ []) who) }
{
    let mut caller = take_caller(alloc, kept, history, who)?;
    caller.follow(alloc, history, who, e)?;
    Ok(caller)
}

/// Brings a process up to date with one more entry of a history.
fn note_caller(alloc: Global, kept: &mut Cached<Caller>, history: &[Entry], e: &Entry, who: Pnode)
    requires lawful { IsLawful (history.now ++ e.now ∷ []) }
    requires here { IsCachedCaller history.now kept.old who }
    ensures at { ChangesAt who kept.old kept.new }
    ensures here { IsCachedCaller (history.now ++ e.now ∷ []) kept.new who }
{
    match caller_with(alloc, kept, history, e, who) {
        Ok(caller) => kept.keep(who, caller),
        Err(_) => kept.lose(who),
    }
}

/// Brings the processes up to date with one more entry of a history.
fn note_callers(alloc: Global, kept: &mut Cached<Caller>, history: &[Entry], e: &Entry)
    requires lawful { IsLawful (history.now ++ e.now ∷ []) }
    requires kept { (who : ℕ) → IsCachedCaller history.now kept.old who }
    ensures { (who : ℕ) → IsCachedCaller (history.now ++ e.now ∷ []) kept.new who }
{
    note_caller(alloc, kept, history, e, e.who);
    let other = other_process(e);
    if other != e.who {
        note_caller(alloc, kept, history, e, other);
    }
}

impl StateCache {
    /// Nothing is kept of a session that has just begun.
    pub fn new(alloc: Global) -> StateCache
        ensures { (start : AnyStart) → AreCached start [] result }
    {
        StateCache {
            registry: None,
            files: Cached::new(alloc),
            pipes: Cached::new(alloc),
            callers: Cached::new(alloc),
        }
    }

    /// Brings all states up to date with one more entry of a history. A want of memory loses the states that the entry
    /// changes.
    pub fn note(&mut self, alloc: Global, start: &Start, objects: u32, history: &[Entry], e: &Entry)
        requires state { IsPlainState start.now objects history.now self.old }
        requires next { MayFollow (session_of start.now objects) history.now e.now }
        ensures { IsPlainState start.now objects (history.now ++ e.now ∷ []) self.new }
    {
        note_registry(alloc, &mut self.registry, start, history, e);
        note_file(alloc, &mut self.files, start, history, e);
        note_pipe(alloc, &mut self.pipes, history, e);
        note_callers(alloc, &mut self.callers, history, e);
    }
}
