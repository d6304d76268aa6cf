//! What an object answers to an act, from its state.
ghost use Rattle.std.specs.Prelude.{◌≡◌, ◌<◌, ◌≤◌, ◌+◌, ◌^◌, IfOk, Some, take};
ghost use Rattle.pass_entry.specs.Limits.{number_limit, transfer_limit};
ghost use Rattle.pass_entry.specs.declared.entry.Reply.TheVariants as answer;
ghost use Rattle.pass_plain.specs.Legal.{session_of};
ghost use Rattle.pass_plain.specs.Replies.{found as found_of, done_if as done_if_of, taken as taken_of, pushed as pushed_of};
ghost use Rattle.pass_plain.specs.States.{registry_of, registry_reply as registry_reply_of};
ghost use Rattle.pass_reference.specs.States.{pipe_of, file_reply as file_reply_of, pipe_reply as pipe_reply_of, process_reply as process_reply_of, holder_of as holder_of_lem, AsksFew};

use crate::file::bytes_from;
use crate::pipe::PipeState;
use crate::registry::{is_app, minted};
use pass_entry::{Act, CallFault, Kind, PIPE_CAPACITY, Pnode, Reply};
use pass_plain::registry::RegistryState;
use pass_plain::{ProcessState, Start};
use std::alloc::{AllocError, Global};

/// Whose state the answer to an act is read from.
#[derive(Clone, Copy)]
pub enum Holder {
    Registry,
    File,
    Pipe,
    Process,
    Nothing,
}

pub fn holder_of(act: &Act) -> Holder
    ensures { result ≡ holder_of_lem act.now }
{
    match act {
        Act::Bind { .. }
        | Act::Find { .. }
        | Act::Move { .. }
        | Act::Unbind { .. }
        | Act::Mint { .. }
        | Act::Known { .. } => Holder::Registry,
        Act::Give { .. } => Holder::File,
        Act::Take { .. } | Act::Push { .. } => Holder::Pipe,
        Act::Deny { .. } | Act::Reap | Act::Ended => Holder::Process,
        _ => Holder::Nothing,
    }
}

fn found(file: Option<Pnode>) -> Reply
    ensures { result ≡ found_of file }
{
    match file {
        Some(file) => Reply::Made(file),
        None => Reply::Fault(CallFault::NoEntry),
    }
}

fn done_if(done: bool, fault: CallFault) -> Reply
    ensures { result ≡ done_if_of done fault }
{
    if done {
        Reply::Done
    } else {
        Reply::Fault(fault)
    }
}

/// What the registry of a session that may make so many objects answers.
pub fn registry_reply(registry: &RegistryState, start: &Start, objects: u32, act: &Act) -> Reply
    requires { start.now.ceiling + objects < number_limit }
    ensures { result ≡ registry_reply_of (session_of start.now objects) (registry_of registry.now) act.now }
{
    match act {
        Act::Bind { name } => {
            if registry.names.get(name).is_some() {
                Reply::Fault(CallFault::Exists)
            } else {
                minted(registry, start, objects, Kind::File)
            }
        }
        Act::Find { name } => found(registry.names.get(name)),
        Act::Move { from, .. } => done_if(registry.names.get(from).is_some(), CallFault::NoEntry),
        Act::Unbind { name } => done_if(registry.names.get(name).is_some(), CallFault::NoEntry),
        Act::Mint { kind } => minted(registry, start, objects, *kind),
        Act::Known { pnode } => {
            if is_app(registry, *pnode) {
                Reply::Made(*pnode)
            } else {
                Reply::Fault(CallFault::NoObject)
            }
        }
        _ => Reply::Done,
    }
}

/// What a file of this content answers.
pub fn file_reply(alloc: Global, content: &[u8], act: &Act) -> Result<Reply, AllocError>
    requires { AsksFew act.now }
    ensures { IfOk result (λ r. r ≡ file_reply_of content.now act.now) }
{
    match act {
        Act::Give { at, len } => Ok(Reply::Took(bytes_from(alloc, content, *at, *len)?)),
        _ => Ok(Reply::Done),
    }
}

fn taken(alloc: Global, pipe: &PipeState, len: u32) -> Result<Option<Reply>, AllocError>
    requires { len ≤ transfer_limit }
    ensures { IfOk result (λ r. r ≡ taken_of (pipe_of pipe.now) len) }
{
    if pipe.bytes.is_empty() && pipe.writers > 0 {
        return Ok(None);
    }
    let bytes = bytes_from(alloc, &pipe.bytes, 0, len)?;
    Ok(Some(Reply::Took(bytes)))
}

fn pushed(pipe: &PipeState, len: usize) -> Option<Reply>
    ensures { result ≡ pushed_of (pipe_of pipe.now) len }
{
    if pipe.readers == 0 {
        Some(Reply::Fault(CallFault::BrokenPipe))
    } else if PIPE_CAPACITY.saturating_sub(pipe.bytes.len()) < len {
        None
    } else {
        Some(Reply::Done)
    }
}

/// What a pipe in this state answers, nothing where the act isn't ready.
pub fn pipe_reply(alloc: Global, pipe: &PipeState, act: &Act) -> Result<Option<Reply>, AllocError>
    requires { AsksFew act.now }
    ensures { IfOk result (λ r. r ≡ pipe_reply_of (pipe_of pipe.now) act.now) }
{
    match act {
        Act::Take { len } => taken(alloc, pipe, *len),
        Act::Push { bytes, .. } => Ok(pushed(pipe, bytes.as_bytes().len())),
        _ => Ok(Some(Reply::Done)),
    }
}

/// What a process in this state answers, nothing where the act isn't ready.
pub fn process_reply(state: &ProcessState, act: &Act) -> Option<Reply>
    ensures { result ≡ process_reply_of state.now act.now }
{
    match act {
        Act::Deny { ask } => match state.refusal(ask) {
            Some(fault) => Some(Reply::Fault(fault)),
            None => Some(Reply::Done),
        },
        Act::Reap | Act::Ended => {
            if state.is_ended() {
                Some(Reply::Done)
            } else {
                None
            }
        }
        _ => Some(Reply::Done),
    }
}
