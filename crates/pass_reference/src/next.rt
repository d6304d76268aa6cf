//! Which step of a call may come next.
ghost use Rattle.std.specs.Prelude.{◌≡◌, ◌+◌, ◌≤◌, ◌<◌, ◌↔◌, [], ◌∷◌, ◌++◌, ℕ, IfOk, IsTrue, Some, true, length, map, replicate, slice_get, take};
ghost use Rattle.pass_entry.specs.Limits.{transfer_limit};
ghost use Rattle.pass_entry.specs.declared.entry.Entry.{Entry as AnyEntry};
ghost use Rattle.pass_plain.specs.Calls.{act_on};
ghost use Rattle.pass_plain.specs.Legal.{IsNextStep, step_of};
ghost use Rattle.pass_plain.specs.NextSteps.{asks as asks_of, denies as denies_of, first_object as object_of_first, first_act as act_of_first, mode_shown as mode_in, bytes_shown as bytes_in, size_shown as size_in, args_shown as args_in, shown as shown_by, shown_creat as creat_by, shown_open as open_by, shown_read as read_by, shown_write as write_by, shown_seek as seek_by, shown_exec as exec_by, shown_rename as rename_by, shown_unlink as unlink_by, shown_revive as revive_by, shown_tag as tag_by, seconds as seconds_of, Begins, Fits, FitsFirst, FitsSome, AreOfCall};

use crate::equality::same_act;
use crate::steps::{Step, call_steps};
use pass_entry::{Act, Ask, Bytes, CallName, Entry, Mode, Pnode, TRANSFER_LIMIT, Text};
use pass_plain::process::ProcessState;
use pass_plain::request::Request;
use std::alloc::{AllocError, Global};

/// Some call of this name asks this of its process.
fn asks(call: CallName, ask: &Ask) -> bool
    ensures { result ≡ asks_of call ask.now }
{
    match call {
        CallName::Creat | CallName::OpenName | CallName::MakeObj | CallName::Revive => {
            matches!(ask, Ask::Free { fd } if *fd < 64)
        }
        CallName::CloseFd | CallName::FreezeObj | CallName::TagObj | CallName::Sync => {
            matches!(ask, Ask::Held { fd } if *fd < 64)
        }
        CallName::Read => matches!(ask, Ask::ToRead { fd } if *fd < 64),
        CallName::Write =>
            matches!(ask, Ask::ToWrite { fd, len } if *fd < 64 && *len as usize <= TRANSFER_LIMIT),
        CallName::Seek => matches!(ask, Ask::ToSeek { fd, .. } if *fd < 64),
        CallName::Truncate => matches!(ask, Ask::ToCut { fd, .. } if *fd < 64),
        CallName::MakePipe => {
            matches!(ask, Ask::FreeTwo { first, second } if *first < 64 && *second < 64)
        }
        CallName::WaitChild | CallName::Await => matches!(ask, Ask::Child { .. }),
        CallName::Disclose => {
            matches!(ask, Ask::HeldTwo { first, second } if *first < 64 && *second < 64)
        }
        CallName::Start
        | CallName::Fork
        | CallName::Exec
        | CallName::Exit
        | CallName::Rename
        | CallName::Unlink => false,
    }
}

/// The act is the refusal of a call of this name.
fn denies(who: Pnode, before: &ProcessState, call: CallName, what: Pnode, act: &Act) -> bool
    ensures { result ≡ denies_of who before.now call what act.now }
{
    match act {
        Act::Deny { ask } => what == who && asks(call, ask) && before.refusal(ask).is_some(),
        _ => false,
    }
}

fn first_object(made: &[(u64, Entry)], what: Pnode) -> Pnode
    ensures { result ≡ object_of_first made.now what }
{
    match made {
        [] => what,
        [(_, entry), ..] => entry.what,
    }
}

fn first_act<'a>(made: &'a [(u64, Entry)], act: &'a Act) -> &'a Act
    ensures { result.now ≡ act_of_first made.now act.now }
{
    match made {
        [] => act,
        [(_, entry), ..] => &entry.act,
    }
}

fn mode_shown(last: &Act) -> Mode
    ensures { result ≡ mode_in last.now }
{
    match last {
        Act::Attach { descriptor, .. } => descriptor.mode,
        _ => Mode::Read,
    }
}

/// So many zero bytes.
fn zeros(alloc: Global, len: usize) -> Result<Bytes, AllocError>
    requires { len ≤ transfer_limit }
    ensures { IfOk result (λ b. b ≡ replicate len 0) }
{
    let items: Vec<u8> = vec![in alloc; 0; len]?;
    Bytes::of(alloc, items.as_slice()).map_err(|_fault| AllocError)
}

/// The bytes of a write, whose first step told how many.
fn bytes_shown(alloc: Global, len: u32, last: &Act) -> Result<Bytes, AllocError>
    ensures { IfOk result (λ b. b ≡ bytes_in len last.now) }
{
    match last {
        Act::Put { bytes, .. } => bytes.clone(),
        Act::Push { bytes, .. } => bytes.clone(),
        _ => {
            if len as usize <= TRANSFER_LIMIT {
                zeros(alloc, len as usize)
            } else {
                zeros(alloc, 0)
            }
        }
    }
}

fn size_shown(last: &Act) -> u64
    ensures { result ≡ size_in last.now }
{
    match last {
        Act::Cut { size, .. } => *size,
        _ => 0,
    }
}

fn args_shown(name: &Text, last: &Act) -> Result<Text, AllocError>
    ensures { IfOk result (λ t. t ≡ args_in name.now last.now) }
{
    match last {
        Act::Exec { args, .. } => args.clone(),
        _ => name.clone(),
    }
}

fn shown_creat(first: &Act, a: u8) -> Result<Option<Request>, AllocError>
    ensures { IfOk result (λ o. o ≡ creat_by first.now a) }
{
    Ok(match first {
        Act::Bind { name } => Some(Request::Creat {
            fd: a,
            name: name.clone()?,
        }),
        _ => None,
    })
}

fn shown_open(first: &Act, last: &Act, a: u8) -> Result<Option<Request>, AllocError>
    ensures { IfOk result (λ o. o ≡ open_by first.now last.now a) }
{
    Ok(match first {
        Act::Find { name } => Some(Request::OpenName {
            fd: a,
            name: name.clone()?,
            mode: mode_shown(last),
        }),
        _ => None,
    })
}

fn shown_read(first: &Act, a: u8) -> Option<Request>
    ensures { result ≡ read_by first.now a }
{
    match first {
        Act::Give { len, .. } => Some(Request::Read { fd: a, len: *len }),
        Act::Take { len } => Some(Request::Read { fd: a, len: *len }),
        _ => None,
    }
}

fn shown_write(alloc: Global, first: &Act, last: &Act, a: u8) -> Result<Option<Request>, AllocError>
    ensures { IfOk result (λ o. o ≡ write_by first.now last.now a) }
{
    Ok(match first {
        Act::Show { len, .. } => Some(Request::Write {
            fd: a,
            bytes: bytes_shown(alloc, *len, last)?,
        }),
        _ => None,
    })
}

fn shown_seek(first: &Act, a: u8) -> Option<Request>
    ensures { result ≡ seek_by first.now a }
{
    match first {
        Act::Seek { at, .. } => Some(Request::Seek { fd: a, at: *at }),
        _ => None,
    }
}

fn shown_exec(first: &Act, last: &Act) -> Result<Option<Request>, AllocError>
    ensures { IfOk result (λ o. o ≡ exec_by first.now last.now) }
{
    Ok(match first {
        Act::Find { name } => {
            let args = args_shown(name, last)?;
            Some(Request::Exec {
                name: name.clone()?,
                args,
            })
        }
        _ => None,
    })
}

fn shown_rename(first: &Act) -> Result<Option<Request>, AllocError>
    ensures { IfOk result (λ o. o ≡ rename_by first.now) }
{
    Ok(match first {
        Act::Move { from, to } => Some(Request::Rename {
            from: from.clone()?,
            to: to.clone()?,
        }),
        _ => None,
    })
}

fn shown_unlink(first: &Act) -> Result<Option<Request>, AllocError>
    ensures { IfOk result (λ o. o ≡ unlink_by first.now) }
{
    Ok(match first {
        Act::Unbind { name } => Some(Request::Unlink {
            name: name.clone()?,
        }),
        _ => None,
    })
}

fn shown_revive(first: &Act, a: u8) -> Option<Request>
    ensures { result ≡ revive_by first.now a }
{
    match first {
        Act::Known { pnode } => Some(Request::Revive {
            fd: a,
            pnode: *pnode,
        }),
        _ => None,
    }
}

fn shown_tag(first: &Act, a: u8) -> Result<Option<Request>, AllocError>
    ensures { IfOk result (λ o. o ≡ tag_by first.now a) }
{
    Ok(match first {
        Act::Tag { attr, value } => Some(Request::TagObj {
            fd: a,
            attr: attr.clone()?,
            value: value.clone()?,
        }),
        _ => None,
    })
}

/// The call that its first act, an act on `what`, and its latest act show, with the descriptors
/// `a` and `b`.
fn shown(
    alloc: Global,
    call: CallName,
    what: Pnode,
    first: &Act,
    last: &Act,
    a: u8,
    b: u8,
) -> Result<Option<Request>, AllocError>
    ensures { IfOk result (λ o. o ≡ shown_by call what first.now last.now a b) }
{
    match call {
        CallName::Start => Ok(Some(Request::Start)),
        CallName::Creat => shown_creat(first, a),
        CallName::OpenName => shown_open(first, last, a),
        CallName::CloseFd => Ok(Some(Request::CloseFd { fd: a })),
        CallName::Read => Ok(shown_read(first, a)),
        CallName::Write => shown_write(alloc, first, last, a),
        CallName::Seek => Ok(shown_seek(first, a)),
        CallName::Truncate => Ok(Some(Request::Truncate {
            fd: a,
            size: size_shown(last),
        })),
        CallName::MakePipe => Ok(Some(Request::MakePipe {
            reader: a,
            writer: b,
        })),
        CallName::Fork => Ok(Some(Request::Fork)),
        CallName::Exec => shown_exec(first, last),
        CallName::WaitChild => Ok(Some(Request::WaitChild { child: what })),
        CallName::Await => Ok(Some(Request::Await { child: what })),
        CallName::Exit => Ok(Some(Request::Exit)),
        CallName::Rename => shown_rename(first),
        CallName::Unlink => shown_unlink(first),
        CallName::MakeObj => Ok(Some(Request::MakeObj { fd: a })),
        CallName::Revive => Ok(shown_revive(first, a)),
        CallName::FreezeObj => Ok(Some(Request::FreezeObj { fd: a })),
        CallName::Disclose => Ok(Some(Request::Disclose {
            target: a,
            source: b,
        })),
        CallName::TagObj => shown_tag(first, a),
        CallName::Sync => Ok(Some(Request::Sync { fd: a })),
    }
}

/// How many numbers the second descriptor of a call may have.
fn seconds(call: CallName) -> u8
    ensures { result ≡ seconds_of call }
{
    match call {
        CallName::MakePipe | CallName::Disclose => 64,
        _ => 1,
    }
}

fn same_step(step: &Step, what: Pnode, act: &Act) -> bool
    ensures { IsTrue result ↔ (step.now ≡ act_on what act.now) }
{
    step.0 == what && same_act(&step.1, act)
}

/// The steps begin with those of the entries.
fn begin_with(steps: &[Step], made: &[(u64, Entry)]) -> bool
    requires { length made.now ≤ length steps.now }
    ensures { IsTrue result ↔ ((j : ℕ) (m : ℕ × AnyEntry) → slice_get made.now j ≡ Some m → slice_get steps.now j ≡ Some (step_of m)) }
{
    for (i, (_, entry)) in made.iter().enumerate() {
        if !same_step(&steps[i], entry.what, &entry.act) {
            return false;
        }
    }
    true
}

/// The steps made and the next one are the first of these steps.
fn are_first(steps: &[Step], made: &[(u64, Entry)], what: Pnode, act: &Act) -> bool
    ensures { IsTrue result ↔ (take (length made.now + 1) steps.now ≡ map step_of made.now ++ act_on what act.now ∷ []) }
{
    if steps.len() <= made.len() {
        return false;
    }
    same_step(&steps[made.len()], what, act) && begin_with(steps, made)
}

/// The call's arguments are within their limits, and the steps made and the next one are its first
/// steps.
fn begins(
    alloc: Global,
    who: Pnode,
    before: &ProcessState,
    made: &[(u64, Entry)],
    what: Pnode,
    act: &Act,
    request: &Request,
) -> Result<bool, AllocError>
    ensures { IfOk result (λ b. IsTrue b ↔ Begins who before.now made.now (act_on what act.now) request.now) }
{
    if !request.is_within() {
        return Ok(false);
    }
    let steps = call_steps(alloc, who, before, made, request)?;
    Ok(are_first(&steps, made, what, act))
}

/// The steps made and the next one are the first of the call that they show, with the descriptors
/// `a` and `b`.
fn fits(
    alloc: Global,
    who: Pnode,
    before: &ProcessState,
    made: &[(u64, Entry)],
    call: CallName,
    what: Pnode,
    act: &Act,
    a: u8,
    b: u8,
) -> Result<bool, AllocError>
    ensures { IfOk result (λ t. IsTrue t ↔ Fits who before.now made.now call (act_on what act.now) a b) }
{
    let object = first_object(made, what);
    let first = first_act(made, act);
    match shown(alloc, call, object, first, act, a, b)? {
        None => Ok(false),
        Some(request) => begins(alloc, who, before, made, what, act, &request),
    }
}

/// The steps fit with some second descriptor.
fn fits_first(
    alloc: Global,
    who: Pnode,
    before: &ProcessState,
    made: &[(u64, Entry)],
    call: CallName,
    what: Pnode,
    act: &Act,
    a: u8,
) -> Result<bool, AllocError>
    ensures { IfOk result (λ t. IsTrue t ↔ FitsFirst who before.now made.now call (act_on what act.now) a) }
{
    for b in 0..seconds(call) {
        if fits(alloc, who, before, made, call, what, act, a, b)? {
            return Ok(true);
        }
    }
    Ok(false)
}

/// The steps fit with some descriptors.
fn fits_some(
    alloc: Global,
    who: Pnode,
    before: &ProcessState,
    made: &[(u64, Entry)],
    call: CallName,
    what: Pnode,
    act: &Act,
) -> Result<bool, AllocError>
    ensures { IfOk result (λ t. IsTrue t ↔ FitsSome who before.now made.now call (act_on what act.now)) }
{
    for a in 0..64u8 {
        if fits_first(alloc, who, before, made, call, what, act, a)? {
            return Ok(true);
        }
    }
    Ok(false)
}

fn has_name(entry: &Entry, call: CallName) -> bool
    ensures { IsTrue result ↔ (entry.now.call ≡ call) }
{
    entry.call == call
}

fn are_of_call(made: &[(u64, Entry)], call: CallName) -> bool
    ensures { IsTrue result ↔ AreOfCall made.now call }
{
    for (_, entry) in made {
        if !has_name(entry, call) {
            return false;
        }
    }
    true
}

/// The call makes its refusal and nothing else.
fn is_refusal(
    who: Pnode,
    before: &ProcessState,
    made: &[(u64, Entry)],
    call: CallName,
    what: Pnode,
    act: &Act,
) -> bool
    ensures { IsTrue result ↔ ((made.now ≡ []) × (denies_of who before.now call what act.now ≡ true)) }
{
    match made {
        [] => denies(who, before, call, what, act),
        _ => false,
    }
}

/// Whether a step, an act on `what`, may come next in a call of this name by the process `who`,
/// after the entries that the call has made, each with its place. `before` is the state of the
/// process just before the call.
pub fn is_next_step(
    alloc: Global,
    who: Pnode,
    before: &ProcessState,
    made: &[(u64, Entry)],
    call: CallName,
    what: Pnode,
    act: &Act,
) -> Result<bool, AllocError>
    ensures { IfOk result (λ b. IsTrue b ↔ IsNextStep who before.now made.now call (act_on what act.now)) }
{
    if !are_of_call(made, call) {
        return Ok(false);
    }
    if is_refusal(who, before, made, call, what, act) {
        return Ok(true);
    }
    fits_some(alloc, who, before, made, call, what, act)
}
