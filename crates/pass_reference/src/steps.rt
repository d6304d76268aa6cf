//! The steps that a call makes, in order.
ghost use Rattle.std.specs.Prelude.{◌≡◌, [], ◌∷◌, map, IfOk};
ghost use Rattle.pass_entry.specs.declared.entry.Act.TheVariants as act;
ghost use Rattle.pass_plain.specs.declared.request.Request.TheVariants as requests;
ghost use Rattle.pass_plain.specs.Histories.{pnode_of as pnode_in};
ghost use Rattle.pass_plain.specs.Calls.{place_at as place_of, pnode_at as pnode_of_step, end_of as end_for, pipe_descriptors as pipes_of, steps_of as own_steps_of, refused_ask as refused_by, call_steps as call_steps_of};
ghost use Rattle.pass_plain.specs.Legal.{ends_call as ends_call_of, leaves_call as leaves_call_of, is_left_act as is_left_act_of};

use pass_entry::{
    Act, Ask, Bytes, CallName, Descriptor, End, Entry, Inherited, Kind, Mode, Pnode, Reply, Text,
};
use pass_plain::process::ProcessState;
use pass_plain::request::Request;
use pass_plain::steps::{descriptor_at, is_last, pnode_of};
use std::alloc::{AllocError, Global};

/// An act on an object.
pub type Step = (Pnode, Act);

/// The registry, and the outside.
const REGISTRY: Pnode = Pnode(0);

fn place_at(made: &[(u64, Entry)], k: usize) -> u64
    ensures { result ≡ place_of made.now k }
{
    match made.get(k) {
        Some((place, _)) => *place,
        None => 0,
    }
}

/// The pnode that the k-th entry of a call was answered.
fn pnode_at(made: &[(u64, Entry)], k: usize) -> Pnode
    ensures { result ≡ pnode_of_step made.now k }
{
    match made.get(k) {
        Some((_, entry)) => pnode_of(&entry.reply),
        None => Pnode(0),
    }
}

/// The end of a pipe that a descriptor of this mode is.
fn end_of(mode: Mode) -> End
    ensures { result ≡ end_for mode }
{
    match mode {
        Mode::Write => End::Writer,
        _ => End::Reader,
    }
}

/// The pipe descriptors, in ascending order of their numbers.
fn pipe_descriptors(alloc: Global, before: &ProcessState) -> Result<Vec<Descriptor>, AllocError>
    ensures { IfOk result (λ v. v.items ≡ pipes_of before.now) }
{
    (0..64u8)
        .filter_map(|fd| before.descriptor(fd))
        .filter(|d| d.kind == Kind::Pipe)
        .collect(alloc)
}

/// What the process refuses of the call.
fn refused_ask(before: &ProcessState, request: &Request) -> Option<Ask>
    ensures { result ≡ refused_by before.now request.now }
{
    let asked = request.ask()?;
    if before.refusal(&asked).is_some() {
        Some(asked)
    } else {
        None
    }
}

/// A new descriptor at the start of its object.
fn opened(pnode: Pnode, kind: Kind, mode: Mode) -> Descriptor
    ensures { result ≡ record { pnode = pnode; kind = kind; mode = mode; offset = 0 } }
{
    Descriptor {
        pnode,
        kind,
        mode,
        offset: 0,
    }
}

fn creat_steps(
    alloc: Global,
    who: Pnode,
    before: &ProcessState,
    made: &[(u64, Entry)],
    fd: u8,
    name: &Text,
) -> Result<Vec<Step>, AllocError>
    ensures { IfOk result (λ v. v.items ≡ own_steps_of who before.now made.now (requests.Creat fd name.now)) }
{
    let name = name.clone()?;
    let descriptor = opened(pnode_at(made, 0), Kind::File, Mode::Both);
    Ok(vec![in alloc;
        (REGISTRY, Act::Bind { name }),
        (who, Act::Attach { fd, descriptor }),
    ]?)
}

fn open_steps(
    alloc: Global,
    who: Pnode,
    before: &ProcessState,
    made: &[(u64, Entry)],
    fd: u8,
    name: &Text,
    mode: Mode,
) -> Result<Vec<Step>, AllocError>
    ensures { IfOk result (λ v. v.items ≡ own_steps_of who before.now made.now (requests.OpenName fd name.now mode)) }
{
    let name = name.clone()?;
    let descriptor = opened(pnode_at(made, 0), Kind::File, mode);
    Ok(vec![in alloc;
        (REGISTRY, Act::Find { name }),
        (who, Act::Attach { fd, descriptor }),
    ]?)
}

fn close_steps(
    alloc: Global,
    who: Pnode,
    before: &ProcessState,
    made: &[(u64, Entry)],
    fd: u8,
) -> Result<Vec<Step>, AllocError>
    ensures { IfOk result (λ v. v.items ≡ own_steps_of who before.now made.now (requests.CloseFd fd)) }
{
    let d = descriptor_at(before, fd);
    if d.kind == Kind::Pipe {
        Ok(vec![in alloc;
            (who, Act::Detach { fd }),
            (
                d.pnode,
                Act::Leave {
                    end: end_of(d.mode)
                }
            ),
        ]?)
    } else {
        Ok(vec![in alloc; (who, Act::Detach { fd })]?)
    }
}

fn read_steps(
    alloc: Global,
    who: Pnode,
    before: &ProcessState,
    made: &[(u64, Entry)],
    fd: u8,
    len: u32,
) -> Result<Vec<Step>, AllocError>
    ensures { IfOk result (λ v. v.items ≡ own_steps_of who before.now made.now (requests.Read fd len)) }
{
    let d = descriptor_at(before, fd);
    let given = if d.kind == Kind::File {
        Act::Give { at: d.offset, len }
    } else {
        Act::Take { len }
    };
    let out = place_at(made, 0);
    Ok(vec![in alloc; (d.pnode, given), (who, Act::Gain { out, fd })]?)
}

fn write_steps(
    alloc: Global,
    who: Pnode,
    before: &ProcessState,
    made: &[(u64, Entry)],
    fd: u8,
    bytes: &Bytes,
) -> Result<Vec<Step>, AllocError>
    ensures { IfOk result (λ v. v.items ≡ own_steps_of who before.now made.now (requests.Write fd bytes.now)) }
{
    let d = descriptor_at(before, fd);
    let len = bytes.as_bytes().len() as u32;
    let out = place_at(made, 0);
    let bytes = bytes.clone()?;
    let taken = if d.kind == Kind::File {
        Act::Put {
            out,
            at: d.offset,
            bytes,
        }
    } else {
        Act::Push { out, bytes }
    };
    Ok(vec![in alloc; (who, Act::Show { fd, len }), (d.pnode, taken)]?)
}

fn cut_steps(
    alloc: Global,
    who: Pnode,
    before: &ProcessState,
    made: &[(u64, Entry)],
    fd: u8,
    size: u64,
) -> Result<Vec<Step>, AllocError>
    ensures { IfOk result (λ v. v.items ≡ own_steps_of who before.now made.now (requests.Truncate fd size)) }
{
    let d = descriptor_at(before, fd);
    let out = place_at(made, 0);
    Ok(vec![in alloc;
        (who, Act::Show { fd, len: 0 }),
        (d.pnode, Act::Cut { out, size }),
    ]?)
}

fn pipe_steps(
    alloc: Global,
    who: Pnode,
    before: &ProcessState,
    made: &[(u64, Entry)],
    reader: u8,
    writer: u8,
) -> Result<Vec<Step>, AllocError>
    ensures { IfOk result (λ v. v.items ≡ own_steps_of who before.now made.now (requests.MakePipe reader writer)) }
{
    let pnode = pnode_at(made, 0);
    Ok(vec![in alloc;
        (REGISTRY, Act::Mint { kind: Kind::Pipe }),
        (
            who,
            Act::AttachPipe {
                reader,
                writer,
                pnode
            }
        ),
    ]?)
}

/// A new end of each pipe that the process has open.
fn join_steps(alloc: Global, before: &ProcessState) -> Result<Vec<Step>, AllocError>
    ensures { IfOk result (λ v. v.items ≡ map (λ d. (d.pnode, act.Join (end_for d.mode))) (pipes_of before.now)) }
{
    pipe_descriptors(alloc, before)?
        .iter()
        .map(|d| (
            d.pnode,
            Act::Join {
                end: end_of(d.mode),
            },
        ))
        .collect(alloc)
}

fn fork_steps(
    alloc: Global,
    who: Pnode,
    before: &ProcessState,
    made: &[(u64, Entry)],
) -> Result<Vec<Step>, AllocError>
    ensures { IfOk result (λ v. v.items ≡ own_steps_of who before.now made.now requests.Fork) }
{
    let child = pnode_at(made, 0);
    let out = place_at(made, 1);
    let mut joins = join_steps(alloc, before)?;
    let descriptors = Inherited::of(alloc, before.descriptors())?;
    let mut steps = vec![in alloc;
        (
            REGISTRY,
            Act::Mint {
                kind: Kind::Process
            }
        ),
        (who, Act::Spawn { child }),
    ]?;
    steps.append(&mut joins)?;
    steps.push((child, Act::Born { out, descriptors }))?;
    Ok(steps)
}

fn exec_steps(
    alloc: Global,
    who: Pnode,
    before: &ProcessState,
    made: &[(u64, Entry)],
    name: &Text,
    args: &Text,
) -> Result<Vec<Step>, AllocError>
    ensures { IfOk result (λ v. v.items ≡ own_steps_of who before.now made.now (requests.Exec name.now args.now)) }
{
    let found = Act::Find {
        name: name.clone()?,
    };
    let loaded = pnode_at(made, 0);
    let name = name.clone()?;
    let args = args.clone()?;
    let out = place_at(made, 1);
    Ok(vec![in alloc;
        (REGISTRY, found),
        (loaded, Act::Load),
        (who, Act::Exec { out, name, args }),
    ]?)
}

/// An end less of each pipe that the process has open.
fn leave_steps(alloc: Global, before: &ProcessState) -> Result<Vec<Step>, AllocError>
    ensures { IfOk result (λ v. v.items ≡ map (λ d. (d.pnode, act.Leave (end_for d.mode))) (pipes_of before.now)) }
{
    pipe_descriptors(alloc, before)?
        .iter()
        .map(|d| (
            d.pnode,
            Act::Leave {
                end: end_of(d.mode),
            },
        ))
        .collect(alloc)
}

fn exit_steps(
    alloc: Global,
    who: Pnode,
    before: &ProcessState,
    made: &[(u64, Entry)],
) -> Result<Vec<Step>, AllocError>
    ensures { IfOk result (λ v. v.items ≡ own_steps_of who before.now made.now requests.Exit) }
{
    let mut steps = leave_steps(alloc, before)?;
    steps.push((who, Act::Finish))?;
    Ok(steps)
}

fn wait_steps(
    alloc: Global,
    who: Pnode,
    before: &ProcessState,
    made: &[(u64, Entry)],
    child: Pnode,
) -> Result<Vec<Step>, AllocError>
    ensures { IfOk result (λ v. v.items ≡ own_steps_of who before.now made.now (requests.WaitChild child)) }
{
    let out = place_at(made, 0);
    Ok(vec![in alloc; (child, Act::Reap), (who, Act::Gather { out, child })]?)
}

fn await_steps(
    alloc: Global,
    who: Pnode,
    before: &ProcessState,
    made: &[(u64, Entry)],
    child: Pnode,
) -> Result<Vec<Step>, AllocError>
    ensures { IfOk result (λ v. v.items ≡ own_steps_of who before.now made.now (requests.Await child)) }
{
    Ok(vec![in alloc; (child, Act::Ended), (who, Act::Release { child })]?)
}

fn make_object_steps(
    alloc: Global,
    who: Pnode,
    before: &ProcessState,
    made: &[(u64, Entry)],
    fd: u8,
) -> Result<Vec<Step>, AllocError>
    ensures { IfOk result (λ v. v.items ≡ own_steps_of who before.now made.now (requests.MakeObj fd)) }
{
    let descriptor = opened(pnode_at(made, 0), Kind::App, Mode::App);
    Ok(vec![in alloc;
        (REGISTRY, Act::Mint { kind: Kind::App }),
        (who, Act::Attach { fd, descriptor }),
    ]?)
}

fn revive_steps(
    alloc: Global,
    who: Pnode,
    before: &ProcessState,
    made: &[(u64, Entry)],
    fd: u8,
    pnode: Pnode,
) -> Result<Vec<Step>, AllocError>
    ensures { IfOk result (λ v. v.items ≡ own_steps_of who before.now made.now (requests.Revive fd pnode)) }
{
    let descriptor = opened(pnode, Kind::App, Mode::App);
    Ok(vec![in alloc;
        (REGISTRY, Act::Known { pnode }),
        (who, Act::Attach { fd, descriptor }),
    ]?)
}

fn disclose_steps(
    alloc: Global,
    who: Pnode,
    before: &ProcessState,
    made: &[(u64, Entry)],
    target: u8,
    source: u8,
) -> Result<Vec<Step>, AllocError>
    ensures { IfOk result (λ v. v.items ≡ own_steps_of who before.now made.now (requests.Disclose target source)) }
{
    let to = descriptor_at(before, target);
    let from = descriptor_at(before, source);
    let out = place_at(made, 0);
    Ok(vec![in alloc; (from.pnode, Act::Cite), (to.pnode, Act::Told { out })]?)
}

fn tag_steps(
    alloc: Global,
    who: Pnode,
    before: &ProcessState,
    made: &[(u64, Entry)],
    fd: u8,
    attr: &Text,
    value: &Text,
) -> Result<Vec<Step>, AllocError>
    ensures { IfOk result (λ v. v.items ≡ own_steps_of who before.now made.now (requests.TagObj fd attr.now value.now)) }
{
    let attr = attr.clone()?;
    let value = value.clone()?;
    Ok(vec![in alloc; (descriptor_at(before, fd).pnode, Act::Tag { attr, value })]?)
}

/// The one step of a call.
fn one(alloc: Global, what: Pnode, act: Act) -> Result<Vec<Step>, AllocError>
    ensures { IfOk result (λ v. v.items ≡ (what, act) ∷ []) }
{
    Ok(vec![in alloc; (what, act)]?)
}

/// The steps of a call that its process does not refuse.
fn own_steps(
    alloc: Global,
    who: Pnode,
    before: &ProcessState,
    made: &[(u64, Entry)],
    request: &Request,
) -> Result<Vec<Step>, AllocError>
    ensures { IfOk result (λ v. v.items ≡ own_steps_of who before.now made.now request.now) }
{
    match request {
        Request::Start => one(
            alloc,
            REGISTRY,
            Act::Mint {
                kind: Kind::Process,
            },
        ),
        Request::Creat { fd, name } => creat_steps(alloc, who, before, made, *fd, name),
        Request::OpenName { fd, name, mode } => {
            open_steps(alloc, who, before, made, *fd, name, *mode)
        }
        Request::CloseFd { fd } => close_steps(alloc, who, before, made, *fd),
        Request::Read { fd, len } => read_steps(alloc, who, before, made, *fd, *len),
        Request::Write { fd, bytes } => write_steps(alloc, who, before, made, *fd, bytes),
        Request::Seek { fd, at } => one(alloc, who, Act::Seek { fd: *fd, at: *at }),
        Request::Truncate { fd, size } => cut_steps(alloc, who, before, made, *fd, *size),
        Request::MakePipe { reader, writer } => {
            pipe_steps(alloc, who, before, made, *reader, *writer)
        }
        Request::Fork => fork_steps(alloc, who, before, made),
        Request::Exec { name, args } => exec_steps(alloc, who, before, made, name, args),
        Request::WaitChild { child } => wait_steps(alloc, who, before, made, *child),
        Request::Await { child } => await_steps(alloc, who, before, made, *child),
        Request::Exit => exit_steps(alloc, who, before, made),
        Request::Rename { from, to } => rename_steps(alloc, who, before, made, from, to),
        Request::Unlink { name } => unlink_steps(alloc, who, before, made, name),
        Request::MakeObj { fd } => make_object_steps(alloc, who, before, made, *fd),
        Request::Revive { fd, pnode } => revive_steps(alloc, who, before, made, *fd, *pnode),
        Request::FreezeObj { fd } => one(alloc, descriptor_at(before, *fd).pnode, Act::Freeze),
        Request::Disclose { target, source } => {
            disclose_steps(alloc, who, before, made, *target, *source)
        }
        Request::TagObj { fd, attr, value } => {
            tag_steps(alloc, who, before, made, *fd, attr, value)
        }
        Request::Sync { fd } => sync_steps(alloc, who, before, made, *fd),
    }
}

fn rename_steps(
    alloc: Global,
    who: Pnode,
    before: &ProcessState,
    made: &[(u64, Entry)],
    from: &Text,
    to: &Text,
) -> Result<Vec<Step>, AllocError>
    ensures { IfOk result (λ v. v.items ≡ own_steps_of who before.now made.now (requests.Rename from.now to.now)) }
{
    let from = from.clone()?;
    let to = to.clone()?;
    one(alloc, REGISTRY, Act::Move { from, to })
}

fn unlink_steps(
    alloc: Global,
    who: Pnode,
    before: &ProcessState,
    made: &[(u64, Entry)],
    name: &Text,
) -> Result<Vec<Step>, AllocError>
    ensures { IfOk result (λ v. v.items ≡ own_steps_of who before.now made.now (requests.Unlink name.now)) }
{
    let name = name.clone()?;
    one(alloc, REGISTRY, Act::Unbind { name })
}

fn sync_steps(
    alloc: Global,
    who: Pnode,
    before: &ProcessState,
    made: &[(u64, Entry)],
    fd: u8,
) -> Result<Vec<Step>, AllocError>
    ensures { IfOk result (λ v. v.items ≡ own_steps_of who before.now made.now (requests.Sync fd)) }
{
    Ok(vec![in alloc;
        (descriptor_at(before, fd).pnode, Act::Keep),
        (who, Act::Kept { fd }),
    ]?)
}

/// All steps of a call, in order: its one refusal, or its own steps. `before` is the state of the
/// process just before the call, and `made` the entries that the call has made, each with its
/// place; steps whose numbers and places are not known yet have 0 for them. A process's next entry
/// is the step at `made`'s length.
pub fn call_steps(
    alloc: Global,
    who: Pnode,
    before: &ProcessState,
    made: &[(u64, Entry)],
    request: &Request,
) -> Result<Vec<Step>, AllocError>
    ensures { IfOk result (λ v. v.items ≡ call_steps_of who before.now made.now request.now) }
{
    match refused_ask(before, request) {
        Some(ask) => one(alloc, who, Act::Deny { ask }),
        None => own_steps(alloc, who, before, made, request),
    }
}

/// The last of a call's entries ends it.
pub fn ends_call(before: &ProcessState, made: &[(u64, Entry)]) -> bool
    ensures { result ≡ ends_call_of before.now made.now }
{
    match made {
        [] => false,
        [.., (_, entry)] => is_last(before, entry),
    }
}

fn is_left_act(before: &ProcessState, name: CallName, act: &Act) -> bool
    ensures { result ≡ is_left_act_of before.now name act.now }
{
    match name {
        CallName::Write => match act {
            Act::Show { fd, .. } => descriptor_at(before, *fd).kind == Kind::Pipe,
            _ => false,
        },
        CallName::Sync => matches!(act, Act::Keep),
        _ => false,
    }
}

/// A call may be left with the one entry that it has made: a write to a pipe that is not ready, or
/// a sync that the disk refused.
pub fn leaves_call(before: &ProcessState, made: &[(u64, Entry)]) -> bool
    ensures { result ≡ leaves_call_of before.now made.now }
{
    match made {
        [(_, entry)] => is_left_act(before, entry.call, &entry.act),
        _ => false,
    }
}
