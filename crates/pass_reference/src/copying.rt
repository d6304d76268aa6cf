//! Copies of entries. They stand here, since nothing else copies an entry and their proofs are long.
ghost use Rattle.std.specs.Prelude.{◌≡◌, IfOk};

use pass_entry::{Act, Entry, Reply};
use std::alloc::AllocError;

pub(crate) fn copied_act(act: &Act) -> Result<Act, AllocError>
    ensures { IfOk result (λ copy. copy ≡ act.now) }
{
    Ok(match act {
        Act::Bind { name } => Act::Bind {
            name: name.clone()?,
        },
        Act::Find { name } => Act::Find {
            name: name.clone()?,
        },
        Act::Move { from, to } => Act::Move {
            from: from.clone()?,
            to: to.clone()?,
        },
        Act::Unbind { name } => Act::Unbind {
            name: name.clone()?,
        },
        Act::Mint { kind } => Act::Mint { kind: *kind },
        Act::Known { pnode } => Act::Known { pnode: *pnode },
        Act::Deny { ask } => Act::Deny { ask: *ask },
        Act::Attach { fd, descriptor } => Act::Attach {
            fd: *fd,
            descriptor: *descriptor,
        },
        Act::AttachPipe {
            reader,
            writer,
            pnode,
        } => Act::AttachPipe {
            reader: *reader,
            writer: *writer,
            pnode: *pnode,
        },
        Act::Detach { fd } => Act::Detach { fd: *fd },
        Act::Seek { fd, at } => Act::Seek { fd: *fd, at: *at },
        Act::Show { fd, len } => Act::Show { fd: *fd, len: *len },
        Act::Spawn { child } => Act::Spawn { child: *child },
        Act::Born { out, descriptors } => Act::Born {
            out: *out,
            descriptors: descriptors.clone()?,
        },
        Act::Gain { out, fd } => Act::Gain { out: *out, fd: *fd },
        Act::Exec { out, name, args } => Act::Exec {
            out: *out,
            name: name.clone()?,
            args: args.clone()?,
        },
        Act::Reap => Act::Reap,
        Act::Gather { out, child } => Act::Gather {
            out: *out,
            child: *child,
        },
        Act::Ended => Act::Ended,
        Act::Release { child } => Act::Release { child: *child },
        Act::Finish => Act::Finish,
        Act::Kept { fd } => Act::Kept { fd: *fd },
        Act::Give { at, len } => Act::Give { at: *at, len: *len },
        Act::Put { out, at, bytes } => Act::Put {
            out: *out,
            at: *at,
            bytes: bytes.clone()?,
        },
        Act::Cut { out, size } => Act::Cut {
            out: *out,
            size: *size,
        },
        Act::Load => Act::Load,
        Act::Take { len } => Act::Take { len: *len },
        Act::Push { out, bytes } => Act::Push {
            out: *out,
            bytes: bytes.clone()?,
        },
        Act::Join { end } => Act::Join { end: *end },
        Act::Leave { end } => Act::Leave { end: *end },
        Act::Freeze => Act::Freeze,
        Act::Cite => Act::Cite,
        Act::Told { out } => Act::Told { out: *out },
        Act::Tag { attr, value } => Act::Tag {
            attr: attr.clone()?,
            value: value.clone()?,
        },
        Act::Keep => Act::Keep,
    })
}

pub(crate) fn copied_reply(reply: &Reply) -> Result<Reply, AllocError>
    ensures { IfOk result (λ copy. copy ≡ reply.now) }
{
    Ok(match reply {
        Reply::Done => Reply::Done,
        Reply::Made(pnode) => Reply::Made(*pnode),
        Reply::Took(bytes) => Reply::Took(bytes.clone()?),
        Reply::Fault(fault) => Reply::Fault(*fault),
    })
}

/// A copy of the entry with this reply.
pub(crate) fn with_reply(entry: &Entry, reply: &Reply) -> Result<Entry, AllocError>
    ensures { IfOk result (λ copy. copy ≡ record entry.now { reply = reply.now }) }
{
    let act = copied_act(&entry.act)?;
    let reply = copied_reply(reply)?;
    Ok(Entry {
        who: entry.who,
        number: entry.number,
        call: entry.call,
        what: entry.what,
        act,
        reply,
    })
}

pub(crate) fn copied_entry(entry: &Entry) -> Result<Entry, AllocError>
    ensures { IfOk result (λ copy. copy ≡ entry.now) }
{
    with_reply(entry, &entry.reply)
}
