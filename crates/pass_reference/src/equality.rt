//! Whether two acts are the same.
ghost use Rattle.std.specs.Prelude.{◌≡◌, ◌↔◌, IsTrue};

use pass_entry::{Act, Ask, Bytes, Descriptor, Reply, Text};

fn same_text(a: &Text, b: &Text) -> bool
    ensures { IsTrue result ↔ (a.now ≡ b.now) }
{
    a.as_bytes() == b.as_bytes()
}

fn same_bytes(a: &Bytes, b: &Bytes) -> bool
    ensures { IsTrue result ↔ (a.now ≡ b.now) }
{
    a.as_bytes() == b.as_bytes()
}

fn same_ask(a: Ask, b: Ask) -> bool
    ensures { IsTrue result ↔ (a ≡ b) }
{
    match a {
        Ask::Free { fd } => match b {
            Ask::Free { fd: other } => fd == other,
            _ => false,
        },
        Ask::FreeTwo { first, second } => match b {
            Ask::FreeTwo {
                first: f,
                second: s,
            } => first == f && second == s,
            _ => false,
        },
        Ask::Held { fd } => match b {
            Ask::Held { fd: other } => fd == other,
            _ => false,
        },
        Ask::HeldTwo { first, second } => match b {
            Ask::HeldTwo {
                first: f,
                second: s,
            } => first == f && second == s,
            _ => false,
        },
        Ask::ToRead { fd } => match b {
            Ask::ToRead { fd: other } => fd == other,
            _ => false,
        },
        Ask::ToWrite { fd, len } => match b {
            Ask::ToWrite { fd: f, len: l } => fd == f && len == l,
            _ => false,
        },
        Ask::ToCut { fd, size } => match b {
            Ask::ToCut { fd: f, size: s } => fd == f && size == s,
            _ => false,
        },
        Ask::ToSeek { fd, at } => match b {
            Ask::ToSeek { fd: f, at: a } => fd == f && at == a,
            _ => false,
        },
        Ask::Child { pnode } => match b {
            Ask::Child { pnode: other } => pnode == other,
            _ => false,
        },
    }
}

/// Both are the same reply.
pub fn same_reply(a: &Reply, b: &Reply) -> bool
    ensures { IsTrue result ↔ (a.now ≡ b.now) }
{
    match a {
        Reply::Done => matches!(b, Reply::Done),
        Reply::Made(pnode) => match b {
            Reply::Made(other) => *pnode == *other,
            _ => false,
        },
        Reply::Took(bytes) => match b {
            Reply::Took(other) => same_bytes(bytes, other),
            _ => false,
        },
        Reply::Fault(fault) => match b {
            Reply::Fault(other) => *fault == *other,
            _ => false,
        },
    }
}

fn same_descriptor(a: Descriptor, b: Descriptor) -> bool
    ensures { IsTrue result ↔ (a ≡ b) }
{
    a.pnode == b.pnode && a.kind == b.kind && a.mode == b.mode && a.offset == b.offset
}

/// Both are the same act with the same arguments.
pub fn same_act(a: &Act, b: &Act) -> bool
    ensures { IsTrue result ↔ (a.now ≡ b.now) }
{
    match a {
        Act::Bind { name } => match b {
            Act::Bind { name: other } => same_text(name, other),
            _ => false,
        },
        Act::Find { name } => match b {
            Act::Find { name: other } => same_text(name, other),
            _ => false,
        },
        Act::Move { from, to } => match b {
            Act::Move { from: f, to: t } => same_text(from, f) && same_text(to, t),
            _ => false,
        },
        Act::Unbind { name } => match b {
            Act::Unbind { name: other } => same_text(name, other),
            _ => false,
        },
        Act::Mint { kind } => match b {
            Act::Mint { kind: other } => *kind == *other,
            _ => false,
        },
        Act::Known { pnode } => match b {
            Act::Known { pnode: other } => *pnode == *other,
            _ => false,
        },
        Act::Deny { ask } => match b {
            Act::Deny { ask: other } => same_ask(*ask, *other),
            _ => false,
        },
        Act::Attach { fd, descriptor } => match b {
            Act::Attach {
                fd: f,
                descriptor: d,
            } => *fd == *f && same_descriptor(*descriptor, *d),
            _ => false,
        },
        Act::AttachPipe {
            reader,
            writer,
            pnode,
        } => match b {
            Act::AttachPipe {
                reader: r,
                writer: w,
                pnode: p,
            } => *reader == *r && *writer == *w && *pnode == *p,
            _ => false,
        },
        Act::Detach { fd } => match b {
            Act::Detach { fd: other } => *fd == *other,
            _ => false,
        },
        Act::Seek { fd, at } => match b {
            Act::Seek { fd: f, at: a } => *fd == *f && *at == *a,
            _ => false,
        },
        Act::Show { fd, len } => match b {
            Act::Show { fd: f, len: l } => *fd == *f && *len == *l,
            _ => false,
        },
        Act::Spawn { child } => match b {
            Act::Spawn { child: other } => *child == *other,
            _ => false,
        },
        Act::Born { out, descriptors } => match b {
            Act::Born {
                out: o,
                descriptors: d,
            } => *out == *o && descriptors.is_same(d),
            _ => false,
        },
        Act::Gain { out, fd } => match b {
            Act::Gain { out: o, fd: f } => *out == *o && *fd == *f,
            _ => false,
        },
        Act::Exec { out, name, args } => match b {
            Act::Exec {
                out: o,
                name: n,
                args: a,
            } => *out == *o && same_text(name, n) && same_text(args, a),
            _ => false,
        },
        Act::Reap => matches!(b, Act::Reap),
        Act::Gather { out, child } => match b {
            Act::Gather { out: o, child: c } => *out == *o && *child == *c,
            _ => false,
        },
        Act::Ended => matches!(b, Act::Ended),
        Act::Release { child } => match b {
            Act::Release { child: other } => *child == *other,
            _ => false,
        },
        Act::Finish => matches!(b, Act::Finish),
        Act::Kept { fd } => match b {
            Act::Kept { fd: other } => *fd == *other,
            _ => false,
        },
        Act::Give { at, len } => match b {
            Act::Give { at: a, len: l } => *at == *a && *len == *l,
            _ => false,
        },
        Act::Put { out, at, bytes } => match b {
            Act::Put {
                out: o,
                at: a,
                bytes: y,
            } => *out == *o && *at == *a && same_bytes(bytes, y),
            _ => false,
        },
        Act::Cut { out, size } => match b {
            Act::Cut { out: o, size: s } => *out == *o && *size == *s,
            _ => false,
        },
        Act::Load => matches!(b, Act::Load),
        Act::Take { len } => match b {
            Act::Take { len: other } => *len == *other,
            _ => false,
        },
        Act::Push { out, bytes } => match b {
            Act::Push { out: o, bytes: y } => *out == *o && same_bytes(bytes, y),
            _ => false,
        },
        Act::Join { end } => match b {
            Act::Join { end: other } => *end == *other,
            _ => false,
        },
        Act::Leave { end } => match b {
            Act::Leave { end: other } => *end == *other,
            _ => false,
        },
        Act::Freeze => matches!(b, Act::Freeze),
        Act::Cite => matches!(b, Act::Cite),
        Act::Told { out } => match b {
            Act::Told { out: other } => *out == *other,
            _ => false,
        },
        Act::Tag { attr, value } => match b {
            Act::Tag { attr: a, value: v } => same_text(attr, a) && same_text(value, v),
            _ => false,
        },
        Act::Keep => matches!(b, Act::Keep),
    }
}
