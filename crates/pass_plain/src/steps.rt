//! The last entry of a call.
ghost use Rattle.std.specs.Prelude.{◌≡◌};
ghost use Rattle.pass_plain.specs.Histories.{pnode_of as pnode_in};
ghost use Rattle.pass_plain.specs.Calls.{descriptor_at as descriptor_of, is_last_act as is_last_act_of, is_last as is_last_of};

use crate::process::ProcessState;
use crate::registry::is_fault;
use pass_entry::{Act, CallName, Descriptor, Entry, Kind, Mode, Pnode, Reply};

/// The pnode that a reply gives, 0 where it gives none.
pub fn pnode_of(reply: &Reply) -> Pnode
    ensures { result ≡ pnode_in reply.now }
{
    match reply {
        Reply::Made(pnode) => *pnode,
        _ => Pnode(0),
    }
}

/// The place of the k-th entry that a call has made, 0 where it hasn't made it.
/// The descriptor of this number, and one of an app object 0 where the process holds none.
pub fn descriptor_at(before: &ProcessState, fd: u8) -> Descriptor
    ensures { result ≡ descriptor_of before.now fd }
{
    match before.descriptor(fd) {
        Some(descriptor) => descriptor,
        None => Descriptor {
            pnode: Pnode(0),
            kind: Kind::App,
            mode: Mode::App,
            offset: 0,
        },
    }
}

fn is_last_act(before: &ProcessState, name: CallName, act: &Act) -> bool
    ensures { result ≡ is_last_act_of before.now name act.now }
{
    match name {
        CallName::Start => true,
        CallName::CloseFd => match act {
            Act::Detach { fd } => descriptor_at(before, *fd).kind != Kind::Pipe,
            _ => true,
        },
        CallName::Exit => matches!(act, Act::Finish),
        _ => !matches!(
            act,
            Act::Bind { .. }
                | Act::Find { .. }
                | Act::Mint { .. }
                | Act::Known { .. }
                | Act::Show { .. }
                | Act::Spawn { .. }
                | Act::Reap
                | Act::Ended
                | Act::Give { .. }
                | Act::Load
                | Act::Take { .. }
                | Act::Join { .. }
                | Act::Cite
                | Act::Keep
        ),
    }
}

/// The entry is the last of its call. `before` is the state of the process just before the call.
pub fn is_last(before: &ProcessState, entry: &Entry) -> bool
    ensures { result ≡ is_last_of before.now entry.now }
{
    is_fault(&entry.reply) || is_last_act(before, entry.call, &entry.act)
}
