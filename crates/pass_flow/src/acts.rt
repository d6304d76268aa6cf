//! The acts that leave what an object holds: each is the object's own entry, made once for all kinds of objects.
ghost use Rattle.std.specs.Prelude.{◌≡◌, ◌-◌, ◌≤◌, ◌<◌, Some, slice_get};
ghost use Rattle.pass_plain.specs.Versions.{nodes_of};
ghost use Rattle.pass_hold.specs.Places.{HasRoom};
ghost use Rattle.pass_hold.specs.Entering.{MayEnter, Enters, IsAt};
ghost use Rattle.pass_flow.specs.Flows.{freeze_entry, cite_entry, told_entry, tag_entry, keep_entry};

use crate::tag::TagRoom;
use crate::versioned::Versioned;
use pass_entry::{Act, CallName, Entry, Node, Pnode, Reply};
use pass_hold::{Caller, Shelf, Whose};
use std::alloc::Global;

/// Begins a new version, and answers the place and the new node. It is the one step of its call.
pub fn freeze<J: Whose, V: Versioned<J>>(
    object: &mut V,
    alloc: Global,
    shelf: &mut Shelf<J>,
    caller: &mut Caller<J>,
    who: Pnode,
    number: u64,
) -> (u64, Node)
    requires who { caller.old.who ≡ who }
    requires place { HasRoom shelf.old caller.old.held 3 }
    requires entry { MayEnter caller.old.seen (freeze_entry who number (V.object object.old).what) 0 }
    ensures entry { Enters J.book.session caller.old caller.new (V.object object.old).seen (freeze_entry who number (V.object object.old).what) 0 }
    ensures at { IsAt J.book.session caller.new.seen result }
    ensures state { V.object object.new ≡ record (V.object object.old) { seen = caller.new.seen; syncs = caller.new.syncs } }
{
    let entry = Entry {
        who,
        number,
        call: CallName::FreezeObj,
        what: object.what(),
        act: Act::Freeze,
        reply: Reply::Done,
    };
    object.enter_flow(shelf, caller, entry, None, Vec::new(alloc), 0)
}

/// Is used as the source of a disclosure, and answers the place and the node.
pub fn cite<J: Whose, V: Versioned<J>>(
    object: &mut V,
    alloc: Global,
    shelf: &mut Shelf<J>,
    caller: &mut Caller<J>,
    who: Pnode,
    number: u64,
) -> (u64, Node)
    requires who { caller.old.who ≡ who }
    requires place { HasRoom shelf.old caller.old.held 3 }
    requires entry { MayEnter caller.old.seen (cite_entry who number (V.object object.old).what) 2 }
    ensures entry { Enters J.book.session caller.old caller.new (V.object object.old).seen (cite_entry who number (V.object object.old).what) 2 }
    ensures at { IsAt J.book.session caller.new.seen result }
    ensures state { V.object object.new ≡ record (V.object object.old) { seen = caller.new.seen; syncs = caller.new.syncs } }
{
    let entry = Entry {
        who,
        number,
        call: CallName::Disclose,
        what: object.what(),
        act: Act::Cite,
        reply: Reply::Done,
    };
    object.enter_flow(shelf, caller, entry, None, Vec::new(alloc), 2)
}

/// Takes from the source that a disclosure names, whose step stands at `out`. It is the last step of its call.
pub fn told<J: Whose, V: Versioned<J>>(
    object: &mut V,
    alloc: Global,
    shelf: &mut Shelf<J>,
    caller: &mut Caller<J>,
    who: Pnode,
    number: u64,
    out: u64,
    source: &Node,
) -> (u64, Node)
    requires who { caller.old.who ≡ who }
    requires place { 0 < caller.old.held }
    requires spare { 1 ≤ (V.object object.old).spare }
    requires source { slice_get (nodes_of J.book.session caller.old.seen) out ≡ Some source.now }
    requires entry { MayEnter caller.old.seen (told_entry who number (V.object object.old).what out) 0 }
    ensures entry { Enters J.book.session caller.old caller.new (V.object object.old).seen (told_entry who number (V.object object.old).what out) 0 }
    ensures at { IsAt J.book.session caller.new.seen result }
    ensures state { V.object object.new ≡ record (V.object object.old) { seen = caller.new.seen; syncs = caller.new.syncs; spare = (V.object object.old).spare - 1 } }
{
    let entry = Entry {
        who,
        number,
        call: CallName::Disclose,
        what: object.what(),
        act: Act::Told { out },
        reply: Reply::Done,
    };
    object.enter_flow(shelf, caller, entry, Some(*source), Vec::new(alloc), 0)
}

/// Gives the current version an attribute. It is the one step of its call.
pub fn tag<J: Whose, V: Versioned<J>>(
    object: &mut V,
    shelf: &mut Shelf<J>,
    caller: &mut Caller<J>,
    who: Pnode,
    number: u64,
    room: TagRoom,
) -> (u64, Node)
    requires who { caller.old.who ≡ who }
    requires place { HasRoom shelf.old caller.old.held 3 }
    requires entry { MayEnter caller.old.seen (tag_entry who number (V.object object.old).what room.attr room.value) 0 }
    ensures entry { Enters J.book.session caller.old caller.new (V.object object.old).seen (tag_entry who number (V.object object.old).what room.attr room.value) 0 }
    ensures at { IsAt J.book.session caller.new.seen result }
    ensures state { V.object object.new ≡ record (V.object object.old) { seen = caller.new.seen; syncs = caller.new.syncs } }
{
    let (act, list) = room.made(&object.current());
    let entry = Entry {
        who,
        number,
        call: CallName::TagObj,
        what: object.what(),
        act,
        reply: Reply::Done,
    };
    object.enter_flow(shelf, caller, entry, None, list, 0)
}

/// Makes the first step of a sync, and answers its place and the object's node there.
pub fn keep<J: Whose, V: Versioned<J>>(
    object: &mut V,
    alloc: Global,
    shelf: &mut Shelf<J>,
    caller: &mut Caller<J>,
    who: Pnode,
    number: u64,
) -> (u64, Node)
    requires who { caller.old.who ≡ who }
    requires place { HasRoom shelf.old caller.old.held 3 }
    requires entry { MayEnter caller.old.seen (keep_entry who number (V.object object.old).what) 2 }
    ensures entry { Enters J.book.session caller.old caller.new (V.object object.old).seen (keep_entry who number (V.object object.old).what) 2 }
    ensures at { IsAt J.book.session caller.new.seen result }
    ensures state { V.object object.new ≡ record (V.object object.old) { seen = caller.new.seen; syncs = caller.new.syncs } }
{
    let entry = Entry {
        who,
        number,
        call: CallName::Sync,
        what: object.what(),
        act: Act::Keep,
        reply: Reply::Done,
    };
    object.enter_flow(shelf, caller, entry, None, Vec::new(alloc), 2)
}
