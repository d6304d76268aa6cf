//! The calls that change the names of files alone: `rename` and `unlink`.
ghost use Rattle.std.specs.Prelude.{◌≡◌, true};
ghost use Rattle.pass_entry.specs.Texts.{is_name};
ghost use Rattle.pass_plain.specs.Calls.{is_within, name_of};
ghost use Rattle.pass_plain.specs.declared.request.Request.TheVariants as requests;
ghost use Rattle.pass_hold.specs.Places.{HasRoom};
ghost use Rattle.pass_hold.specs.Entering.{MayEnter, Enters};
ghost use Rattle.pass_registry.specs.Desks.{on_registry};
ghost use Rattle.pass_registry.specs.Outcomes.{reply_done};
ghost use Rattle.pass_answer.specs.Answers.{Answers};
ghost use Rattle.pass_calls.specs.Renamings.{act_of_change, request_of_change};

use crate::beginning::begin;
use pass_answer::{CallEnd, Moved};
use pass_entry::{CallFault, Pnode, Text};
use pass_hold::{Caller, Shelf, Whose};
use pass_proc::Proc;
use pass_registry::{MoveRoom, RegistryDesk, UnbindRoom};
use std::alloc::Global;

/// A change of names, with the memory that its entry takes.
#[derive(Drop)]
pub(crate) enum Change {
    /// A file gets another name, which another file may lose.
    Move { room: MoveRoom },
    /// A file loses its name.
    Unbind { room: UnbindRoom },
}

/// The one step, on the registry.
fn change_names<J: Whose>(
    registry: &mut RegistryDesk<J>,
    shelf: &mut Shelf<J>,
    caller: &mut Caller<J>,
    who: Pnode,
    number: u64,
    change: Change,
) -> Result<(), CallFault>
    requires place { HasRoom shelf.old caller.old.held 3 }
    requires who { caller.old.who ≡ who }
    requires entry { (reply : _) → MayEnter caller.old.seen (on_registry who number (name_of (request_of_change change)) (act_of_change change) reply) 0 }
    ensures entry { Enters J.book.session caller.old caller.new registry.old.seen (on_registry who number (name_of (request_of_change change)) (act_of_change change) (reply_done result)) 0 }
{
    match change {
        Change::Move { room } => registry.rename(shelf, caller, who, number, room),
        Change::Unbind { room } => registry.unlink(shelf, caller, who, number, room),
    }
}

/// A call whose memory is taken.
fn changed<J: Whose>(
    registry: &mut RegistryDesk<J>,
    shelf: &mut Shelf<J>,
    proc: &mut Proc<J>,
    change: Change,
) -> Result<Moved, CallEnd>
    requires within { is_within (request_of_change change) ≡ true }
    ensures call { Answers J.book.session J.places proc.old proc.new (request_of_change change) result }
{
    let number = begin(shelf, proc)?;
    let who = proc.process.pnode();
    let _ = proc.caller.held();
    proc.number = number;
    proc.way = None;
    match change_names(registry, shelf, &mut proc.caller, who, number, change) {
        Ok(()) => Ok(Moved::Done),
        Err(fault) => Err(CallEnd::Fault(fault)),
    }
}

/// Gives a file another name. A file that has that name loses it.
pub fn rename<J: Whose>(
    alloc: Global,
    registry: &mut RegistryDesk<J>,
    shelf: &mut Shelf<J>,
    proc: &mut Proc<J>,
    from: &Text,
    to: &Text,
) -> Result<Moved, CallEnd>
    requires from { is_name from.now ≡ true }
    requires to { is_name to.now ≡ true }
    ensures call { Answers J.book.session J.places proc.old proc.new (requests.Rename from.now to.now) result }
{
    let room = MoveRoom::of(alloc, from, to)?;
    changed(registry, shelf, proc, Change::Move { room })
}

/// Takes a name from its file, which stays.
pub fn unlink<J: Whose>(
    alloc: Global,
    registry: &mut RegistryDesk<J>,
    shelf: &mut Shelf<J>,
    proc: &mut Proc<J>,
    name: &Text,
) -> Result<Moved, CallEnd>
    requires name { is_name name.now ≡ true }
    ensures call { Answers J.book.session J.places proc.old proc.new (requests.Unlink name.now) result }
{
    let room = UnbindRoom::of(alloc, name)?;
    changed(registry, shelf, proc, Change::Unbind { room })
}
