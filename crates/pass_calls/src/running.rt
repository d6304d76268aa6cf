//! The call `exec`.
ghost use Rattle.std.specs.Prelude.{◌≡◌, None, Some, true};
ghost use Rattle.std.specs.FinMap as finite_map;
ghost use Rattle.pass_entry.specs.Texts.{is_name};
ghost use Rattle.pass_plain.specs.declared.request.Request.TheVariants as requests;
ghost use Rattle.pass_plain.specs.Registries.{registry_after};
ghost use Rattle.pass_answer.specs.Answers.{Answers};

use crate::beginning::begin;
use pass_answer::{CallEnd, Moved};
use pass_entry::{CallFault, CallName, Text};
use pass_file::FileDesk;
use pass_hold::{Shelf, Whose};
use pass_proc::Proc;
use pass_registry::RegistryDesk;
use std::alloc::Global;

/// Runs a held file as the program of the process, which begins a version and has read no bytes then. The file is the one that
/// has the name.
pub fn exec<J: Whose>(
    alloc: Global,
    registry: &mut RegistryDesk<J>,
    file: &mut FileDesk<J>,
    shelf: &mut Shelf<J>,
    proc: &mut Proc<J>,
    name: &Text,
    args: &Text,
) -> Result<Moved, CallEnd>
    requires name { is_name name.now ≡ true }
    requires program { finite_map.get (registry_after J.book.session registry.old.seen).names name.now ≡ Some file.old.what }
    ensures call { Answers J.book.session J.places proc.old proc.new (requests.Exec name.now args.now) result }
    ensures what { file.new.what ≡ file.old.what }
{
    let number = begin(shelf, proc)?;
    proc.process.reserve()?;
    let room = proc.process.exec_room(alloc, name, args)?;
    let sought = name.clone()?;
    let _ = args.as_bytes();
    let who = proc.process.pnode();
    let _ = proc.caller.held();
    let caller = &mut proc.caller;
    let _ = registry.find(alloc, shelf, caller, who, number, CallName::Exec, sought);
    let (out, source) = file.load(alloc, shelf, caller, who, number);
    proc.process.exec(shelf, caller, room, number, out, &source);
    proc.number = number;
    proc.way = None;
    Ok(Moved::Done)
}

/// An `exec` of a name that no file has: the registry's refusal is its one entry.
pub fn exec_unnamed<J: Whose>(
    alloc: Global,
    registry: &mut RegistryDesk<J>,
    shelf: &mut Shelf<J>,
    proc: &mut Proc<J>,
    name: &Text,
    args: &Text,
) -> Result<Moved, CallEnd>
    requires name { is_name name.now ≡ true }
    requires none { finite_map.get (registry_after J.book.session registry.old.seen).names name.now ≡ None }
    ensures call { Answers J.book.session J.places proc.old proc.new (requests.Exec name.now args.now) result }
{
    let number = begin(shelf, proc)?;
    let sought = name.clone()?;
    let _ = args.as_bytes();
    let who = proc.process.pnode();
    let _ = proc.caller.held();
    let caller = &mut proc.caller;
    let _ = registry.find(alloc, shelf, caller, who, number, CallName::Exec, sought);
    proc.number = number;
    proc.way = None;
    Err(CallEnd::Fault(CallFault::NoEntry))
}
