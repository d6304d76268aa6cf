//! The calls that get an object from the registry: `creat`, `open_name`, `make_object`, `revive` and `make_pipe`.
ghost use Rattle.std.specs.Prelude.{◌≡◌, ◌<◌, true, false};
ghost use Rattle.pass_entry.specs.Texts.{is_name};
ghost use Rattle.pass_entry.specs.declared.objects.Kind.TheVariants as kinds;
ghost use Rattle.pass_entry.specs.declared.objects.Mode.TheVariants as modes;
ghost use Rattle.pass_plain.specs.declared.request.Request.TheVariants as requests;
ghost use Rattle.pass_plain.specs.Processes.{same_mode};
ghost use Rattle.pass_registry.specs.Desks.{IsMade};
ghost use Rattle.pass_answer.specs.Answers.{Answers};
ghost use Rattle.pass_calls.specs.Grants.{IfMade};

use crate::granting::{Grant, granted};
use pass_answer::{CallEnd, Moved, refused};
use pass_entry::{Ask, CallName, Mode, Pnode, Text};
use pass_hold::{Shelf, Whose};
use pass_proc::Proc;
use pass_registry::{BindRoom, RegistryDesk};
use std::alloc::Global;

/// Makes a file under a name that no file has, and holds it for reading and writing.
pub fn creat<J: Whose>(
    alloc: Global,
    registry: &mut RegistryDesk<J>,
    shelf: &mut Shelf<J>,
    proc: &mut Proc<J>,
    fd: u8,
    name: &Text,
) -> Result<Moved, CallEnd>
    requires fd { fd < 64 }
    requires name { is_name name.now ≡ true }
    ensures call { Answers J.book.session J.places proc.old proc.new (requests.Creat fd name.now) result }
    ensures made { IfMade result (λ pnode. IsMade J.book.session registry.old.seen registry.new.seen pnode kinds.File) }
{
    let ask = Ask::Free { fd };
    if let Err(fault) = proc.deny(&ask) {
        return Err(refused(alloc, shelf, proc, CallName::Creat, ask, fault));
    }
    registry.reserve()?;
    let room = BindRoom::of(alloc, name)?;
    granted(alloc, registry, shelf, proc, Grant::Bind { fd, room })
}

/// Holds the file of a name, for reading, for writing or for both.
pub fn open_name<J: Whose>(
    alloc: Global,
    registry: &mut RegistryDesk<J>,
    shelf: &mut Shelf<J>,
    proc: &mut Proc<J>,
    fd: u8,
    name: &Text,
    mode: Mode,
) -> Result<Moved, CallEnd>
    requires fd { fd < 64 }
    requires name { is_name name.now ≡ true }
    requires mode { same_mode mode modes.App ≡ false }
    ensures call { Answers J.book.session J.places proc.old proc.new (requests.OpenName fd name.now mode) result }
{
    let ask = Ask::Free { fd };
    if let Err(fault) = proc.deny(&ask) {
        return Err(refused(alloc, shelf, proc, CallName::OpenName, ask, fault));
    }
    let name = name.clone()?;
    granted(alloc, registry, shelf, proc, Grant::Find { fd, name, mode })
}

/// Makes an app object and holds it.
pub fn make_object<J: Whose>(
    alloc: Global,
    registry: &mut RegistryDesk<J>,
    shelf: &mut Shelf<J>,
    proc: &mut Proc<J>,
    fd: u8,
) -> Result<Moved, CallEnd>
    requires fd { fd < 64 }
    ensures call { Answers J.book.session J.places proc.old proc.new (requests.MakeObj fd) result }
    ensures made { IfMade result (λ pnode. IsMade J.book.session registry.old.seen registry.new.seen pnode kinds.App) }
{
    let ask = Ask::Free { fd };
    if let Err(fault) = proc.deny(&ask) {
        return Err(refused(alloc, shelf, proc, CallName::MakeObj, ask, fault));
    }
    let list = Vec::with_capacity(alloc, 1)?;
    granted(alloc, registry, shelf, proc, Grant::App { fd, list })
}

/// Holds an app object, which this session or an earlier one made. It takes no memory.
pub fn revive<J: Whose>(
    alloc: Global,
    registry: &mut RegistryDesk<J>,
    shelf: &mut Shelf<J>,
    proc: &mut Proc<J>,
    fd: u8,
    pnode: Pnode,
) -> Result<Moved, CallEnd>
    requires fd { fd < 64 }
    ensures call { Answers J.book.session J.places proc.old proc.new (requests.Revive fd pnode) result }
{
    let ask = Ask::Free { fd };
    if let Err(fault) = proc.deny(&ask) {
        return Err(refused(alloc, shelf, proc, CallName::Revive, ask, fault));
    }
    granted(alloc, registry, shelf, proc, Grant::Known { fd, pnode })
}

/// Makes a pipe, and holds one end for reading and the other for writing.
pub fn make_pipe<J: Whose>(
    alloc: Global,
    registry: &mut RegistryDesk<J>,
    shelf: &mut Shelf<J>,
    proc: &mut Proc<J>,
    reader: u8,
    writer: u8,
) -> Result<Moved, CallEnd>
    requires numbers { (reader < 64) × (writer < 64) }
    ensures call { Answers J.book.session J.places proc.old proc.new (requests.MakePipe reader writer) result }
    ensures made { IfMade result (λ pnode. IsMade J.book.session registry.old.seen registry.new.seen pnode kinds.Pipe) }
{
    let ask = Ask::FreeTwo {
        first: reader,
        second: writer,
    };
    if let Err(fault) = proc.deny(&ask) {
        return Err(refused(alloc, shelf, proc, CallName::MakePipe, ask, fault));
    }
    let list = Vec::with_capacity(alloc, 1)?;
    let grant = Grant::Pipe {
        reader,
        writer,
        list,
    };
    granted(alloc, registry, shelf, proc, grant)
}
