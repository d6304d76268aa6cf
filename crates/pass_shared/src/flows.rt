//! The calls on any object with versions.
ghost use Rattle.std.specs.Prelude.{◌≡◌, ◌<◌, IsErrOf, true};
ghost use Rattle.pass_entry.specs.Texts.{is_name};
ghost use Rattle.pass_plain.specs.declared.request.Request.TheVariants as requests;
ghost use Rattle.pass_answer.specs.Answers.{Answers};
ghost use Rattle.pass_answer.specs.declared.answer.CallEnd.TheVariants as ends;

use pass_answer::{CallEnd, Moved, refused};
use pass_entry::{Ask, CallName, Text};
use pass_hold::Whose;
use pass_outside::Gate;
use pass_proc::Proc;
use pass_slots::{Locks, Slot, asked};
use std::alloc::Global;
use std::sync::Wait;

/// Begins a new version of an object. It takes no memory.
pub fn pass_freeze<R: Wait, J: Whose, G: Gate>(
    locks: &Locks<'_, J, G>,
    rt: &R,
    alloc: Global,
    proc: &mut Proc<J>,
    fd: u8,
) -> Result<Moved, CallEnd>
    requires fd { fd < 64 }
    ensures call { Answers J.book.session J.places proc.old proc.new (requests.FreezeObj fd) result }
    ensures memory { ¬ IsErrOf result ends.NoMemory }
{
    let ask = Ask::Held { fd };
    let d = match asked(proc, fd, &ask) {
        Ok(d) => d,
        Err(fault) => {
            let mut shelf = locks.book.lock(rt);
            return Err(refused(alloc, &mut shelf, proc, CallName::FreezeObj, ask, fault));
        }
    };
    let mut slot = locks.object(rt, alloc, &d);
    locks.gate.inside(d.pnode);
    let mut shelf = locks.book.lock(rt);
    match &mut *slot {
        Slot::File(file) => pass_calls::freeze(alloc, file, &mut shelf, proc, fd),
        Slot::Pipe(pipe) => pass_calls::freeze(alloc, pipe, &mut shelf, proc, fd),
        Slot::App(app) => pass_calls::freeze(alloc, app, &mut shelf, proc, fd),
        _ => unreachable!(),
    }
}

/// Gives an object's current version an attribute.
pub fn tag<R: Wait, J: Whose, G: Gate>(
    locks: &Locks<'_, J, G>,
    rt: &R,
    alloc: Global,
    proc: &mut Proc<J>,
    fd: u8,
    attr: &Text,
    value: &Text,
) -> Result<Moved, CallEnd>
    requires fd { fd < 64 }
    requires names { (is_name attr.now ≡ true) × (is_name value.now ≡ true) }
    ensures call { Answers J.book.session J.places proc.old proc.new (requests.TagObj fd attr.now value.now) result }
{
    let ask = Ask::Held { fd };
    let d = match asked(proc, fd, &ask) {
        Ok(d) => d,
        Err(fault) => {
            let mut shelf = locks.book.lock(rt);
            return Err(refused(alloc, &mut shelf, proc, CallName::TagObj, ask, fault));
        }
    };
    let mut slot = locks.object(rt, alloc, &d);
    locks.gate.inside(d.pnode);
    let mut shelf = locks.book.lock(rt);
    match &mut *slot {
        Slot::File(file) => pass_calls::tag(alloc, file, &mut shelf, proc, fd, attr, value),
        Slot::Pipe(pipe) => pass_calls::tag(alloc, pipe, &mut shelf, proc, fd, attr, value),
        Slot::App(app) => pass_calls::tag(alloc, app, &mut shelf, proc, fd, attr, value),
        _ => unreachable!(),
    }
}
