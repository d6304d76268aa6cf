//! The call by which a process runs a program.
ghost use Rattle.std.specs.Prelude.{◌≡◌, true};
ghost use Rattle.pass_entry.specs.Texts.{is_name};
ghost use Rattle.pass_plain.specs.declared.request.Request.TheVariants as requests;
ghost use Rattle.pass_answer.specs.Answers.{Answers};

use pass_answer::{CallEnd, Moved};
use pass_entry::Text;
use pass_flow::Versioned;
use pass_hold::Whose;
use pass_outside::Gate;
use pass_proc::Proc;
use pass_slots::{Locks, REGISTRY, Slot};
use std::alloc::Global;
use std::sync::Wait;

/// Runs the program that the file of a name has: the process begins a new version, which has nothing read.
pub fn exec<R: Wait, J: Whose, G: Gate>(
    locks: &Locks<'_, J, G>,
    rt: &R,
    alloc: Global,
    proc: &mut Proc<J>,
    name: &Text,
    args: &Text,
) -> Result<Moved, CallEnd>
    requires name { is_name name.now ≡ true }
    ensures call { Answers J.book.session J.places proc.old proc.new (requests.Exec name.now args.now) result }
{
    let (mut registry, slot) = locks.named(rt, alloc, name);
    locks.gate.inside(REGISTRY);
    let Some(mut slot) = slot else {
        let mut shelf = locks.book.lock(rt);
        return pass_calls::exec_unnamed(alloc, &mut registry, &mut shelf, proc, name, args);
    };
    match &mut *slot {
        Slot::File(file) => {
            locks.gate.inside(file.what());
            let mut shelf = locks.book.lock(rt);
            pass_calls::exec(alloc, &mut registry, file, &mut shelf, proc, name, args)
        }
        _ => unreachable!(),
    }
}
