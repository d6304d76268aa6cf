//! The calls on names, and those that make objects.
ghost use Rattle.std.specs.Prelude.{◌≡◌, ◌<◌, true, false};
ghost use Rattle.pass_entry.specs.Texts.{is_name};
ghost use Rattle.pass_entry.specs.declared.objects.Mode.TheVariants as modes;
ghost use Rattle.pass_plain.specs.Processes.{same_mode};
ghost use Rattle.pass_plain.specs.declared.request.Request.TheVariants as requests;
ghost use Rattle.pass_answer.specs.Answers.{Answers};

use crate::call::Call;
use pass_answer::{CallEnd, Moved};
use pass_entry::{Mode, Pnode, Text};
use pass_hold::Whose;
use pass_outside::Gate;
use pass_pipe::PipeState;
use pass_proc::Proc;
use pass_slots::{Locks, REGISTRY};
use std::alloc::Global;
use std::sync::Wait;

/// The object that a call made.
fn made_by(answer: &Result<Moved, CallEnd>) -> Option<Pnode> {
    match answer {
        Ok(moved) => match moved {
            Moved::Made(pnode) => Some(*pnode),
            _ => None,
        },
        Err(_) => None,
    }
}

/// Makes a file under a name that no file has, and holds it open for reading and writing.
pub fn creat<R: Wait, J: Whose, G: Gate>(
    locks: &Locks<'_, J, G>,
    rt: &R,
    alloc: Global,
    proc: &mut Proc<J>,
    fd: u8,
    name: &Text,
) -> Result<Moved, CallEnd>
    requires fd { fd < 64 }
    requires name { is_name name.now ≡ true }
    ensures call { Answers J.book.session J.places proc.old proc.new (requests.Creat fd name.now) result }
{
    let mut registry = locks.registry.lock(rt);
    locks.gate.inside(REGISTRY);
    let mut shelf = locks.book.lock(rt);
    pass_calls::creat(alloc, &mut registry, &mut shelf, proc, fd, name)
}

/// Holds the file of a name open.
pub fn open_name<R: Wait, J: Whose, G: Gate>(
    locks: &Locks<'_, J, G>,
    rt: &R,
    alloc: Global,
    proc: &mut Proc<J>,
    fd: u8,
    name: &Text,
    mode: Mode,
) -> Result<Moved, CallEnd>
    requires fd { fd < 64 }
    requires name { is_name name.now ≡ true }
    requires mode { same_mode mode modes.App ≡ false }
    ensures call { Answers J.book.session J.places proc.old proc.new (requests.OpenName fd name.now mode) result }
{
    let mut registry = locks.registry.lock(rt);
    locks.gate.inside(REGISTRY);
    let mut shelf = locks.book.lock(rt);
    pass_calls::open_name(alloc, &mut registry, &mut shelf, proc, fd, name, mode)
}

/// Gives a file another name, which is taken from the file that had it.
pub fn rename<R: Wait, J: Whose, G: Gate>(
    locks: &Locks<'_, J, G>,
    rt: &R,
    alloc: Global,
    proc: &mut Proc<J>,
    from: &Text,
    to: &Text,
) -> Result<Moved, CallEnd>
    requires from { is_name from.now ≡ true }
    requires to { is_name to.now ≡ true }
    ensures call { Answers J.book.session J.places proc.old proc.new (requests.Rename from.now to.now) result }
{
    let mut registry = locks.registry.lock(rt);
    locks.gate.inside(REGISTRY);
    let mut shelf = locks.book.lock(rt);
    pass_calls::rename(alloc, &mut registry, &mut shelf, proc, from, to)
}

/// Takes a name from its file, which stays.
pub fn unlink<R: Wait, J: Whose, G: Gate>(
    locks: &Locks<'_, J, G>,
    rt: &R,
    alloc: Global,
    proc: &mut Proc<J>,
    name: &Text,
) -> Result<Moved, CallEnd>
    requires name { is_name name.now ≡ true }
    ensures call { Answers J.book.session J.places proc.old proc.new (requests.Unlink name.now) result }
{
    let mut registry = locks.registry.lock(rt);
    locks.gate.inside(REGISTRY);
    let mut shelf = locks.book.lock(rt);
    pass_calls::unlink(alloc, &mut registry, &mut shelf, proc, name)
}

impl<R: Wait, J: Whose, G: Gate> Call<'_, '_, R, J, G> {
    /// Lets the registry make a pipe, whose room for bytes is not laid yet.
    fn pipe_made(&self, proc: &mut Proc<J>, reader: u8, writer: u8) -> Result<Moved, CallEnd>
        requires numbers { (reader < 64) × (writer < 64) }
        ensures call { Answers J.book.session J.places proc.old proc.new (requests.MakePipe reader writer) result }
    {
        let mut registry = self.locks.registry.lock(self.rt);
        self.locks.gate.inside(REGISTRY);
        let mut shelf = self.locks.book.lock(self.rt);
        pass_calls::make_pipe(self.alloc, &mut registry, &mut shelf, proc, reader, writer)
    }
}

/// Makes a pipe, and holds one end for reading and the other for writing.
pub fn pipe<R: Wait, J: Whose, G: Gate>(
    locks: &Locks<'_, J, G>,
    rt: &R,
    alloc: Global,
    proc: &mut Proc<J>,
    reader: u8,
    writer: u8,
) -> Result<Moved, CallEnd>
    requires numbers { (reader < 64) × (writer < 64) }
    ensures call { Answers J.book.session J.places proc.old proc.new (requests.MakePipe reader writer) result }
{
    let state = PipeState::new(alloc)?;
    let answer = Call { locks, rt, alloc }.pipe_made(proc, reader, writer);
    // Nobody else has a descriptor of it yet.
    if let Some(pipe) = made_by(&answer) {
        locks.lay_pipe(rt, alloc, pipe, state);
    } else {
        drop(state);
    }
    answer
}

/// Makes an app object, and holds it.
pub fn pass_mkobj<R: Wait, J: Whose, G: Gate>(
    locks: &Locks<'_, J, G>,
    rt: &R,
    alloc: Global,
    proc: &mut Proc<J>,
    fd: u8,
) -> Result<Moved, CallEnd>
    requires fd { fd < 64 }
    ensures call { Answers J.book.session J.places proc.old proc.new (requests.MakeObj fd) result }
{
    let mut registry = locks.registry.lock(rt);
    locks.gate.inside(REGISTRY);
    let mut shelf = locks.book.lock(rt);
    pass_calls::make_object(alloc, &mut registry, &mut shelf, proc, fd)
}

/// Holds an app object that is there already.
pub fn pass_reviveobj<R: Wait, J: Whose, G: Gate>(
    locks: &Locks<'_, J, G>,
    rt: &R,
    alloc: Global,
    proc: &mut Proc<J>,
    fd: u8,
    pnode: Pnode,
) -> Result<Moved, CallEnd>
    requires fd { fd < 64 }
    ensures call { Answers J.book.session J.places proc.old proc.new (requests.Revive fd pnode) result }
{
    let mut registry = locks.registry.lock(rt);
    locks.gate.inside(REGISTRY);
    let mut shelf = locks.book.lock(rt);
    pass_calls::revive(alloc, &mut registry, &mut shelf, proc, fd, pnode)
}
