//! The call `disclose`, which holds two objects.
ghost use Rattle.std.specs.Prelude.{◌≡◌, ◌<◌, None, Some};
ghost use Rattle.std.specs.FinMap as finite_map;
ghost use Rattle.pass_entry.specs.declared.entry.Ask.TheVariants as ask;
ghost use Rattle.pass_entry.specs.declared.objects.Descriptor.{Descriptor as AnyDescriptor};
ghost use Rattle.pass_plain.specs.Processes.{refusal};
ghost use Rattle.pass_plain.specs.declared.request.Request.TheVariants as requests;
ghost use Rattle.pass_answer.specs.Answers.{Answers};
ghost use Rattle.pass_slots.specs.Slots.{HasObject};

use crate::call::Call;
use pass_answer::{CallEnd, Moved, refused};
use pass_entry::{Ask, CallName, Descriptor};
use pass_flow::Versioned;
use pass_hold::Whose;
use pass_outside::Gate;
use pass_proc::Proc;
use pass_slots::{Locks, Slot, asked};
use std::alloc::Global;
use std::sync::Wait;

impl<R: Wait, J: Whose, G: Gate> Call<'_, '_, R, J, G> {
    /// Lets the object that lies in a slot take from another one.
    fn told<S: Versioned<J>>(
        &self,
        source: &mut S,
        target: &mut Slot<J>,
        proc: &mut Proc<J>,
        fd: u8,
        source_fd: u8,
    ) -> Result<Moved, CallEnd>
        requires fds { (fd < 64) × (source_fd < 64) }
        requires free { refusal proc.old.state (ask.HeldTwo fd source_fd) ≡ None }
        requires source { (d : AnyDescriptor) → finite_map.get proc.old.state.descriptors source_fd ≡ Some d → (S.object source.old).what ≡ d.pnode }
        requires target { (d : AnyDescriptor) × (finite_map.get proc.old.state.descriptors fd ≡ Some d) × HasObject target.old d }
        ensures call { Answers J.book.session J.places proc.old proc.new (requests.Disclose fd source_fd) result }
    {
        let alloc = self.alloc;
        let shelf = &mut self.locks.book.lock(self.rt);
        match target {
            Slot::File(file) => pass_calls::disclose(
                alloc, source, file, shelf, proc, fd, source_fd,
            ),
            Slot::Pipe(pipe) => pass_calls::disclose(
                alloc, source, pipe, shelf, proc, fd, source_fd,
            ),
            Slot::App(app) => pass_calls::disclose(alloc, source, app, shelf, proc, fd, source_fd),
            _ => unreachable!(),
        }
    }

    /// Discloses an object to itself.
    fn disclose_one(
        &self,
        proc: &mut Proc<J>,
        fd: u8,
        source: u8,
        d: &Descriptor,
    ) -> Result<Moved, CallEnd>
        requires fds { (fd < 64) × (source < 64) }
        requires free { refusal proc.old.state (ask.HeldTwo fd source) ≡ None }
        requires target { finite_map.get proc.old.state.descriptors fd ≡ Some d.now }
        requires source { (s : AnyDescriptor) → finite_map.get proc.old.state.descriptors source ≡ Some s → s.pnode ≡ d.now.pnode }
        ensures call { Answers J.book.session J.places proc.old proc.new (requests.Disclose fd source) result }
    {
        let alloc = self.alloc;
        let mut slot = self.locks.object(self.rt, alloc, d);
        self.locks.gate.inside(d.pnode);
        let mut shelf = self.locks.book.lock(self.rt);
        match &mut *slot {
            Slot::File(file) => pass_calls::disclose_itself(
                alloc, file, &mut shelf, proc, fd, source,
            ),
            Slot::Pipe(pipe) => pass_calls::disclose_itself(
                alloc, pipe, &mut shelf, proc, fd, source,
            ),
            Slot::App(app) => pass_calls::disclose_itself(alloc, app, &mut shelf, proc, fd, source),
            _ => unreachable!(),
        }
    }

    /// Discloses one object to another.
    fn disclose_two(
        &self,
        proc: &mut Proc<J>,
        fd: u8,
        source: u8,
        d: &Descriptor,
        s: &Descriptor,
    ) -> Result<Moved, CallEnd>
        requires fds { (fd < 64) × (source < 64) }
        requires free { refusal proc.old.state (ask.HeldTwo fd source) ≡ None }
        requires target { finite_map.get proc.old.state.descriptors fd ≡ Some d.now }
        requires source { finite_map.get proc.old.state.descriptors source ≡ Some s.now }
        ensures call { Answers J.book.session J.places proc.old proc.new (requests.Disclose fd source) result }
    {
        let (mut target, mut given) = self.locks.two(self.rt, self.alloc, d, s);
        self.locks.gate.inside(s.pnode);
        self.locks.gate.inside(d.pnode);
        match &mut *given {
            Slot::File(file) => self.told(file, &mut target, proc, fd, source),
            Slot::Pipe(pipe) => self.told(pipe, &mut target, proc, fd, source),
            Slot::App(app) => self.told(app, &mut target, proc, fd, source),
            _ => unreachable!(),
        }
    }
}

#[tactic(auto, using(crate::proofs::Refusals::second_held))]
/// Records that one object's content flowed into another outside of the store: what `fd` stands for takes from what `source` does.
pub fn disclose<R: Wait, J: Whose, G: Gate>(
    locks: &Locks<'_, J, G>,
    rt: &R,
    alloc: Global,
    proc: &mut Proc<J>,
    fd: u8,
    source: u8,
) -> Result<Moved, CallEnd>
    requires fds { (fd < 64) × (source < 64) }
    ensures call { Answers J.book.session J.places proc.old proc.new (requests.Disclose fd source) result }
{
    let ask = Ask::HeldTwo {
        first: fd,
        second: source,
    };
    let d = match asked(proc, fd, &ask) {
        Ok(d) => d,
        Err(fault) => {
            let mut shelf = locks.book.lock(rt);
            return Err(refused(alloc, &mut shelf, proc, CallName::Disclose, ask, fault));
        }
    };
    let Some(s) = proc.descriptor(source) else {
        unreachable!()
    };
    let call = Call { locks, rt, alloc };
    if d.pnode == s.pnode {
        call.disclose_one(proc, fd, source, &d)
    } else {
        call.disclose_two(proc, fd, source, &d, &s)
    }
}
