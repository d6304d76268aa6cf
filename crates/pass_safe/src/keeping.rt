//! The first entry of a sync.
ghost use Rattle.std.specs.Prelude.{◌≡◌, ◌+◌, ◌-◌, ◌<◌, ◌≤◌, ◌^◌, None, Some, Err, IfOk, IfErr, length};
ghost use Rattle.std.specs.FinMap as finite_map;
ghost use Rattle.pass_entry.specs.declared.entry.Ask.TheVariants as ask;
ghost use Rattle.pass_entry.specs.declared.objects.Descriptor.{Descriptor as AnyDescriptor};
ghost use Rattle.pass_plain.specs.Processes.{refusal};
ghost use Rattle.pass_hold.specs.Callings.{IsIdle};
ghost use Rattle.pass_hold.specs.Places.{HasRoom};
ghost use Rattle.pass_safe.specs.Syncings.{HasKept, IsKeeping, IsNoDiskFault};
ghost use Rattle.pass_answer.specs.Syncs.{SyncAnswers};

use pass_answer::CallEnd;
use pass_entry::{Ask, CallFault, CallName};
use pass_flow::{Versioned, acts};
use pass_hold::{Caller, Shelf, Whose};
use pass_proc::{Proc, ProcessDesk, refuse};
use std::alloc::Global;
use std::marker::Model;
use std::snapshot::Snapshot;

/// A sync whose first entry stands: the process as it was before, the descriptor of the object, and the entry's place.
#[derive(Drop)]
pub struct Keeping<J: Whose> {
    before: Snapshot<Proc<J>>,
    pub(crate) fd: u8,
    pub(crate) place: u64,
}

impl<J: Whose> Model for Keeping<J> {
    ghost use Rattle.std.specs.Coded.{codes, coded_ℕ};
    ghost use Rattle.std.specs.Ordering.{nat_cmp};
    ghost use Rattle.std.specs.FinMap as finite_map;
    ghost use Rattle.std.specs.FinSet as finite_set;
    ghost use Rattle.pass_entry.specs.contracts.entry.Entry as entry_type;
    ghost use Rattle.pass_entry.specs.contracts.objects.Descriptor as descriptor_type;
    ghost use Rattle.pass_safe.specs.Syncings.{KeepingView};

    ghost Value = { KeepingView };

    ghost coded = { Prim.hlevel (codes, entry_type.the_row.coded, descriptor_type.the_row.coded, finite_map.code {R = nat_cmp} coded_ℕ descriptor_type.the_row.coded, finite_set.code {R = nat_cmp} coded_ℕ) };

    ghost view = { λ k. record { before = k.before.value; fd = k.fd; place = k.place } };
}

/// Makes the first entry of a sync, and answers its place.
fn keep_step<J: Whose, V: Versioned<J>>(
    alloc: Global,
    object: &mut V,
    shelf: &mut Shelf<J>,
    caller: &mut Caller<J>,
    process: &ProcessDesk<J>,
    number: u64,
    fd: u8,
) -> u64
    requires fd { fd < 64 }
    requires places { HasRoom shelf.old caller.old.held 3 }
    requires who { caller.old.who ≡ process.now.who }
    requires free { refusal process.now.state (ask.Held fd) ≡ None }
    requires object { (d : AnyDescriptor) → finite_map.get process.now.state.descriptors fd ≡ Some d → (V.object object.old).what ≡ d.pnode }
    requires idle { IsIdle J.book.session caller.old.seen process.now.who (number - 1) process.now.state }
    requires number { 0 < number }
    ensures kept { IsKeeping J.book.session process.now.who number caller.old.seen caller.new.seen fd (V.object object.old).what process.now.state result }
    ensures idle { IsIdle J.book.session caller.new.seen process.now.who number process.now.state }
    ensures place { result + 1 ≡ length caller.new.seen }
    ensures object { V.object object.new ≡ record (V.object object.old) { seen = caller.new.seen; syncs = caller.new.syncs } }
    ensures who { caller.new.who ≡ caller.old.who }
    ensures own { caller.new.own ≡ caller.old.own }
    ensures few { length caller.new.seen ≤ 2 ^ 32 }
{
    let (place, _node) = acts::keep(object, alloc, shelf, caller, process.pnode(), number);
    place
}

/// Makes the first entry of a sync of a held file, pipe or app object. It takes no memory.
pub fn keep<J: Whose, V: Versioned<J>>(
    alloc: Global,
    object: &mut V,
    shelf: &mut Shelf<J>,
    proc: &mut Proc<J>,
    fd: u8,
) -> Result<Keeping<J>, CallEnd>
    requires fd { fd < 64 }
    requires free { refusal proc.old.state (ask.Held fd) ≡ None }
    requires object { (d : AnyDescriptor) → finite_map.get proc.old.state.descriptors fd ≡ Some d → (V.object object.old).what ≡ d.pnode }
    ensures kept { IfOk result (λ k. HasKept J.book.session k proc.new (V.object object.old).what) }
    ensures call { IfOk result (λ k. (k.before ≡ proc.old) × (k.fd ≡ fd) × (k.place + 1 ≡ length proc.new.seen)) }
    ensures object { IfOk result (λ k. V.object object.new ≡ record (V.object object.old) { seen = proc.new.seen; syncs = proc.new.syncs }) }
    ensures full { IfErr result (λ e. SyncAnswers J.book.session J.places proc.old proc.new fd (Err e)) }
    ensures untouched { IfErr result (λ e. object.new ≡ object.old) }
    ensures no_disk { IfErr result IsNoDiskFault }
{
    let before = Snapshot::of(&*proc);
    if let Err(full) = proc.caller.room(shelf, 3) {
        return Err(CallEnd::from(full));
    }
    let number = proc.number + 1;
    let place = keep_step(
        alloc,
        object,
        shelf,
        &mut proc.caller,
        &proc.process,
        number,
        fd,
    );
    proc.number = number;
    proc.way = None;
    Ok(Keeping { before, fd, place })
}

/// Refuses a sync whose process has this fault for its descriptor. It takes no memory.
pub fn refused_sync<J: Whose>(
    alloc: Global,
    shelf: &mut Shelf<J>,
    proc: &mut Proc<J>,
    fd: u8,
    fault: CallFault,
) -> CallEnd
    requires fd { fd < 64 }
    requires refused { refusal proc.old.state (ask.Held fd) ≡ Some fault }
    ensures call { SyncAnswers J.book.session J.places proc.old proc.new fd (Err result) }
    ensures no_disk { IsNoDiskFault result }
{
    match refuse(alloc, shelf, proc, CallName::Sync, Ask::Held { fd }, fault) {
        Ok(()) => CallEnd::from(fault),
        Err(full) => CallEnd::from(full),
    }
}
