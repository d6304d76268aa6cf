//! The chosen versions of an archive on a fresh one.
ghost use Rattle.std.specs.Prelude.{◌≡◌, ◌⊎◌, ◌↔◌, ◌≤◌, [], Err, IsErrOf, IfOk, IfErr, OnOk};
ghost use Rattle.pass_entry.specs.declared.objects.Node.{Node as AnyNode};
ghost use Rattle.pass_outside.specs.Moments.{IsDeviceWork};
ghost use Rattle.pass_leaf.specs.declared.fault.OldFault.{OldFault as AnyFault};
ghost use Rattle.pass_past.specs.Keepings.{HasKept, HasStopped};
ghost use Rattle.pass_prune.specs.Choices.{IsFirstLacking};
ghost use Rattle.pass_prune.specs.Keepings.{IsKeptIn, IsKeptOut, IsKeptOnto};
ghost use Rattle.pass_prune.specs.Openings.{IsUnopenedArchive};
ghost use Rattle.pass_prune.specs.Prunings.{chosen_of};
ghost use Rattle.pass_prune.specs.Results.{HasPruned, IsPartlyPruned, IsNotFresh};
ghost use Rattle.pass_prune.specs.Tables.{is_chosen_by};

use crate::PruneFault;
use crate::choosing::{Choice, choose, first_lacking};
use crate::laws::{goes_on, pruned};
use crate::walking::keep_chosen;
use pass_entry::Node;
use pass_leaf::{Leaves, Old, OldFault};
use pass_outside::Disk;
use pass_past::{finish, halt};
use pass_waldo::Index;
use std::alloc::Global;

/// How a pruning ended, and the fresh archive's disk.
#[derive(Drop)]
pub struct Pruned<F> {
    /// How many versions the fresh archive has.
    pub result: Result<u64, PruneFault>,
    pub fresh: F,
}

// No version was kept.
fn unpruned<F>(fault: PruneFault, fresh: F) -> Pruned<F>
    ensures result { result.result ≡ Err fault }
    ensures fresh { result.fresh ≡ fresh }
{
    Pruned {
        result: Err(fault),
        fresh,
    }
}

// Keeps the chosen versions in an archive that was just opened, and writes what it gathers.
fn keep_begun<F: Disk>(old: &mut Old<F>, alloc: Global, choice: &Choice) -> Result<(), OldFault>
    requires healthy { (F.view old.old.disk).faults ≤ old.old.opened }
    requires begun { old.old.gathered ≡ [] }
    ensures kept { OnOk result (HasKept F.view old.old (chosen_of (is_chosen_by choice.now) choice.now.leaves.now) old.new) }
    ensures stopped { IfErr result (HasStopped F.view old.old (chosen_of (is_chosen_by choice.now) choice.now.leaves.now) old.new) }
{
    if let Err(fault) = old.check() {
        return Err(fault);
    }
    if let Err(fault) = keep_chosen(old, alloc, choice) {
        return Err(halt(old, fault));
    }
    finish(old)
}

// The same, where the archive has no leaf yet. The answer has how many there are then.
fn keep_empty<F: Disk>(old: &mut Old<F>, alloc: Global, choice: &Choice) -> Result<u64, PruneFault>
    requires healthy { (F.view old.old.disk).faults ≤ old.old.opened }
    requires begun { old.old.gathered ≡ [] }
    ensures { IsKeptIn F.view (chosen_of (is_chosen_by choice.now) choice.now.leaves.now) old.old old.new result }
{
    if old.count() > 0 {
        return Err(PruneFault::NotFresh);
    }
    match keep_begun(old, alloc, choice) {
        Ok(()) => Ok(old.count()),
        Err(fault) => Err(PruneFault::Fresh(fault)),
    }
}

// The same, and hands out the disk.
fn keep_in<F: Disk>(alloc: Global, choice: &Choice, old: Old<F>) -> Pruned<F>
    requires healthy { (F.view old.disk).faults ≤ old.opened }
    requires begun { old.gathered ≡ [] }
    ensures { IsKeptOut F.view (chosen_of (is_chosen_by choice.now) choice.now.leaves.now) old result.fresh result.result }
{
    let mut old = old;
    let result = keep_empty(&mut old, alloc, choice);
    Pruned {
        result,
        fresh: old.into_disk(),
    }
}

// Opens the fresh archive, and keeps the chosen versions in it.
fn keep_onto<F: Disk>(alloc: Global, choice: &Choice, fresh: F) -> Pruned<F>
    ensures onto { IsKeptOnto F.view (chosen_of (is_chosen_by choice.now) choice.now.leaves.now) fresh result.fresh result.result }
    ensures work { IsDeviceWork (F.view fresh) (F.view result.fresh) (IsErrOf result.result (PruneFault.Fresh OldFault.DiskFault)) }
{
    match Old::open(alloc, fresh) {
        Ok(old) => keep_in(alloc, choice, old),
        Err((fault, fresh)) => unpruned(PruneFault::Fresh(fault), fresh),
    }
}

/// Keeps the chosen versions of an archive's leaves in a fresh archive, which may have none yet: the last version of each file, those
/// that the log tags with the attribute `keep`, the named ones, and all that these came from.
pub fn prune<F: Disk>(
    alloc: Global,
    index: &Index,
    leaves: &Leaves,
    named: &[Node],
    fresh: F,
) -> Pruned<F>
    // A chosen version has the same bytes in both archives, and no other is in the fresh one.
    ensures pruned { IfOk result.result (HasPruned F.view index.now named.now leaves.now fresh result.fresh) }
    ensures absent { (node : AnyNode) → (result.result ≡ Err (PruneFault.NoObject node)) ↔ IsFirstLacking index.now named.now node }
    // It has a leaf already, and nothing was written to it.
    ensures not_fresh { result.result ≡ Err PruneFault.NotFresh → IsNotFresh (F.view fresh) (F.view result.fresh) }
    // It didn't open; or some of the first chosen versions are in it, and then a fault came.
    ensures stopped { (fault : AnyFault) → result.result ≡ Err (PruneFault.Fresh fault)
        → IsUnopenedArchive (F.view fresh) (F.view result.fresh) fault ⊎ IsPartlyPruned F.view index.now named.now leaves.now fresh result.fresh fault }
    ensures untouched { (result.result ≡ Err PruneFault.NoMemory) ⊎ ((node : AnyNode) × (result.result ≡ Err (PruneFault.NoObject node))) → result.fresh ≡ fresh }
    // A call of its disk failed exactly where that is answered.
    ensures work { IsDeviceWork (F.view fresh) (F.view result.fresh) (IsErrOf result.result (PruneFault.Fresh OldFault.DiskFault)) }
{
    pruned();
    goes_on();
    if let Some(node) = first_lacking(index, named) {
        return unpruned(PruneFault::NoObject(node), fresh);
    }
    let _list = leaves.list();
    match choose(alloc, index, leaves, named) {
        Ok(choice) => keep_onto(alloc, &choice, fresh),
        Err(_refused) => unpruned(PruneFault::NoMemory, fresh),
    }
}
