//! The end of a store.
ghost use Rattle.std.specs.Prelude.{◌≡◌, ◌<◌, [], ℕ, false, IfErr, IfOk, OnOk, length};
ghost use Rattle.std.specs.List.{All};
ghost use Rattle.pass_entry.specs.Limits.{block_count};
ghost use Rattle.pass_plain.specs.Legal.{IsLegal};
ghost use Rattle.pass_plain.specs.Sound.{IsSound};
ghost use Rattle.pass_book.specs.Syncs.{IsBacked};
ghost use Rattle.pass_clean.specs.Cleaned.{is_dirty};
ghost use Rattle.pass_vault.specs.Vaulted.{real_syncs};
ghost use Rattle.pass_vault.specs.declared.vault.Receipt.{Receipt as AnyReceipt};
ghost use Rattle.pass_safe.specs.Settled.{EndsWith};
ghost use Rattle.pass_store.specs.Closings.{IsClosed, IsSettled, IsTold, IsUnsettled, story_at};
ghost use Rattle.pass_safe.specs.Grounds.{HasGoneOn, ground_of};

use crate::settling::{Rest, settle_all, unsettled};
use crate::store::Store;
use pass_answer::CallEnd;
use pass_entry::{Entry, Record, Synced};
use pass_hold::{Shelf, Whose};
use pass_kept::answered;
use pass_outside::{Disk, Gate};
use pass_plain::Start;
use pass_proc::Trail;
use pass_safe::Opening;
use pass_slots::Locks;
use pass_vault::{Receipt, Vault};
use std::alloc::Global;

/// What is left of a store that was closed.
#[derive(Drop)]
pub struct Closed<D> {
    /// Every entry of the session, oldest first.
    pub history: Vec<Entry>,
    /// The syncs of the session, oldest first.
    pub syncs: Vec<Synced>,
    /// The records of the opening.
    pub list: Vec<Record>,
    /// What the session began with; its files have their sizes and rows, and no bytes.
    pub start: Start,
    pub disk: D,
}

/// What is left of a store that was settled and closed.
#[derive(Drop)]
pub struct Finished<D> {
    /// How settling went: the last sync's numbers, or why not everything is durable.
    pub settled: Result<Receipt, CallEnd>,
    pub closed: Closed<D>,
}

/// Takes the disk and its syncs out of a vault that has seen the whole history.
fn close<J: Opening, D: Disk>(
    history: Vec<Entry>,
    vault: Vault<D>,
    list: Vec<Record>,
    start: Start,
) -> Closed<D>
    requires whole { vault.seen ≡ history.items }
    requires book { vault.book ≡ J.book }
    requires ground { ground_of vault ≡ J.ground }
    requires backed { IsBacked J.book.session history.items vault.syncs }
    ensures history { result.history.items ≡ history.items }
    ensures list { result.list ≡ list }
    ensures start { result.start ≡ start }
    ensures disk { result.disk ≡ vault.disk }
    ensures closed { IsClosed (story_at J.book J.ground result.history.items) J.ground.ready (D.view result.disk) result.syncs.items }
    ensures settled { (r : AnyReceipt) → EndsWith r.calls r.entries (real_syncs vault.syncs) → r.entries ≡ length history.items → (vault.pool.entries ≡ []) × (vault.unsynced ≡ false)
        → ((file block : ℕ) → block < block_count → is_dirty J.book.session history.items vault.syncs file block ≡ false)
        → IsSettled (story_at J.book J.ground result.history.items) (D.view result.disk) result.syncs.items r }
{
    vault.images();
    vault.durable();
    let (disk, syncs) = vault.into_disk();
    Closed {
        history,
        syncs,
        list,
        start,
        disk,
    }
}

/// A trail sees the whole history.
fn tell<J: Whose>(shelf: &mut Shelf<J>, trail: Trail<J>)
    ensures shelf { shelf.new ≡ record shelf.old { syncs = shelf.new.syncs } }
    ensures told { IsTold shelf.old.history trail }
{
    let mut trail = trail;
    trail.look(shelf);
    drop(trail);
}

/// Each trail sees the whole history.
fn tell_all<J: Whose>(shelf: &mut Shelf<J>, trails: Vec<Trail<J>>)
    ensures shelf { shelf.new ≡ record shelf.old { syncs = shelf.new.syncs } }
    ensures told { All (IsTold shelf.old.history) trails.items }
{
    for trail in trails {
        tell(shelf, trail);
    }
}

impl<'g, J: Opening, D: Disk, G: Gate> Store<'g, J, D, G> {
    /// Closes the store. It makes no device call and takes no memory. No program here makes this call: a run ends by `finish`, which settles
    /// first.
    pub fn end(self) -> Closed<D>
        ensures sound { IsSound J.book.session }
        ensures legal { IsLegal J.book.session result.history.items }
        ensures list { result.list ≡ self.entry.list }
        ensures start { result.start ≡ self.entry.start }
        ensures closed { IsClosed (story_at J.book J.ground result.history.items) J.ground.ready (D.view result.disk) result.syncs.items }
        ensures gone_on { HasGoneOn J.tells J.ground.opened (D.view result.disk) }
    {
        let Store {
            start,
            list,
            locks,
            vault,
            ..
        } = self;
        let Locks {
            slots,
            opened: places,
            registry,
            book,
            changed,
            ..
        } = locks;
        drop(slots);
        drop(places);
        drop(changed);
        let registry = registry.into_inner();
        let shelf = book.into_inner();
        let safe = vault.into_inner();
        let (history, vault) = unsettled(registry, shelf, safe);
        close::<J, D>(history, vault, list, start)
    }

    /// Makes every entry durable, writes each block that the disk lacks, and closes the store, whatever came of it. The trails
    /// are of this store: what they had seen begins its history.
    pub fn finish(self, alloc: Global, trails: Vec<Trail<J>>) -> Finished<D>
        ensures sound { IsSound J.book.session }
        ensures legal { IsLegal J.book.session result.closed.history.items }
        ensures list { result.closed.list ≡ self.entry.list }
        ensures start { result.closed.start ≡ self.entry.start }
        ensures closed { IsClosed (story_at J.book J.ground result.closed.history.items) J.ground.ready (D.view result.closed.disk) result.closed.syncs.items }
        ensures trails { All (IsTold result.closed.history.items) trails.items }
        // The last sync has every entry, and no block that the session changed is unmatched from then on.
        ensures settled { IfOk result.settled (IsSettled (story_at J.book J.ground result.closed.history.items) (D.view result.closed.disk) result.closed.syncs.items) }
        // But for want of memory, any fault of the disk is told.
        ensures healthy { OnOk result.settled ((D.view result.closed.disk).faults ≡ J.ground.opened) }
        ensures refused { IfErr result.settled (IsUnsettled J.ground.opened (D.view result.closed.disk)) }
        ensures gone_on { HasGoneOn J.tells J.ground.opened (D.view result.closed.disk) }
    {
        let Store {
            start,
            list,
            locks,
            vault,
            ..
        } = self;
        let Locks {
            slots,
            opened: places,
            registry,
            book,
            changed,
            ..
        } = locks;
        drop(places);
        drop(changed);
        let mut shelf = book.into_inner();
        tell_all(&mut shelf, trails);
        let registry = registry.into_inner();
        let safe = vault.into_inner();
        let Rest {
            settled,
            history,
            vault,
        } = settle_all(alloc, slots, registry, shelf, safe);
        Finished {
            settled: answered(settled),
            closed: close::<J, D>(history, vault, list, start),
        }
    }
}
