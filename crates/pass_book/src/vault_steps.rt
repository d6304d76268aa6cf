//! The steps on the seat of the vault.
ghost use Rattle.std.specs.Prelude.{◌≡◌, ◌≤◌, [], ◌∷◌, length, None, Some};
ghost use Rattle.pass_plain.specs.Legal.{IsLegal};
ghost use Rattle.pass_book.specs.declared.view.Role.TheVariants.{Desk, Vault};
ghost use Rattle.pass_book.specs.Names.{name, Among};
ghost use Rattle.pass_book.specs.Numbers.{IsFileNumber};
ghost use Rattle.pass_book.specs.Syncs.{durable, called, staged_as};
ghost use Rattle.pass_book.specs.Tokens as tokens;
ghost use Rattle.pass_book.specs.Views as views;

use crate::rule::{Lends, Naming, Noting, Returns, Syncing, Takes};
use crate::steps::{Desks, Place, hear, note};
use pass_entry::Bytes;
use std::marker::Brand;
use std::snapshot::Snapshot;

// The vault notes a sync: word 1 becomes its number of entries.
fn note_sync<Y: Syncing>(table: &Desks, vault: &mut Place, entries: u64)
    requires at { tokens.At (name Vault 0) table.now.table_id vault.old.table_id vault.old.me.0 }
    requires number { Y.sync.entries ≡ entries }
    requires calls { called vault.old.me.0.syncs ≤ Y.sync.calls }
    requires entries { (durable vault.old.me.0.syncs ≤ entries) × (entries ≤ length vault.old.me.0.seen) }
    requires file { (f : _) → Y.sync.file ≡ Some f → Among (name Desk f.pnode) vault.old.me.0.away × IsFileNumber (views.session_in vault.old.me.0.opened) vault.old.me.0.seen f.pnode f.number }
    ensures { (vault.new.table_id ≡ vault.old.table_id) × (vault.new.me ≡ (views.syncing Y.sync vault.old.me.0, vault.old.me.1)) }
{
    table.fetch_max::<Noting<Y>>(vault, 1, entries);
}

fn note_calls<Y: Syncing>(table: &Desks, vault: &mut Place, calls: u64, entries: u64)
    requires at { tokens.At (name Vault 0) table.now.table_id vault.old.table_id vault.old.me.0 }
    requires sync { Y.sync ≡ record { calls = calls; entries = entries; file = None; staged = None } }
    requires calls { called vault.old.me.0.syncs ≤ calls }
    requires entries { (durable vault.old.me.0.syncs ≤ entries) × (entries ≤ length vault.old.me.0.seen) }
    ensures { (vault.new.table_id ≡ vault.old.table_id) × (vault.new.me ≡ (views.syncing (record { calls = calls; entries = entries; file = None; staged = None }) vault.old.me.0, vault.old.me.1)) }
{
    let _ = calls;
    note_sync::<Y>(table, vault, entries)
}

/// The vault notes that so many entries are durable.
pub(crate) fn note_flush(table: &Desks, vault: &mut Place, calls: u64, entries: u64)
    requires at { tokens.At (name Vault 0) table.now.table_id vault.old.table_id vault.old.me.0 }
    requires calls { called vault.old.me.0.syncs ≤ calls }
    requires entries { (durable vault.old.me.0.syncs ≤ entries) × (entries ≤ length vault.old.me.0.seen) }
    ensures { (vault.new.table_id ≡ vault.old.table_id) × (vault.new.me ≡ (views.syncing (record { calls = calls; entries = entries; file = None; staged = None }) vault.old.me.0, vault.old.me.1)) }
{
    note_calls::<Brand>(table, vault, calls, entries)
}

fn note_data<Y: Syncing>(
    table: &Desks,
    vault: &mut Place,
    desk: &Snapshot<Place>,
    number: u32,
    waits: bool,
    blocks: &[(u32, Bytes)],
    calls: u64,
    entries: u64,
)
    requires at { tokens.At (name Vault 0) table.now.table_id vault.old.table_id vault.old.me.0 }
    requires sync { Y.sync ≡ record { calls = calls; entries = entries; file = Some (record { pnode = desk.now.value.me.0.name.number; number = number }); staged = staged_as waits blocks.now } }
    requires calls { called vault.old.me.0.syncs ≤ calls }
    requires entries { (durable vault.old.me.0.syncs ≤ entries) × (entries ≤ length vault.old.me.0.seen) }
    requires desk { Among (name Desk desk.now.value.me.0.name.number) vault.old.me.0.away }
    requires number { IsFileNumber (views.session_in vault.old.me.0.opened) vault.old.me.0.seen desk.now.value.me.0.name.number number }
    ensures { (vault.new.table_id ≡ vault.old.table_id) × (vault.new.me ≡ (views.syncing (record { calls = calls; entries = entries; file = Some (record { pnode = desk.now.value.me.0.name.number; number = number }); staged = staged_as waits blocks.now }) vault.old.me.0, vault.old.me.1)) }
{
    let _ = desk;
    let _ = blocks;
    let _ = (number, waits, calls);
    note_sync::<Y>(table, vault, entries)
}

/// The vault notes a sync of the file whose desk it has, or a staging of these blocks.
pub(crate) fn note_file(
    table: &Desks,
    vault: &mut Place,
    desk: &Snapshot<Place>,
    number: u32,
    waits: bool,
    blocks: &[(u32, Bytes)],
    calls: u64,
    entries: u64,
)
    requires at { tokens.At (name Vault 0) table.now.table_id vault.old.table_id vault.old.me.0 }
    requires past { tokens.IsVaultPast (views.session_in vault.old.me.0.opened) vault.old.me.0.seen vault.old.me.0.syncs }
    requires calls { called vault.old.me.0.syncs ≤ calls }
    requires entries { (durable vault.old.me.0.syncs ≤ entries) × (entries ≤ length vault.old.me.0.seen) }
    requires desk { Among (name Desk desk.now.value.me.0.name.number) vault.old.me.0.away }
    requires number { IsFileNumber (views.session_in vault.old.me.0.opened) vault.old.me.0.seen desk.now.value.me.0.name.number number }
    ensures vault { (vault.new.table_id ≡ vault.old.table_id) × (vault.new.me ≡ (views.syncing (record { calls = calls; entries = entries; file = Some (record { pnode = desk.now.value.me.0.name.number; number = number }); staged = staged_as waits blocks.now }) vault.old.me.0, vault.old.me.1)) }
    ensures past { tokens.IsVaultPast (views.session_in vault.new.me.0.opened) vault.new.me.0.seen vault.new.me.0.syncs }
{
    note_data::<Brand>(table, vault, desk, number, waits, blocks, calls, entries)
}

// A desk goes to the vault, which then has seen what the desk had seen.
fn lend(table: &Desks, vault: &mut Place, desk: Place)
    requires at { tokens.At (name Vault 0) table.now.table_id vault.old.table_id vault.old.me.0 }
    requires same { desk.table_id ≡ table.now.table_id }
    requires desk { (desk.me.0.name.role ≡ Desk) × (desk.me.1 ≡ []) }
    requires quiet { vault.old.me.0.told ≡ [] }
    ensures vault { (vault.new.table_id ≡ vault.old.table_id) × (vault.new.me ≡ (views.met (views.lending vault.old.me.0 desk.me.0), vault.old.me.1)) }
    ensures met { views.IsMet (views.lending vault.old.me.0 desk.me.0) (views.met (views.lending vault.old.me.0 desk.me.0)) }
{
    table.join_seat::<Lends>(vault, desk);
    table.load::<Takes>(vault, 0);
}

/// A desk meets what the vault has seen and goes to the vault, which then has seen as much.
pub(crate) fn take_desk(table: &Desks, vault: &mut Place, mut desk: Place)
    requires at { tokens.At (name Vault 0) table.now.table_id vault.old.table_id vault.old.me.0 }
    requires same { desk.table_id ≡ table.now.table_id }
    requires desk { (desk.me.0.name ≡ name Desk desk.me.0.name.number) × (desk.me.0.told ≡ []) × (desk.me.0.claimed ≡ 0) × (desk.me.1 ≡ []) }
    requires past { tokens.IsVaultPast (views.session_in vault.old.me.0.opened) vault.old.me.0.seen vault.old.me.0.syncs }
    requires legal { IsLegal (views.session_in vault.old.me.0.opened) desk.me.0.seen }
    requires quiet { vault.old.me.0.told ≡ [] }
    ensures at { tokens.At (name Vault 0) table.now.table_id vault.new.table_id vault.new.me.0 }
    ensures same { (vault.new.me.0.opened ≡ vault.old.me.0.opened) × (vault.new.me.0.syncs ≡ vault.old.me.0.syncs) × (vault.new.me.0.told ≡ []) × (vault.new.me.0.told_syncs ≡ []) × (vault.new.me.1 ≡ vault.old.me.1) }
    ensures away { vault.new.me.0.away ≡ name Desk desk.me.0.name.number ∷ vault.old.me.0.away }
    ensures met { tokens.HasMet desk.me.0.name desk.me.0.seen desk.me.0.syncs vault.old.me.0.seen vault.old.me.0.syncs vault.new.me.0.seen vault.new.me.0.syncs }
    ensures past { tokens.IsVaultPast (views.session_in vault.new.me.0.opened) vault.new.me.0.seen vault.new.me.0.syncs }
{
    let news = note(table, vault);
    hear(table, &mut desk, news);
    lend(table, vault, desk);
}

fn give<N: Naming>(table: &Desks, vault: &mut Place) -> Place
    requires at { tokens.At (name Vault 0) table.now.table_id vault.old.table_id vault.old.me.0 }
    requires desk { Among (name Desk N.number) vault.old.me.0.away }
    requires quiet { vault.old.me.0.told ≡ [] }
    ensures vault { (vault.new.table_id ≡ vault.old.table_id) × (vault.new.me ≡ (views.returning (name Desk N.number) vault.old.me.0, vault.old.me.1)) }
    ensures desk { (result.table_id ≡ vault.old.table_id) × (result.me ≡ (views.returned (name Desk N.number) vault.old.me.0, [])) }
{
    table.split_seat::<Returns<N>>(vault)
}

fn give_named<N: Naming>(table: &Desks, vault: &mut Place, desk: &Snapshot<Place>) -> Place
    requires at { tokens.At (name Vault 0) table.now.table_id vault.old.table_id vault.old.me.0 }
    requires named { N.number ≡ desk.now.value.me.0.name.number }
    requires desk { Among (name Desk desk.now.value.me.0.name.number) vault.old.me.0.away }
    requires quiet { vault.old.me.0.told ≡ [] }
    ensures vault { (vault.new.table_id ≡ vault.old.table_id) × (vault.new.me ≡ (views.returning (name Desk desk.now.value.me.0.name.number) vault.old.me.0, vault.old.me.1)) }
    ensures desk { (result.table_id ≡ vault.old.table_id) × (result.me ≡ (views.returned (name Desk desk.now.value.me.0.name.number) vault.old.me.0, [])) }
{
    let _ = desk;
    give::<N>(table, vault)
}

/// A desk leaves the vault, with what the vault has seen.
pub(crate) fn give_desk(table: &Desks, vault: &mut Place, desk: &Snapshot<Place>) -> Place
    requires at { tokens.At (name Vault 0) table.now.table_id vault.old.table_id vault.old.me.0 }
    requires desk { Among (name Desk desk.now.value.me.0.name.number) vault.old.me.0.away }
    requires quiet { vault.old.me.0.told ≡ [] }
    ensures vault { (vault.new.table_id ≡ vault.old.table_id) × (vault.new.me ≡ (views.returning (name Desk desk.now.value.me.0.name.number) vault.old.me.0, vault.old.me.1)) }
    ensures desk { (result.table_id ≡ vault.old.table_id) × (result.me ≡ (views.returned (name Desk desk.now.value.me.0.name.number) vault.old.me.0, [])) }
{
    give_named::<Brand>(table, vault, desk)
}
