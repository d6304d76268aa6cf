//! What a crash keeps of a disk in memory.
ghost use Rattle.std.specs.Prelude.{◌≡◌, ◌-◌, ◌++◌, length, take, replicate, IfOk, OnOk};
ghost use Rattle.pass_outside.specs.Areas.{area_of, with_area, written};
ghost use Rattle.pass_outside.specs.Keeping.{kept_change, kept_all, is_sync, syncs_of, pick};

use crate::Area;
use crate::areas::Areas;
use crate::change::{Change, Event};
use std::alloc::{AllocError, Global};

/// What a crash leaves of the changes since the last sync of their area.
#[derive(Clone, Copy, PartialEq, Eq)]
pub enum Keep {
    /// Nothing: the area stays as it was last synced.
    Old,
    /// All: the area stays as it was written.
    New,
    /// This byte, wherever they leave any bytes.
    Fill(u8),
}

fn filled(alloc: Global, count: usize, byte: u8) -> Result<Vec<u8>, AllocError>
    ensures { IfOk result (λ v. v.items ≡ replicate count byte) }
{
    let mut bytes = Vec::new(alloc);
    bytes.resize(count, byte)?;
    Ok(bytes)
}

// Writes that byte over the range of a write.
fn fill_write(
    alloc: Global,
    areas: &mut Areas,
    area: Area,
    at: u64,
    count: usize,
    byte: u8,
) -> Result<(), AllocError>
    ensures { OnOk result (areas.new ≡ with_area area (written (area_of area areas.old) at (replicate count byte)) areas.old) }
{
    let fill = filled(alloc, count, byte)?;
    areas.write(alloc, area, at, &fill)
}

// Writes that byte over what a cut takes away.
fn fill_cut(
    alloc: Global,
    areas: &mut Areas,
    area: Area,
    len: u64,
    byte: u8,
) -> Result<(), AllocError>
    ensures { OnOk result (areas.new ≡ with_area area (take len (area_of area areas.old) ++ replicate (length (area_of area areas.old) - len) byte) areas.old) }
{
    let old = areas.len(area) as u64;
    if old <= len {
        return Ok(());
    }
    fill_write(alloc, areas, area, len, (old - len) as usize, byte)
}

fn keep_change(
    alloc: Global,
    areas: &mut Areas,
    area: Area,
    change: &Change,
    keep: Keep,
) -> Result<(), AllocError>
    ensures { OnOk result (areas.new ≡ with_area area (kept_change keep change.now (area_of area areas.old)) areas.old) }
{
    match (keep, change) {
        (Keep::Old, _) => Ok(()),
        (_, Change::Synced) => Ok(()),
        (Keep::New, Change::Wrote { at, bytes }) => areas.write(alloc, area, *at, bytes),
        (Keep::New, Change::Cut { len }) => {
            areas.cut(area, *len);
            Ok(())
        }
        (Keep::Fill(byte), Change::Wrote { at, bytes }) => fill_write(
            alloc,
            areas,
            area,
            *at,
            bytes.len(),
            byte,
        ),
        (Keep::Fill(byte), Change::Cut { len }) => fill_cut(alloc, areas, area, *len, byte),
    }
}

fn sync_in(area: Area, event: &Event) -> bool
    ensures { result ≡ is_sync area event.now }
{
    match (area, event.area, &event.change) {
        (Area::Log, Area::Log, Change::Synced) => true,
        (Area::Store, Area::Store, Change::Synced) => true,
        _ => false,
    }
}

fn count_syncs(area: Area, events: &[Event]) -> usize
    ensures { result ≡ syncs_of area events.now }
{
    events.iter().filter(|event| sync_in(area, event)).count()
}

fn left_in(area: Area, log: usize, store: usize) -> usize
    ensures { result ≡ pick area log store }
{
    match area {
        Area::Log => log,
        Area::Store => store,
    }
}

/// Makes of the first bytes of both areas what a crash after all these changes leaves.
pub fn keep_all(
    alloc: Global,
    areas: &mut Areas,
    events: &[Event],
    keep: Keep,
) -> Result<(), AllocError>
    ensures { OnOk result (areas.new ≡ kept_all keep areas.old events.now) }
{
    let mut log_syncs = count_syncs(Area::Log, events);
    let mut store_syncs = count_syncs(Area::Store, events);
    for event in events {
        log_syncs -= usize::from(sync_in(Area::Log, event));
        store_syncs -= usize::from(sync_in(Area::Store, event));
        let later = left_in(event.area, log_syncs, store_syncs);
        let how = if later > 0 { Keep::New } else { keep };
        keep_change(alloc, areas, event.area, &event.change, how)?;
    }
    Ok(())
}
