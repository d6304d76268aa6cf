//! The changes of a disk in memory, each with its event or not at all.
ghost use Rattle.std.specs.Prelude.{◌≡◌, ◌++◌, ◌∷◌, [], take, OnOk, OnErr};
ghost use Rattle.pass_outside.specs.declared.change.Change.TheVariants.{Wrote, Cut};
ghost use Rattle.pass_outside.specs.Areas.{area_of, with_area, written};

use crate::Area;
use crate::areas::Areas;
use crate::change::{Change, Event};
use std::alloc::{AllocError, Global};

/// Notes a change, where memory is found.
pub fn push_event(
    events: &mut Vec<Event>,
    call: u64,
    area: Area,
    change: Change,
) -> Result<(), AllocError>
    ensures ok { OnOk result (events.new.items ≡ events.old.items ++ (record { call = call; area = area; change = change }) ∷ []) }
    ensures err { OnErr result (events.new.items ≡ events.old.items) }
{
    events.push(Event { call, area, change })?;
    Ok(())
}

/// Writes, and notes it.
pub fn write_change(
    alloc: Global,
    areas: &mut Areas,
    events: &mut Vec<Event>,
    call: u64,
    area: Area,
    at: u64,
    bytes: &[u8],
) -> Result<(), AllocError>
    ensures event { OnOk result ((v : _) × (v.items ≡ bytes.now) × (events.new.items ≡ events.old.items ++ (record { call = call; area = area; change = Wrote at v }) ∷ [])) }
    ensures content { OnOk result (areas.new ≡ with_area area (written (area_of area areas.old) at bytes.now) areas.old) }
    ensures err { OnErr result ((events.new.items ≡ events.old.items) × (areas.new ≡ areas.old)) }
{
    let copy = bytes.to_vec(alloc)?;
    push_event(events, call, area, Change::Wrote { at, bytes: copy })?;
    let done = areas.write(alloc, area, at, bytes);
    if done.is_err() {
        let _ = events.pop();
    }
    done
}

/// Cuts, and notes it.
pub fn cut_change(
    areas: &mut Areas,
    events: &mut Vec<Event>,
    call: u64,
    area: Area,
    len: u64,
) -> Result<(), AllocError>
    ensures event { OnOk result (events.new.items ≡ events.old.items ++ (record { call = call; area = area; change = Cut len }) ∷ []) }
    ensures content { OnOk result (areas.new ≡ with_area area (take len (area_of area areas.old)) areas.old) }
    ensures err { OnErr result ((events.new.items ≡ events.old.items) × (areas.new ≡ areas.old)) }
{
    push_event(events, call, area, Change::Cut { len })?;
    areas.cut(area, len);
    Ok(())
}
