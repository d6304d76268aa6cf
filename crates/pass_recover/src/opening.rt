//! The opening of a store.
ghost use Rattle.std.specs.Prelude.{◌≡◌, ◌⊎◌, ◌+◌, ◌^◌, ◌<◌, ◌≤◌, ℕ, IsTrue, IsErr, IsErrOf, OnOk, IfOk, IfErr};
ghost use Rattle.std.specs.List.{All};
ghost use Rattle.pass_entry.specs.Ranges.{IsInRange};
ghost use Rattle.pass_graph.specs.Openings.{Continues};
ghost use Rattle.pass_log.specs.LogImage.{IsRead};
ghost use Rattle.pass_outside.specs.Areas.{Image};
ghost use Rattle.pass_outside.specs.Moments.{IsDeviceRun, Adds};
ghost use Rattle.pass_plain.specs.Legal.{session_of};
ghost use Rattle.pass_plain.specs.Sound.{IsSound};
ghost use Rattle.pass_plain.specs.WellLogged.{IsWellLogged};
ghost use Rattle.pass_range.specs.Lawful.{Tells};
ghost use Rattle.pass_range.specs.Tables.{IsTableOf, AreUnmatched};
ghost use Rattle.pass_record.specs.declared.fault.RecordFault.{RecordFault};
ghost use Rattle.pass_recover.specs.Faults.{IsCauseOf};
ghost use Rattle.pass_recover.specs.Fills.{other_ranges};
ghost use Rattle.pass_recover.specs.Starts.{IsStartOf, HasBytes};
ghost use Rattle.pass_recover.specs.Syncs.{HasBothSyncs, LeavesRead};

use crate::OpenFault;
use crate::blank::current_apps;
use crate::fill::{Filled, read_files};
use pass_graph::read;
use pass_log::{LogFault, LogImage, read_image};
use pass_outside::{Area, Disk, Failed};
use pass_plain::Start;
use pass_range::{Range, Table};
use pass_record::RecordFault;
use std::alloc::Global;

/// What a store opens with: the records of its log, the start that they give, the table of its ranges, and those ranges
/// of it of which the store area has other bytes than were recorded.
#[derive(Drop)]
pub struct Opening {
    pub image: LogImage,
    pub start: Start,
    pub table: Table,
    /// In ascending order.
    pub unmatched: Vec<Range>,
}

// Syncs both areas, the log first. A crash at a moment since then leaves what a read gives.
fn settle<D: Disk>(disk: &mut D) -> Result<(), Failed>
    ensures durable { OnOk result ((c : Image) → (D.view disk.new).may_leave c → c ≡ (D.view disk.new).seen) }
    ensures since { OnOk result ((c : Image) → (D.view disk.new).left_since (D.view disk.new).calls c → (D.view disk.new).may_leave c) }
    ensures content { OnOk result ((D.view disk.new).seen ≡ (D.view disk.old).seen) }
    ensures two { OnOk result ((D.view disk.new).calls ≡ (D.view disk.old).calls + 2) }
    ensures early { IsErr result → HasBothSyncs (D.view disk.old) (D.view disk.new) → ⊥ }
    ensures crash { (c : Image) → (D.view disk.new).may_leave c → (D.view disk.old).may_leave c }
    ensures run { IsDeviceRun (D.view disk.old) (D.view disk.new) result (D.view disk.old).may_leave }
{
    disk.sync(Area::Log)?;
    disk.sync(Area::Store)?;
    // The count marks the moment.
    let _calls = disk.calls();
    Ok(())
}

/// Why a store doesn't open whose log can't be read.
pub fn open_fault(fault: LogFault) -> OpenFault
    requires { (opened now : ℕ) → fault ≡ LogFault.Broken opened now → ⊥ }
    ensures disk { fault ≡ LogFault.DiskFault → result ≡ OpenFault.DiskFault }
    ensures frame { (at : ℕ) → fault ≡ LogFault.BadFrame at → result ≡ OpenFault.BadFrame at }
    ensures one { (place : ℕ) (why : RecordFault) → fault ≡ LogFault.BadRecord place why → result ≡ OpenFault.BadRecord place why }
    ensures memory { fault ≡ LogFault.NoMemory → result ≡ OpenFault.NoMemory }
{
    match fault {
        LogFault::DiskFault => OpenFault::DiskFault,
        LogFault::BadFrame { at } => OpenFault::BadFrame { at },
        LogFault::BadRecord { place, fault } => OpenFault::BadRecord { place, fault },
        LogFault::NoMemory => OpenFault::NoMemory,
        LogFault::Broken { .. } => unreachable!(),
    }
}

/// Opens a store: syncs the log and then the store area, reads the log, checks its records, and reads every range of
/// their table. It writes nothing.
pub fn recover<D: Disk>(alloc: Global, disk: &mut D) -> Result<Opening, OpenFault>
    ensures image { IfOk result (λ o. IsRead (D.view disk.old) o.image) }
    ensures logged { IfOk result (λ o. IsWellLogged o.image.list.items) }
    ensures table { IfOk result (λ o. IsTableOf o.image.list.items o.table) }
    // The start is all that the records say, and in their ranges its files have the bytes of the disk, also of those that
    // are unmatched.
    ensures start { IfOk result (λ o. IsStartOf o.image.list.items o.start) }
    ensures bytes { IfOk result (λ o. IsTrue (D.view disk.old).tells → HasBytes o.image.list.items (D.view disk.old).seen.store o.start) }
    ensures unmatched { IfOk result (λ o. IsTrue (D.view disk.old).tells → AreUnmatched o.image.list.items (D.view disk.old).seen.store o.unmatched.items) }
    ensures other_bytes { IfOk result (λ o. o.unmatched.items ≡ other_ranges o.table o.start.files.items o.table.rows.items) }
    // A session may begin with it.
    ensures tells_files { IfOk result (λ o. Tells o.image.list.items o.start) }
    ensures sound { IfOk result (λ o. (objects : ℕ) → 1 ≤ objects → o.start.ceiling + objects < 2 ^ 48 → IsSound (session_of o.start objects)) }
    ensures continues { IfOk result (λ o. (objects : ℕ) → 1 ≤ objects → o.start.ceiling + objects < 2 ^ 48 → Continues o.image.list.items (session_of o.start objects)) }

    ensures fault { IfErr result (IsCauseOf (D.view disk.old) (D.view disk.new)) }
    ensures no_fault { (IsErrOf result OpenFault.DiskFault → ⊥) → (D.view disk.new).faults ≡ (D.view disk.old).faults }

    // Unless a device call failed the disk reads as before.
    ensures stays { (IsErrOf result OpenFault.DiskFault → ⊥) → (D.view disk.new).seen ≡ (D.view disk.old).seen }

    // Unless a device call failed both syncs have come. Whatever the answer, a crash at a moment since then leaves what was read.
    ensures later { (IsErrOf result OpenFault.DiskFault → ⊥) → (D.view disk.old).calls + 2 ≤ (D.view disk.new).calls }
    ensures since { LeavesRead (D.view disk.old) (D.view disk.new) }

    // The log can be opened next.
    ensures open_next { IfOk result (λ o. IsRead (D.view disk.new) o.image) }
    ensures synced { OnOk result ((c : Image) → (D.view disk.new).may_leave c → c ≡ (D.view disk.new).seen) }
    ensures content { OnOk result ((D.view disk.new).seen ≡ (D.view disk.old).seen) }
    ensures crash { (c : Image) → (D.view disk.new).may_leave c → (D.view disk.old).may_leave c }
    ensures run { Adds (D.view disk.old) (D.view disk.new) (D.view disk.old).may_leave }
    ensures tells { (D.view disk.new).tells ≡ (D.view disk.old).tells }
    ensures rises { (D.view disk.old).faults ≤ (D.view disk.new).faults }
{
    settle(disk)?;
    let image = match read_image(alloc, disk) {
        Ok(image) => image,
        Err(fault) => return Err(open_fault(fault)),
    };
    let logged = read(alloc, &image.list)?;
    let table = Table::of(alloc, &image.list)?;
    let Filled { files, unmatched } = read_files(alloc, &image.list, &logged, &table, disk)?;
    let start = Start {
        ceiling: logged.ceiling(),
        files,
        apps: current_apps(alloc, &image.list, &logged)?,
    };
    Ok(Opening {
        image,
        start,
        table,
        unmatched,
    })
}
