//! The log of a store, opened for questions.
ghost use Rattle.std.specs.Prelude.{◌≡◌, ◌≤◌, IfOk, IfErr, IsErrOf, IsTrue};
ghost use Rattle.pass_graph.specs.Logged.{Summarizes};
ghost use Rattle.pass_outside.specs.Areas.{Image};
ghost use Rattle.pass_outside.specs.Moments.{Adds};
ghost use Rattle.pass_range.specs.Tables.{AreUnmatched};
ghost use Rattle.pass_recover.specs.Faults.{LogHas, IsCauseOf};
ghost use Rattle.pass_ask.specs.Asked.{IsLogOf};

use pass_entry::Record;
use pass_graph::{Logged, read};
use pass_log::read_image;
use pass_outside::{Disk, sync_both};
use pass_range::{Range, RangeFault, Table, unmatched};
use pass_recover::{OpenFault, open_fault};
use pass_waldo::Index;
use std::alloc::Global;

/// The records of a log, and the tables that their check made.
#[derive(Drop)]
struct ReadLog {
    list: Vec<Record>,
    logged: Logged,
}

/// The records of a store, and the ranges of which its data area has other bytes than were recorded.
#[derive(Drop)]
pub struct Surveyed {
    pub list: Vec<Record>,
    pub unmatched: Vec<Range>,
}

// Syncs both areas, reads the log, and checks its records, each of them once. It reads no data, and writes nothing.
fn read_log<D: Disk>(alloc: Global, disk: &mut D) -> Result<ReadLog, OpenFault>
    ensures read { IfOk result (λ log. LogHas (D.view disk.old) (λ bytes. IsLogOf bytes log.list.items)) }
    ensures says { IfOk result (λ log. Summarizes log.logged log.list.items) }
    ensures fault { IfErr result (IsCauseOf (D.view disk.old) (D.view disk.new)) }
    ensures no_fault { (IsErrOf result OpenFault.DiskFault → ⊥) → (D.view disk.new).faults ≡ (D.view disk.old).faults }
    // Unless a device call failed the disk reads as before.
    ensures stays { (IsErrOf result OpenFault.DiskFault → ⊥) → (D.view disk.new).seen ≡ (D.view disk.old).seen }
    ensures crash { (c : Image) → (D.view disk.new).may_leave c → (D.view disk.old).may_leave c }
    ensures run { Adds (D.view disk.old) (D.view disk.new) (D.view disk.old).may_leave }
    ensures tells { (D.view disk.new).tells ≡ (D.view disk.old).tells }
    ensures rises { (D.view disk.old).faults ≤ (D.view disk.new).faults }
{
    sync_both(disk)?;
    let image = match read_image(alloc, disk) {
        Ok(image) => image,
        Err(fault) => return Err(open_fault(fault)),
    };
    let logged = read(alloc, &image.list)?;
    Ok(ReadLog {
        list: image.list,
        logged,
    })
}

/// The index of a store's log, which is opened as by `read_log`.
pub fn open_index<D: Disk>(alloc: Global, disk: &mut D) -> Result<Index, OpenFault>
    ensures read { IfOk result (λ index. LogHas (D.view disk.old) (λ bytes. IsLogOf bytes index)) }
    ensures fault { IfErr result (IsCauseOf (D.view disk.old) (D.view disk.new)) }
    ensures no_fault { (IsErrOf result OpenFault.DiskFault → ⊥) → (D.view disk.new).faults ≡ (D.view disk.old).faults }
    // Unless a device call failed the disk reads as before.
    ensures stays { (IsErrOf result OpenFault.DiskFault → ⊥) → (D.view disk.new).seen ≡ (D.view disk.old).seen }
    ensures crash { (c : Image) → (D.view disk.new).may_leave c → (D.view disk.old).may_leave c }
    ensures run { Adds (D.view disk.old) (D.view disk.new) (D.view disk.old).may_leave }
    ensures tells { (D.view disk.new).tells ≡ (D.view disk.old).tells }
    ensures rises { (D.view disk.old).faults ≤ (D.view disk.new).faults }
{
    let log = read_log(alloc, disk)?;
    let index = Index::of(alloc, log.list, log.logged)?;
    Ok(index)
}

/// Opens the log, and compares each block of which it tells with its digest. The bytes of one block are held at once. It writes
/// nothing.
pub fn survey<D: Disk>(alloc: Global, disk: &mut D) -> Result<Surveyed, OpenFault>
    ensures read { IfOk result (λ s. LogHas (D.view disk.old) (λ bytes. IsLogOf bytes s.list.items)) }
    ensures unmatched { IfOk result (λ s. IsTrue (D.view disk.old).tells → AreUnmatched s.list.items (D.view disk.old).seen.store s.unmatched.items) }
    ensures fault { IfErr result (IsCauseOf (D.view disk.old) (D.view disk.new)) }
    ensures no_fault { (IsErrOf result OpenFault.DiskFault → ⊥) → (IsErrOf result OpenFault.NoMemory → ⊥) → (D.view disk.new).faults ≡ (D.view disk.old).faults }
    ensures stays { (IsErrOf result OpenFault.DiskFault → ⊥) → (D.view disk.new).seen ≡ (D.view disk.old).seen }
    ensures crash { (c : Image) → (D.view disk.new).may_leave c → (D.view disk.old).may_leave c }
    ensures run { Adds (D.view disk.old) (D.view disk.new) (D.view disk.old).may_leave }
    ensures tells { (D.view disk.new).tells ≡ (D.view disk.old).tells }
    ensures rises { (D.view disk.old).faults ≤ (D.view disk.new).faults }
{
    let log = read_log(alloc, disk)?;
    let list = log.list;
    drop(log.logged);
    let table = Table::of(alloc, &list)?;
    match unmatched(alloc, &table, disk) {
        Ok(unmatched) => Ok(Surveyed { list, unmatched }),
        Err(RangeFault::DiskFault) => Err(OpenFault::DiskFault),
        Err(RangeFault::NoMemory) => Err(OpenFault::NoMemory),
    }
}
