//! The opening of a standby: its own log is read, frame after frame.
ghost use Rattle.std.specs.Prelude.{◌≡◌, ◌⊎◌, ◌+◌, ◌<◌, ◌≤◌, ◌^◌, ◌++◌, ◌∷◌, ℕ, length, true, IsTrue, OnOk, IfOk, IfErr, IfSome, IfNone, IsErrOf};
ghost use Rattle.std.specs.Int.{w32, to_be_bytes};
ghost use Rattle.pass_log.specs.Log.{log_end, LeavesStore};
ghost use Rattle.pass_outside.specs.Areas.{Image};
ghost use Rattle.pass_outside.specs.Moments.{Adds, IsDeviceWork};
ghost use Rattle.pass_plain.specs.WellLogged.{IsWellLogged};
ghost use Rattle.pass_standby.specs.Logs.{HasBadFrame, HoldsStill, IsBroken, IsFound, IsFoundOn, IsGoodLog, IsLeftUnread, IsUnopened};
ghost use Rattle.pass_standby.specs.Standing.{log_to, IsKept, Reads};
ghost use Rattle.pass_standby.specs.Streams.{is_open};

use crate::StandbyFault;
use crate::batch::{BatchFault, read_batch};
use crate::frame::{HEAD, OPEN};
use pass_entry::Record;
use pass_graph::{Logged, read};
use pass_log::{Log, LogFault, LogImage};
use pass_num::Cursor;
use pass_outside::{Area, Disk};
use pass_waldo::Index;
use std::alloc::{AllocError, Global};

/// What a log holds, with tables of what its records say.
#[derive(Drop)]
pub(crate) struct Found {
    pub(crate) image: LogImage,
    pub(crate) judge: Logged,
}

/// The frame behind an open gate at the front, and what follows it, which isn't empty.
pub(crate) fn frame_at(bytes: &[u8]) -> Option<(&[u8], &[u8])>
    requires some { 0 < length bytes.now }
    requires gate { is_open bytes.now ≡ true }
    ensures fits { IfSome result (λ f. length f.0.now < 2 ^ 32) }
    ensures frame { IfSome result (λ f. bytes.now ≡ 1 ∷ to_be_bytes w32 (length f.0.now) ++ f.0.now ++ f.1.now) }
    ensures more { IfSome result (λ f. 0 < length f.1.now) }
    ensures broken { IfNone result (IsBroken bytes.now) }
{
    let mut cursor = Cursor::new(&bytes[1..]);
    let Ok(count) = cursor.take_u32() else {
        return None;
    };
    let Ok(frame) = cursor.take_bytes(count as usize) else {
        return None;
    };
    let after = cursor.left();
    if after.is_empty() {
        return None;
    }
    Some((frame, after))
}

// What the bytes of a log hold, judged frame after frame, or its first bad frame.
fn walk(alloc: Global, bytes: &[u8]) -> Result<Found, StandbyFault>
    requires some { 1 < length bytes.now }
    requires fits { length bytes.now ≤ 2 ^ 39 }
    ensures found { IfOk result (IsFound bytes.now) }
    ensures fault { IfErr result (λ e. (e ≡ StandbyFault.NoMemory) ⊎ ((at : ℕ) × (e ≡ StandbyFault.BadLog at) × HasBadFrame bytes.now at)) }
{
    let mut place: u64 = 0;
    let mut list = Vec::new(alloc);
    let mut judge = Logged::new(alloc);
    let mut rest = bytes;
    while rest[0] == OPEN {
        let Some((frame, after)) = frame_at(rest) else {
            return Err(StandbyFault::BadLog { at: place });
        };
        if let Err(fault) = read_batch(alloc, &mut judge, frame, &mut list) {
            return Err(fault_at(fault, place));
        }
        place += (HEAD + frame.len()) as u64;
        rest = after;
    }
    Ok(Found {
        image: LogImage {
            list,
            end: place,
            short: false,
        },
        judge,
    })
}

// The fault of the frame at that place.
fn fault_at(fault: BatchFault, at: u64) -> StandbyFault
    ensures bad { fault ≡ BatchFault.Bad → result ≡ StandbyFault.BadLog at }
    ensures memory { fault ≡ BatchFault.NoMemory → result ≡ StandbyFault.NoMemory }
{
    match fault {
        BatchFault::Bad => StandbyFault::BadLog { at },
        BatchFault::NoMemory => StandbyFault::NoMemory,
    }
}

/// What the bytes of a log hold; at most one byte is an empty log.
pub(crate) fn found_in(alloc: Global, bytes: &[u8]) -> Result<Found, StandbyFault>
    requires { length bytes.now ≤ 2 ^ 39 }
    ensures found { IfOk result (IsFound bytes.now) }
    ensures fault { IfErr result (λ e. (e ≡ StandbyFault.NoMemory) ⊎ ((at : ℕ) × (e ≡ StandbyFault.BadLog at) × (1 < length bytes.now) × HasBadFrame bytes.now at)) }
{
    if bytes.len() <= 1 {
        return Ok(Found {
            image: LogImage {
                list: Vec::new(alloc),
                end: 0,
                short: true,
            },
            judge: Logged::new(alloc),
        });
    }
    walk(alloc, bytes)
}

/// The bytes of the log area.
pub(crate) fn read_bytes<D: Disk>(alloc: Global, disk: &mut D) -> Result<Vec<u8>, StandbyFault>
    ensures bytes { IfOk result (λ v. IsTrue (D.view disk.old).tells → v.items ≡ (D.view disk.old).seen.log) }
    ensures length { IfOk result (λ v. length v.items ≤ 2 ^ 39) }
    ensures fault { IfErr result (IsLeftUnread (D.view disk.old)) }
    ensures work { IsDeviceWork (D.view disk.old) (D.view disk.new) (IsErrOf result StandbyFault.DiskFault) }
    ensures content { (D.view disk.new).seen ≡ (D.view disk.old).seen }
    ensures crash { (c : Image) → (D.view disk.new).may_leave c → (D.view disk.old).may_leave c }
    ensures run { Adds (D.view disk.old) (D.view disk.new) (D.view disk.old).may_leave }
{
    match pass_log::read_bytes(alloc, disk) {
        Ok(bytes) => Ok(bytes),
        Err(LogFault::BadFrame { at }) => Err(StandbyFault::BadLog { at }),
        Err(LogFault::NoMemory) => Err(StandbyFault::NoMemory),
        Err(_) => Err(StandbyFault::DiskFault),
    }
}

// What the log area holds.
fn read_log<D: Disk>(alloc: Global, disk: &mut D) -> Result<Found, StandbyFault>
    ensures found { IfOk result (λ f. IsFoundOn (D.view disk.old) f) }
    ensures fault { IfErr result (IsUnopened (D.view disk.old)) }
    ensures work { IsDeviceWork (D.view disk.old) (D.view disk.new) (IsErrOf result StandbyFault.DiskFault) }
    ensures content { (D.view disk.new).seen ≡ (D.view disk.old).seen }
    ensures crash { (c : Image) → (D.view disk.new).may_leave c → (D.view disk.old).may_leave c }
    ensures run { Adds (D.view disk.old) (D.view disk.new) (D.view disk.old).may_leave }
{
    let bytes = match read_bytes(alloc, disk) {
        Ok(bytes) => bytes,
        Err(fault) => return Err(fault),
    };
    found_in(alloc, &bytes)
}

/// What a standby opens with.
#[derive(Drop)]
pub(crate) struct Opened {
    pub(crate) log: Log,
    pub(crate) index: Index,
    pub(crate) judge: Logged,
}

// Syncs the log area and reads what it holds.
fn read_synced<D: Disk>(alloc: Global, disk: &mut D) -> Result<Found, StandbyFault>
    ensures found { IfOk result (λ f. IsFoundOn (D.view disk.old) f) }
    ensures fault { IfErr result (IsUnopened (D.view disk.old)) }
    ensures synced { OnOk result ((c : Image) → (D.view disk.new).may_leave c → c.log ≡ (D.view disk.new).seen.log) }
    ensures content { OnOk result ((D.view disk.new).seen ≡ (D.view disk.old).seen) }
    ensures store { IsTrue (D.view disk.old).tells → (D.view disk.new).seen.store ≡ (D.view disk.old).seen.store }
    ensures work { IsDeviceWork (D.view disk.old) (D.view disk.new) (IsErrOf result StandbyFault.DiskFault) }
    ensures crash { (c : Image) → (D.view disk.new).may_leave c → (D.view disk.old).may_leave c }
    ensures run { Adds (D.view disk.old) (D.view disk.new) (D.view disk.old).may_leave }
{
    disk.sync(Area::Log)?;
    read_log(alloc, disk)
}

// The index of records that are well logged.
fn index_of(alloc: Global, records: Vec<Record>) -> Result<Index, AllocError>
    requires { IsWellLogged records.items }
    ensures { IfOk result (λ index. index ≡ records.items) }
{
    let Ok(logged) = read(alloc, &records) else {
        return Err(AllocError);
    };
    Index::of(alloc, records, logged)
}

// Opens the log with what it holds, and its index.
fn open_found<D: Disk>(alloc: Global, disk: &mut D, found: Found) -> Result<Opened, StandbyFault>
    requires found { IsFoundOn (D.view disk.old) found }
    requires synced { (c : Image) → (D.view disk.old).may_leave c → c.log ≡ (D.view disk.old).seen.log }
    ensures list { IfOk result (λ o. o.index ≡ found.image.list.items) }
    ensures end { IfOk result (λ o. log_end o.log ≡ found.image.end) }
    ensures kept { IfOk result (λ o. IsKept (D.view disk.new) o.log o.index o.judge) }
    ensures err { IfErr result (λ e. (e ≡ StandbyFault.DiskFault) ⊎ (e ≡ StandbyFault.NoMemory)) }
    ensures bytes { IfOk result (λ o. Reads (D.view disk.new) (log_end o.log) (log_to (D.view disk.old) (log_end o.log))) }
    ensures any_moment { IsTrue (D.view disk.old).tells → Adds (D.view disk.old) (D.view disk.new) (λ c. HoldsStill (D.view disk.old).seen.log c.log) }
    ensures store { LeavesStore (D.view disk.old) (D.view disk.new) }
    ensures work { IsDeviceWork (D.view disk.old) (D.view disk.new) (IsErrOf result StandbyFault.DiskFault) }
{
    let Ok(log) = Log::open(disk, &found.image) else {
        return Err(StandbyFault::DiskFault);
    };
    let index = index_of(alloc, found.image.list)?;
    Ok(Opened {
        log,
        index,
        judge: found.judge,
    })
}

/// Opens a standby's log: syncs the log area, reads it, and indexes its records. A log area of at most one byte gets its first
/// closed gate.
pub(crate) fn prepare<D: Disk>(alloc: Global, disk: &mut D) -> Result<Opened, StandbyFault>
    ensures good { IfOk result (λ o. IsGoodLog (D.view disk.old) o.index (log_end o.log)) }
    ensures kept { IfOk result (λ o. IsKept (D.view disk.new) o.log o.index o.judge) }
    ensures bytes { IfOk result (λ o. Reads (D.view disk.new) (log_end o.log) (log_to (D.view disk.old) (log_end o.log))) }
    ensures cause { IfErr result (IsUnopened (D.view disk.old)) }
    ensures any_moment { IsTrue (D.view disk.old).tells
        → Adds (D.view disk.old) (D.view disk.new) (λ c. (D.view disk.old).may_leave c ⊎ HoldsStill (D.view disk.old).seen.log c.log) }
    ensures store { LeavesStore (D.view disk.old) (D.view disk.new) }
    ensures work { IsDeviceWork (D.view disk.old) (D.view disk.new) (IsErrOf result StandbyFault.DiskFault) }
{
    let found = read_synced(alloc, disk)?;
    open_found(alloc, disk, found)
}
