//! How a session begins over a disk.
ghost use Rattle.std.specs.Prelude.{◌≡◌, ◌⊎◌, [], ◌+◌, ◌<◌, ◌≤◌, ◌^◌, ℕ, IsTrue, IfOk, IfErr, false};
ghost use Rattle.std.specs.List.{All};
ghost use Rattle.pass_entry.specs.Ranges.{IsInRange};
ghost use Rattle.pass_graph.specs.Openings.{Continues};
ghost use Rattle.pass_keep.specs.Kept.{IsBegun, ceilings_length};
ghost use Rattle.pass_log.specs.Records.{frame_length};
ghost use Rattle.pass_outside.specs.Areas.{Image};
ghost use Rattle.pass_outside.specs.Moments.{IsAtEnd};
ghost use Rattle.pass_plain.specs.Ceilings.{most_objects, ceilings_between};
ghost use Rattle.pass_plain.specs.Sound.{IsSound};
ghost use Rattle.pass_plain.specs.WellLogged.{ceiling_of};
ghost use Rattle.pass_recover.specs.Faults.{LogHas};
ghost use Rattle.pass_vault.specs.Vaulted.{story_of};
ghost use Rattle.pass_session.specs.Judgements.{session_fault, refusal_of, IsJudged, IsOfStore};
ghost use Rattle.pass_session.specs.Openings.{IsOpening, IsLater, IsUntouched, HasBegun, HasCeiling};
ghost use Rattle.pass_session.specs.Sessions.{IsFound, IsOpenedOver};

use crate::ground::Ground;
use crate::laws::ceilings;
use crate::opened::Opened;
use pass_bounds::laws::logs;
use pass_entry::{Pnode, Record};
use pass_log::{LogFault, LogImage};
use pass_outside::Disk;
use pass_plain::laws::ceilings as raised_ceilings;
use pass_plain::{Start, ceilings_between};
use pass_recover::{OpenFault, Opening, recover};
use pass_vault::Vault;
use std::alloc::{AllocError, Global};
use std::snapshot::Snapshot;

/// The last end of a log image over which a session begins.
const LAST_END: u64 = 1 << 38;

/// What was read of a disk over which a session is to begin: the log's image, the start that it tells, the disk as it was before,
/// and a count of its calls since which each crash leaves what it reads now.
#[derive(Drop)]
struct Found<D> {
    image: LogImage,
    start: Start,
    first: Snapshot<D>,
    since: u64,
}

/// Opens a session over the store of a disk. It may make so many objects, and has room for so many entries.
///
/// The store is recovered and judged first: one that doesn't open, or whose log image ends above 2^38, is refused and isn't
/// written to. Then the memory for the book is taken, and last the session's ceiling is written, durably: the start's plus a number
/// for each object that it may make. It is raised by at most 8,192 a record, in one frame.
pub fn open<D: Disk>(
    alloc: Global,
    disk: D,
    objects: u32,
    entries: u32,
) -> Result<Opened<D>, (OpenFault, D)>
    requires objects { (1 ≤ objects) × (objects ≤ most_objects) }
    requires entries { (66 ≤ entries) × (entries ≤ 16777216) }

    // What is opened: the session over the records of the log as it read, before its first entry.
    ensures vault { IfOk result (λ o. o.vault ≡ record {
      book = o.vault.book;
      seen = [];
      syncs = [];
      disk = o.vault.disk;
      before = o.vault.before;
      store = (D.view disk).seen.store;
      ceiling = o.vault.book.session.start.ceiling + objects;
      since = (D.view disk).calls + 2;
      ready = (D.view o.vault.disk).calls;
      opened = (D.view disk).faults;
      place = o.vault.place;
      pool = o.vault.pool;
      unsynced = false;
    }) }
    ensures limits { IfOk result (λ o. (o.vault.book.session.objects ≡ objects) × (o.places ≡ entries)) }
    ensures opening { IfOk result (λ o. IsOpening (D.view disk) o.vault.before o.vault.book.session.start) }
    ensures sound { IfOk result (λ o. IsSound o.vault.book.session) }
    ensures continues { IfOk result (λ o. Continues o.vault.before o.vault.book.session) }

    // What crashes leave: since the two syncs with which the store opened what was there before, or that and the ceiling; and from
    // now on the ceiling.
    ensures begun { IfOk result (λ o. IsBegun (story_of o.vault) (D.view o.vault.disk)) }
    ensures ceiling { IfOk result (λ o. IsTrue (D.view o.vault.disk).tells → (c : Image) → (D.view o.vault.disk).left_since o.vault.ready c → HasCeiling o.vault.ceiling c.log) }

    // Which answer it is. Frames are judged before records, records before flaws, and these before the image's end; a device fault
    // comes before all. Want of memory alone is free.
    ensures disk_fault { IfErr result (λ e. e.0 ≡ OpenFault.DiskFault → ((D.view disk).faults < (D.view e.1).faults) ⊎ IsAtEnd (D.view e.1)) }
    ensures judged { IsJudged (refusal_of result) → LogHas (D.view disk) (λ bytes. session_fault bytes ≡ refusal_of result) }
    ensures healthy { IfOk result (λ o. (D.view o.vault.disk).faults ≡ (D.view disk).faults) }
    ensures no_fault { IfErr result (λ e. IsOfStore e.0 → (D.view e.1).faults ≡ (D.view disk).faults) }

    // What a refusal leaves. A store that is refused isn't written to.
    ensures bad_store { IfErr result (λ e. IsOfStore e.0 → IsUntouched (D.view disk) (D.view e.1) e.0) }
    ensures left { IfErr result (λ e. IsUntouched (D.view disk) (D.view e.1) e.0 ⊎ HasBegun (D.view disk) (D.view e.1) objects) }

    // What the disk tells stays, and its counts never fall.
    ensures later { IfOk result (λ o. IsLater (D.view disk) (D.view o.vault.disk)) }
    ensures refused_later { IfErr result (λ e. IsLater (D.view disk) (D.view e.1)) }
{
    let mut disk = disk;
    let first = Snapshot::of(&disk);
    let calls = disk.calls();
    match recover(alloc, &mut disk) {
        Ok(Opening { image, start, .. }) => {
            // It has gone on by two syncs at least.
            let _calls = disk.calls();
            let since = calls + 2;
            let found = Found {
                image,
                start,
                first,
                since,
            };
            judge(alloc, found, disk, objects, entries)
        }
        Err(fault) => Err((fault, disk)),
    }
}

/// A session over what was found, unless the log's image ends too late.
fn judge<D: Disk>(
    alloc: Global,
    found: Found<D>,
    disk: D,
    objects: u32,
    entries: u32,
) -> Result<Opened<D>, (OpenFault, D)>
    requires objects { (1 ≤ objects) × (objects ≤ most_objects) }
    requires entries { (66 ≤ entries) × (entries ≤ 16777216) }
    requires found { IsFound (D.view found.first.value) (D.view disk) found }
    ensures { IsOpenedOver D.view (D.view found.first.value) objects entries result }
{
    let end = found.image.end;
    if end > LAST_END {
        return Err((OpenFault::BadFrame { at: end }, disk));
    }
    begin(alloc, found, disk, objects, entries)
}

/// A session over what was found. Its ceiling is written last.
fn begin<D: Disk>(
    alloc: Global,
    found: Found<D>,
    disk: D,
    objects: u32,
    entries: u32,
) -> Result<Opened<D>, (OpenFault, D)>
    requires objects { (1 ≤ objects) × (objects ≤ most_objects) }
    requires entries { (66 ≤ entries) × (entries ≤ 16777216) }
    requires found { IsFound (D.view found.first.value) (D.view disk) found }
    requires short { found.image.end ≤ 2 ^ 38 }
    ensures { IsOpenedOver D.view (D.view found.first.value) objects entries result }
{
    logs();
    ceilings();
    let Ok((ground, seat)) = Ground::new(alloc, &found.start, objects, entries) else {
        return Err((OpenFault::NoMemory, disk));
    };
    let ceiling = session_ceiling(&found.start, objects);
    let Ok(raised) = raises(alloc, &found.image, &found.start, objects, ceiling) else {
        return Err((OpenFault::NoMemory, disk));
    };
    let opened = disk.faults();
    match Vault::open(
        alloc,
        disk,
        &found.image,
        ceiling,
        raised.as_slice(),
        seat,
        found.since,
    ) {
        Ok(vault) => {
            vault.images();
            let Found { image, start, .. } = found;
            Ok(Opened::new(ground, vault, image, start, opened))
        }
        Err((fault, disk)) => Err((refused(fault), disk)),
    }
}

/// The session's ceiling, which leaves a number for each object that it may make.
fn session_ceiling(start: &Start, objects: u32) -> Pnode
    requires { start.now.ceiling + objects < 2 ^ 48 }
    ensures { result ≡ start.now.ceiling + objects }
{
    Pnode(start.ceiling + u64::from(objects))
}

/// The records that raise the ceiling to the session's.
fn raises(
    alloc: Global,
    image: &LogImage,
    start: &Start,
    objects: u32,
    ceiling: Pnode,
) -> Result<Vec<Record>, AllocError>
    requires objects { (1 ≤ objects) × (objects ≤ most_objects) }
    requires start { start.now.ceiling ≡ ceiling_of image.now.list.items }
    requires ceiling { ceiling ≡ start.now.ceiling + objects }
    requires small { start.now.ceiling + objects < 2 ^ 48 }
    ensures records { IfOk result (λ v. v.items ≡ ceilings_between (ceiling_of image.now.list.items) ceiling) }
    ensures in_range { IfOk result (λ v. All IsInRange v.items) }
    ensures size { IfOk result (λ v. frame_length v.items ≤ ceilings_length) }
{
    let _ = image;
    raised_ceilings();
    ceilings_between(alloc, Pnode(start.ceiling), ceiling)
}

/// The fault of writing the ceiling.
fn refused(fault: LogFault) -> OpenFault
    requires { (fault ≡ LogFault.DiskFault) ⊎ (fault ≡ LogFault.NoMemory) }
    ensures disk { fault ≡ LogFault.DiskFault → result ≡ OpenFault.DiskFault }
    ensures memory { fault ≡ LogFault.NoMemory → result ≡ OpenFault.NoMemory }
{
    match fault {
        LogFault::DiskFault => OpenFault::DiskFault,
        LogFault::NoMemory => OpenFault::NoMemory,
        LogFault::Broken { .. } | LogFault::BadFrame { .. } | LogFault::BadRecord { .. } => {
            unreachable!()
        }
    }
}
