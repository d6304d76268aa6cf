//! The standby.
ghost use Rattle.std.specs.Prelude.{◌≡◌, ℕ};

use crate::StandbyFault;
use crate::following::Following;
use crate::opening::prepare;
use pass_outside::Disk;
use pass_waldo::Index;
use std::alloc::Global;
use std::marker::Model;

/// What has come of a standby.
#[derive(Clone, Copy, PartialEq, Eq)]
pub enum Fate {
    /// It takes what comes.
    Going,
    /// A bad frame came.
    Bad,
    /// A device call failed.
    Failed,
    /// Memory was refused.
    Starved,
}

/// Follows another store's log: it takes the log's bytes in pieces, and keeps each whole frame on its own disk and in its index.
#[derive(Drop)]
pub struct Standby<D: Disk> {
    following: Following<D>,
    fate: Fate,
}

impl<D: Disk> Model for Standby<D> {
    ghost use Rattle.std.specs.Coded.{codes};
    ghost use Rattle.pass_entry.specs.contracts.record.Record as record_type;
    ghost use Rattle.pass_standby.specs.contracts.standby.Fate as fate_type;
    ghost use Rattle.pass_standby.specs.Standing.{Standing, seen_as, IsStanding};

    ghost Value = { Standing D };

    ghost coded = { Prim.hlevel (codes, record_type.the_row.coded, fate_type.the_row.coded) };

    ghost view = { λ s. seen_as s.following s.fate };

    ghost invariant = { λ s. IsStanding D.view s.following s.fate };
}

impl<D: Disk> Standby<D> {
    ghost use Rattle.std.specs.Prelude.{◌≡◌, ◌⊎◌, [], ℕ, length, IsTrue, IfOk, OnOk, IfErr, IsErrOf, Err};
    ghost use Rattle.pass_outside.specs.Moments.{Adds, IsDeviceWork};
    ghost use Rattle.pass_log.specs.Log.{LeavesStore};
    ghost use Rattle.pass_plain.specs.WellLogged.{IsWellLogged};
    ghost use Rattle.pass_standby.specs.declared.standby.Fate.TheVariants as fates;
    ghost use Rattle.pass_standby.specs.Logs.{HoldsStill, IsGoodLog, IsUnopened};
    ghost use Rattle.pass_standby.specs.Streams.{bytes_with, followed, HasSomeFrames};
    ghost use Rattle.pass_standby.specs.Standing.{told_of, log_to, Leaves, Reads, HasEnded};

    /// Opens a standby on a disk whose log it goes on with, which may be empty. After a fault the disk is handed back.
    pub fn open(alloc: Global, disk: D) -> Result<Standby<D>, (StandbyFault, D)>
        // It has the records of the log, which are well logged.
        ensures good { IfOk result (λ s. IsGoodLog (D.view disk) s.list s.at) }
        ensures going { IfOk result (λ s. s.fate ≡ fates.Going) }
        ensures begun { IfOk result (λ s. s.begun ≡ []) }
        // From then on each crash leaves them.
        ensures leaves { IfOk result (λ s. Leaves (D.view s.disk) s.list s.at) }
        ensures bytes { IfOk result (λ s. Reads (D.view s.disk) s.at (log_to (D.view disk) s.at)) }
        ensures work { IfOk result (λ s. IsDeviceWork (D.view disk) (D.view s.disk) ⊥) }
        // A crash at any moment leaves what it might have left before, or the log as it was.
        ensures any_moment { IfOk result (λ s. IsTrue (D.view disk).tells
            → Adds (D.view disk) (D.view s.disk) (λ c. (D.view disk).may_leave c ⊎ HoldsStill (D.view disk).seen.log c.log)) }
        ensures store { IfOk result (λ s. LeavesStore (D.view disk) (D.view s.disk)) }

        // A device call failed; or the log has a bad frame, and this is the first one; or memory was refused.
        ensures cause { IfErr result (λ e. IsUnopened (D.view disk) e.0) }
        ensures failed_work { IfErr result (λ e. IsDeviceWork (D.view disk) (D.view e.1) (e.0 ≡ StandbyFault.DiskFault)) }
        ensures failed_moment { IfErr result (λ e. IsTrue (D.view disk).tells
            → Adds (D.view disk) (D.view e.1) (λ c. (D.view disk).may_leave c ⊎ HoldsStill (D.view disk).seen.log c.log)) }
        ensures failed_store { IfErr result (λ e. LeavesStore (D.view disk) (D.view e.1)) }
    {
        let mut disk = disk;
        match prepare(alloc, &mut disk) {
            Ok(opened) => Ok(Standby {
                following: Following {
                    alloc,
                    disk,
                    log: opened.log,
                    index: opened.index,
                    judge: opened.judge,
                    begun: Vec::new(alloc),
                },
                fate: Fate::Going,
            }),
            Err(fault) => Err((fault, disk)),
        }
    }

    /// Takes a piece of the stream, of any length, and answers the place behind the whole frames so far. Each frame that the piece
    /// makes whole is appended to the log as one frame.
    ///
    /// A frame's gate is judged as its byte comes, a length at its fourth byte, and the rest as the frame is whole.
    pub fn feed(&mut self, piece: &[u8]) -> Result<u64, StandbyFault>
        // The records are those of the whole frames of all bytes so far, of which no frame is bad.
        ensures told { OnOk result (told_of self.new ≡ followed (told_of self.old) piece.now) }
        ensures place { IfOk result (λ at. at ≡ self.new.at) }
        ensures logged { OnOk result (IsWellLogged self.new.list) }
        ensures going { OnOk result ((self.old.fate ≡ fates.Going) × (self.new.fate ≡ fates.Going)) }
        // From then on each crash leaves them, and byte by byte what the log area reads: what it read before, and then the bytes that
        // made frames whole.
        ensures leaves { OnOk result (Leaves (D.view self.new.disk) self.new.list self.new.at) }
        ensures bytes { OnOk result (Reads (D.view self.new.disk) self.new.at (bytes_with (log_to (D.view self.old.disk) self.old.at) (told_of self.old) piece.now)) }

        // A frame of the bytes is bad, a device call failed, or memory was refused: the whole frames before stand.
        ensures ended { self.old.fate ≡ fates.Going → IfErr result (HasEnded D.view self.old piece.now self.new) }
        // Exactly after a bad frame or a device call that failed.
        ensures closed { (self.old.fate ≡ fates.Bad) ⊎ (self.old.fate ≡ fates.Failed) → (result ≡ Err (StandbyFault.Closed self.old.at)) × (self.new ≡ self.old) }
        ensures starved { self.old.fate ≡ fates.Starved → (result ≡ Err StandbyFault.NoMemory) × (self.new ≡ self.old) }

        // A crash at any moment of the call leaves the records from before, with those of some of the whole frames of the piece.
        ensures any_moment { IsTrue (D.view self.old.disk).tells → Adds (D.view self.old.disk) (D.view self.new.disk) (λ c. HasSomeFrames (log_to (D.view self.old.disk) self.old.at) (told_of self.old) piece.now c.log) }
        ensures store { LeavesStore (D.view self.old.disk) (D.view self.new.disk) }
        ensures work { IsDeviceWork (D.view self.old.disk) (D.view self.new.disk) (IsErrOf result StandbyFault.DiskFault) }
    {
        match self.fate {
            Fate::Going => self.go_on(piece),
            Fate::Starved => Err(StandbyFault::NoMemory),
            Fate::Bad | Fate::Failed => Err(StandbyFault::Closed {
                at: self.position(),
            }),
        }
    }

    // Takes a piece of the stream where no fault came before.
    fn go_on(&mut self, piece: &[u8]) -> Result<u64, StandbyFault>
        requires { self.old.fate ≡ fates.Going }
        ensures told { OnOk result (told_of self.new ≡ followed (told_of self.old) piece.now) }
        ensures place { IfOk result (λ at. at ≡ self.new.at) }
        ensures logged { OnOk result (IsWellLogged self.new.list) }
        ensures going { OnOk result (self.new.fate ≡ fates.Going) }
        ensures leaves { OnOk result (Leaves (D.view self.new.disk) self.new.list self.new.at) }
        ensures bytes { OnOk result (Reads (D.view self.new.disk) self.new.at (bytes_with (log_to (D.view self.old.disk) self.old.at) (told_of self.old) piece.now)) }
        ensures ended { IfErr result (HasEnded D.view self.old piece.now self.new) }
        ensures any_moment { IsTrue (D.view self.old.disk).tells → Adds (D.view self.old.disk) (D.view self.new.disk) (λ c. HasSomeFrames (log_to (D.view self.old.disk) self.old.at) (told_of self.old) piece.now c.log) }
        ensures store { LeavesStore (D.view self.old.disk) (D.view self.new.disk) }
        ensures work { IsDeviceWork (D.view self.old.disk) (D.view self.new.disk) (IsErrOf result StandbyFault.DiskFault) }
    {
        match self.following.feed(piece) {
            Ok(()) => Ok(self.following.log.end()),
            Err(fault) => {
                self.fate = fate_of(fault);
                Err(fault)
            }
        }
    }

    /// The place behind the last whole frame, in bytes: the end of its log.
    pub fn position(&self) -> u64
        ensures { result ≡ self.now.at }
    {
        self.following.log.end()
    }

    /// How many bytes of a frame have come that isn't whole.
    pub fn rest(&self) -> u64
        ensures { result ≡ length self.now.begun }
    {
        self.following.begun.len() as u64
    }

    /// The index of the records of the whole frames.
    pub fn index(&self) -> &Index
        ensures { result.now ≡ self.now.list }
    {
        &self.following.index
    }

    /// Its disk, from which a store opens in its place.
    pub fn into_disk(self) -> D
        ensures disk { result ≡ self.disk }
        // Each crash leaves the whole frames, unless a device call or memory failed.
        ensures leaves { (self.fate ≡ fates.Going) ⊎ (self.fate ≡ fates.Bad) → Leaves (D.view result) self.list self.at }
    {
        self.following.disk
    }
}

// What has come of a standby after a fault of a feed.
fn fate_of(fault: StandbyFault) -> Fate
    ensures disk { fault ≡ StandbyFault.DiskFault → result ≡ Fate.Failed }
    ensures memory { fault ≡ StandbyFault.NoMemory → result ≡ Fate.Starved }
    ensures bad { (at : ℕ) → fault ≡ StandbyFault.BadStream at → result ≡ Fate.Bad }
{
    match fault {
        StandbyFault::DiskFault => Fate::Failed,
        StandbyFault::NoMemory => Fate::Starved,
        _ => Fate::Bad,
    }
}
