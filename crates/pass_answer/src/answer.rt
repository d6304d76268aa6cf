//! What a call answers.
use pass_book::Full;
use pass_entry::{CallFault, Node, Pnode};
use std::alloc::AllocError;

/// What a call came to that went through.
#[derive(Clone, Copy, PartialEq, Eq, Drop)]
pub enum Moved {
    /// It is done, and there is nothing to tell.
    Done,
    /// The object that was made or opened.
    Made(Pnode),
    /// So many bytes were read, from this node. They are the process's last read ones.
    Read { len: u32, from: Node },
    /// So many bytes were written, to this node.
    Wrote { len: u32, to: Node },
    /// The new version of the object.
    Frozen(Node),
    /// The entries up to there are durable, as the device had had so many calls.
    Synced { calls: u64, entries: u64 },
}

/// Why a call ended otherwise.
#[derive(Clone, Copy, PartialEq, Eq, Drop)]
pub enum CallEnd {
    /// The fault that the call's last entry carries.
    Fault(CallFault),
    /// The object was not ready as the process looked.
    Again,
    /// A call of the device failed: its count of faults as the store was opened, and a later one.
    DiskFault { opened: u64, now: u64 },
    /// The call needs more places for entries than were left as the process looked.
    Full { left: u32, need: u32 },
    /// Memory was refused.
    NoMemory,
}

impl From<AllocError> for CallEnd {
    ghost use Rattle.pass_answer.specs.declared.answer.CallEnd.TheVariants.{NoMemory};
    ghost use Rattle.std.specs.Prelude.{◌≡◌};

    ghost from_gives = { λ _ end. end ≡ NoMemory };

    fn from(_refused: AllocError) -> CallEnd {
        CallEnd::NoMemory
    }
}

impl From<Full> for CallEnd {
    ghost use Rattle.pass_answer.specs.declared.answer.CallEnd.TheVariants as ends;
    ghost use Rattle.std.specs.Prelude.{◌≡◌};

    ghost from_gives = { λ full end. end ≡ ends.Full full.left full.need };

    fn from(full: Full) -> CallEnd {
        CallEnd::Full {
            left: full.left,
            need: full.need,
        }
    }
}

impl From<CallFault> for CallEnd {
    ghost use Rattle.pass_answer.specs.declared.answer.CallEnd.TheVariants as ends;
    ghost use Rattle.std.specs.Prelude.{◌≡◌};

    ghost from_gives = { λ fault end. end ≡ ends.Fault fault };

    fn from(fault: CallFault) -> CallEnd {
        CallEnd::Fault(fault)
    }
}
