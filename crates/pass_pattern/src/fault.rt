//! Why a text is no pattern.
use std::alloc::AllocError;

/// Why a text is no pattern.
#[derive(Clone, Copy, PartialEq, Eq, Drop)]
pub enum PatternFault {
    /// It has more than 255 bytes, or more than 64 nested parentheses.
    Long,
    /// No pattern has this text; `at` is the length of the longest beginning of it with which some pattern begins.
    Bad { at: u64 },
    /// Memory was refused.
    NoMemory,
}

impl From<AllocError> for PatternFault {
    ghost use Rattle.pass_pattern.specs.declared.fault.PatternFault.TheVariants.{NoMemory};
    ghost use Rattle.std.specs.Prelude.{◌≡◌};

    ghost from_gives = { λ _ fault. fault ≡ NoMemory };

    fn from(_refused: AllocError) -> PatternFault {
        PatternFault::NoMemory
    }
}
