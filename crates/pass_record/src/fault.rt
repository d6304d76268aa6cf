//! Why no record stands at the front of bytes.
ghost use Rattle.std.specs.Prelude.{◌≡◌};
ghost use Rattle.pass_record.specs.declared.fault.RecordFault.TheVariants as fault;

use pass_num::Short;
use std::alloc::AllocError;

/// The first fault of the bytes: the tag is judged first, then the fields in order.
#[derive(Clone, Copy, PartialEq, Eq, Drop)]
pub enum RecordFault {
    /// A field has fewer bytes left than it has, or there are no bytes at all.
    Short = 1,
    /// The first byte is the tag of no record.
    Tag = 2,
    /// A field that is whole has a value outside its range.
    Value = 3,
    /// Memory was refused; this says nothing of the bytes.
    NoMemory = 4,
}

impl From<Short> for RecordFault {
    ghost from_gives = { λ _ e. e ≡ fault.Short };

    fn from(_short: Short) -> RecordFault {
        RecordFault::Short
    }
}

impl From<AllocError> for RecordFault {
    ghost from_gives = { λ _ e. e ≡ fault.NoMemory };

    fn from(_refused: AllocError) -> RecordFault {
        RecordFault::NoMemory
    }
}
