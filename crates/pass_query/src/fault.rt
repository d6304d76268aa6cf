//! Why a query has no answer.
use pass_entry::Node;
use std::alloc::AllocError;

/// Why a query on nodes has no answer.
#[derive(Clone, Copy, PartialEq, Eq, Drop)]
pub enum QueryFault {
    /// The first given node that is no version of an object of the log.
    NoObject(Node),
    /// Memory was refused.
    NoMemory,
}

impl From<AllocError> for QueryFault {
    ghost use Rattle.pass_query.specs.declared.fault.QueryFault.TheVariants.{NoMemory};
    ghost use Rattle.std.specs.Prelude.{◌≡◌};

    ghost from_gives = { λ _ fault. fault ≡ NoMemory };

    fn from(_refused: AllocError) -> QueryFault {
        QueryFault::NoMemory
    }
}
