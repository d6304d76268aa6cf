//! How a call ends by its steps.
ghost use Rattle.std.specs.Prelude.{◌≡◌};
ghost use Rattle.pass_answer.specs.Endings.{answer_of};

use crate::answer::{CallEnd, Moved};
use pass_entry::CallFault;

/// The answer of a call whose steps came to this.
pub fn ended(steps: Result<Moved, CallFault>) -> Result<Moved, CallEnd>
    ensures { result ≡ answer_of steps }
{
    match steps {
        Ok(moved) => Ok(moved),
        Err(fault) => Err(CallEnd::Fault(fault)),
    }
}
