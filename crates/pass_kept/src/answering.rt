//! How a call over the vault ends.
ghost use Rattle.std.specs.Prelude.{◌≡◌};
ghost use Rattle.pass_safe.specs.Syncings.{end_of};
ghost use Rattle.pass_kept.specs.Stops.{answer_of};

use pass_answer::CallEnd;
use pass_safe::SafeFault;
use pass_vault::Receipt;

/// A fault of the vault, as a call answers it.
pub(crate) fn ended_by(fault: SafeFault) -> CallEnd
    ensures { result ≡ end_of fault }
{
    match fault {
        SafeFault::DiskFault { opened, now } => CallEnd::DiskFault { opened, now },
        SafeFault::NoMemory => CallEnd::NoMemory,
    }
}

/// How settling went, as a call answers it.
pub fn answered(settled: Result<Receipt, SafeFault>) -> Result<Receipt, CallEnd>
    ensures { result ≡ answer_of settled }
{
    match settled {
        Ok(receipt) => Ok(receipt),
        Err(fault) => Err(ended_by(fault)),
    }
}
