//! What a store hands out that was closed.
ghost use Rattle.std.specs.Prelude.{◌≡◌, ◌≢◌, []};
ghost use Rattle.pass_walk.specs.declared.ends.Last.TheVariants.{Failed};
ghost use Rattle.pass_walk.specs.declared.ends.Cause.TheVariants.{TooFewPlaces, Refused};
ghost use Rattle.pass_run.specs.Closing.{status_of as status_by};

use crate::ending::RunEnd;
use pass_answer::CallEnd;
use pass_outside::Disk;
use pass_status::Status;
use pass_store::{Closed, Finished};
use pass_vault::Receipt;
use pass_walk::{Cause, Last};
use std::alloc::Global;

/// How a run ended, whose store was settled with this answer; `now` is the disk's count of faults.
fn status_of(last: Last, settled: &Result<Receipt, CallEnd>, now: u64) -> Status
    requires enough { last ≢ Failed TooFewPlaces }
    requires forked { last ≢ Failed Refused }
    ensures { result ≡ status_by now last settled.now }
{
    match settled {
        Ok(_receipt) => match last {
            Last::Done => Status::Done,
            Last::Stuck => Status::Stuck,
            Last::Failed(Cause::NoMemory | Cause::DiskFault { .. }) => Status::NoMemory,
            Last::Failed(Cause::TooFewPlaces | Cause::Refused) => unreachable!(),
        },
        Err(CallEnd::DiskFault { opened, .. }) => Status::DiskFault {
            opened: *opened,
            now,
        },
        Err(_end) => Status::NoMemory,
    }
}

/// The end of a run whose processes ended like that, and whose store was closed, without its report.
pub(crate) fn hand_out<D: Disk>(alloc: Global, last: Last, finished: Finished<D>) -> RunEnd<D>
    requires enough { last ≢ Failed TooFewPlaces }
    requires forked { last ≢ Failed Refused }
    ensures status { result.status ≡ status_by (D.view result.disk).faults last finished.settled }
    ensures silent { result.report.items ≡ [] }
    ensures history { result.history ≡ finished.closed.history }
    ensures syncs { result.syncs ≡ finished.closed.syncs }
    ensures list { result.list ≡ finished.closed.list }
    ensures start { result.start ≡ finished.closed.start }
    ensures disk { result.disk ≡ finished.closed.disk }
{
    let Finished { settled, closed } = finished;
    let Closed {
        history,
        syncs,
        list,
        start,
        disk,
    } = closed;
    let status = status_of(last, &settled, disk.faults());
    RunEnd {
        status,
        history,
        syncs,
        list,
        start,
        report: Vec::new(alloc),
        disk,
    }
}
