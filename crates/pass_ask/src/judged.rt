//! What was judged of a question, before any of it is written.
ghost use Rattle.std.specs.Prelude.{◌≡◌, ◌≢◌, IsTrue};
ghost use Rattle.pass_ask.specs.Answers.{is_reported};
ghost use Rattle.pass_ask.specs.Asked.{IsGiven};

use pass_query::QueryFault;
use pass_status::Status;
use std::alloc::Global;

/// A status, and the text of Done.
#[derive(Drop)]
pub struct Judged {
    pub status: Status,
    pub text: Vec<u8>,
}

/// A status without a text of Done.
pub fn refused(alloc: Global, status: Status) -> Judged
    ensures { result.status ≡ status }
{
    Judged {
        status,
        text: Vec::new(alloc),
    }
}

/// What was answered.
pub fn told(alloc: Global, answer: Result<Vec<u8>, QueryFault>) -> Judged
    ensures given { IsGiven answer result.status result.text.items }
    ensures reported { IsTrue (is_reported result.status) → result.status ≡ Status.Done }
    ensures unwritten { result.status ≢ Status.WriteFault }
{
    match answer {
        Ok(text) => Judged {
            status: Status::Done,
            text,
        },
        Err(QueryFault::NoObject(node)) => refused(alloc, Status::NoObject(node)),
        Err(QueryFault::NoMemory) => refused(alloc, Status::NoMemory),
    }
}
