//! The bytes of a store's log, sent to a standby.
ghost use Rattle.std.specs.Prelude.{◌≡◌, ◌≢◌, IsTrue, Some};
ghost use Rattle.pass_recover.specs.Faults.{LogHas};
ghost use Rattle.pass_recover.specs.Later.{IsLater, IsLeftAlone};
ghost use Rattle.pass_ask.specs.Answers.{is_reported};
ghost use Rattle.pass_ask.specs.Asked.{IsAskJudged, IsAnswerTo};
ghost use Rattle.pass_ask.specs.declared.words.Question.{Question};

use crate::judged::{Judged, refused};
use pass_outside::Disk;
use pass_standby::{SendFault, send};
use pass_status::{Status, opening_status};
use std::alloc::Global;

/// Judges the log of the store, and then the place from which it is to be sent.
pub fn judge_send<D: Disk>(alloc: Global, from: u64, disk: &mut D) -> Judged
    ensures judged { result.status ≢ Status.NoMemory → LogHas (D.view disk.old)
        (λ bytes. IsAskJudged (Some (Question.Send from)) (D.view disk.old) (D.view disk.new) bytes result.status
        × (result.status ≡ Status.Done → IsAnswerTo (Question.Send from) (D.view disk.old) bytes result.text.items)) }
    ensures reported { IsTrue (is_reported result.status) → result.status ≡ Status.Done }
    ensures unwritten { result.status ≢ Status.WriteFault }
    ensures alone { IsLeftAlone (D.view disk.old) (D.view disk.new) }
    ensures later { IsLater (D.view disk.old) (D.view disk.new) }
{
    let opened = disk.faults();
    match send(alloc, disk, from) {
        Ok(text) => Judged {
            status: Status::Done,
            text,
        },
        Err(SendFault::NoFrame) => refused(alloc, Status::NoFrame(from)),
        Err(SendFault::Unopened(fault)) => {
            refused(alloc, opening_status(fault, opened, disk.faults()))
        }
    }
}
