//! Patterns of paths, and what they match.
ghost use Rattle.std.specs.Prelude.{◌≡◌, ◌≢◌, ℕ, List, Ok, Err, IfErr, IfOk, IsTrue, Some};
ghost use Rattle.pass_pattern.specs.Patterns.{shape_of};
ghost use Rattle.pass_recover.specs.Faults.{LogHas};
ghost use Rattle.pass_recover.specs.Later.{IsLater, IsLeftAlone};
ghost use Rattle.pass_ask.specs.Answers.{is_reported};
ghost use Rattle.pass_ask.specs.Asked.{IsAskJudged, IsAnswerTo, IsPatternStatus, IsPut};
ghost use Rattle.pass_ask.specs.Matches.{IsOfShape};
ghost use Rattle.pass_ask.specs.Questions.{IsToldOver};
ghost use Rattle.pass_ask.specs.declared.words.Question.{Question};

use crate::judged::{Judged, refused, told};
use crate::opening::open_index;
use crate::pattern_text::PatternText;
use pass_entry::Node;
use pass_outside::Disk;
use pass_pattern::{Pattern, PatternFault, answer, parse_pattern};
use pass_query::Form;
use pass_status::{Status, opening_status};
use pass_waldo::Index;
use std::alloc::Global;

/// Judges the pattern's text, and then what the graph of the log answers.
pub fn judge_match<D: Disk>(
    alloc: Global,
    from: Node,
    text: &PatternText,
    form: Form,
    disk: &mut D,
) -> Judged
    ensures judged { result.status ≢ Status.NoMemory → LogHas (D.view disk.old)
        (λ bytes. IsAskJudged (Some (Question.Match from text.now form)) (D.view disk.old) (D.view disk.new) bytes result.status
        × (result.status ≡ Status.Done → IsAnswerTo (Question.Match from text.now form) (D.view disk.old) bytes result.text.items)) }
    ensures reported { IsTrue (is_reported result.status) → result.status ≡ Status.Done }
    ensures unwritten { result.status ≢ Status.WriteFault }
    ensures unopened { ¬ IsPut (Some (Question.Match from text.now form)) → disk.new ≡ disk.old }
    ensures alone { IsLeftAlone (D.view disk.old) (D.view disk.new) }
    ensures later { IsLater (D.view disk.old) (D.view disk.new) }
{
    match read_pattern(alloc, text) {
        Ok(pattern) => judge_pattern(alloc, from, &pattern, form, disk),
        Err(status) => refused(alloc, status),
    }
}

/// Judges the pattern's text, and then what the graph of an index answers.
pub fn match_answer(
    alloc: Global,
    index: &Index,
    from: Node,
    text: &PatternText,
    form: Form,
) -> Judged
    ensures over { IsToldOver index.now (Some (Question.Match from text.now form)) result.status result.text.items }
    ensures unwritten { result.status ≢ Status.WriteFault }
{
    match read_pattern(alloc, text) {
        Ok(pattern) => told(alloc, answer(alloc, index, from, &pattern, form)),
        Err(status) => refused(alloc, status),
    }
}

// The pattern of the text, or the status that refuses it.
fn read_pattern(alloc: Global, text: &PatternText) -> Result<Pattern, Status>
    ensures pattern { IfOk result (λ p. IsOfShape text.now (shape_of p)) }
    ensures refused { IfErr result (IsPatternStatus text.now) }
{
    match parse_pattern(alloc, text.as_bytes()) {
        Ok(pattern) => Ok(pattern),
        Err(PatternFault::NoMemory) => Err(Status::NoMemory),
        Err(PatternFault::Long) => Err(Status::BadPattern(PatternFault::Long)),
        Err(PatternFault::Bad { at }) => Err(Status::BadPattern(PatternFault::Bad { at })),
    }
}

// Opens the log, and judges what its graph answers.
fn judge_pattern<D: Disk>(
    alloc: Global,
    from: Node,
    pattern: &Pattern,
    form: Form,
    disk: &mut D,
) -> Judged
    ensures judged { (text : List ℕ) → IsOfShape text (shape_of pattern.now) → result.status ≢ Status.NoMemory → LogHas (D.view disk.old)
        (λ bytes. IsAskJudged (Some (Question.Match from text form)) (D.view disk.old) (D.view disk.new) bytes result.status
        × (result.status ≡ Status.Done → IsAnswerTo (Question.Match from text form) (D.view disk.old) bytes result.text.items)) }
    ensures reported { IsTrue (is_reported result.status) → result.status ≡ Status.Done }
    ensures unwritten { result.status ≢ Status.WriteFault }
    ensures alone { IsLeftAlone (D.view disk.old) (D.view disk.new) }
    ensures later { IsLater (D.view disk.old) (D.view disk.new) }
{
    let opened = disk.faults();
    match open_index(alloc, disk) {
        Ok(index) => told(alloc, answer(alloc, &index, from, pattern, form)),
        Err(fault) => refused(alloc, opening_status(fault, opened, disk.faults())),
    }
}
