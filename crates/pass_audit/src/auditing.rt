//! The leaves of an archive, judged by a log.
ghost use Rattle.std.specs.Prelude.{◌≡◌, ◌<◌, ◌++◌, ◌∷◌, [], ℕ, List, IfOk, OnOk, IfSome, is_some, true, Some};
ghost use Rattle.std.specs.Ordering.{nat_cmp};
ghost use Rattle.std.specs.BTreeMap.{get};
ghost use Rattle.pass_entry.specs.declared.record.Record.{Record as AnyRecord};
ghost use Rattle.pass_leaf.specs.Leaves.{Leaf as AnyLeaf};
ghost use Rattle.pass_leaf.specs.Contents.{laid, last_content, last_version};
ghost use Rattle.pass_audit.specs.Audits.{all_judged, log_at, verdict_on};
ghost use Rattle.pass_audit.specs.Courses.{AreCourses, AreFresh, HasCome, own_steps, step_in as step_in_record};
ghost use Rattle.pass_audit.specs.declared.steps.Step.{Step as AnyStep};

use crate::course::Course;
use crate::steps::{Step, step_in};
use crate::verdict::{Judged, Verdict};
use pass_entry::{Pnode, Record};
use pass_leaf::{Leaf, Leaves};
use std::alloc::{AllocError, Global};
use std::collections::BTreeMap;

// The file has a course.
fn meet(
    alloc: Global,
    courses: &mut BTreeMap<Pnode, Course>,
    pnode: Pnode,
) -> Result<(), AllocError>
    ensures met { OnOk result (is_some (get nat_cmp courses.new pnode) ≡ true) }
    ensures fresh { OnOk result ((own : ℕ → List AnyStep) → AreFresh own courses.old → AreFresh own courses.new) }
{
    if courses.contains_key(&pnode) {
        return Ok(());
    }
    courses.insert(pnode, Course::new(alloc))?;
    Ok(())
}

// One record more, which says that step of the file.
fn add(
    alloc: Global,
    courses: &mut BTreeMap<Pnode, Course>,
    pnode: Pnode,
    step: Step,
) -> Result<(), AllocError>
    ensures { OnOk result ((list : List AnyRecord) (one : AnyRecord) → step_in_record one ≡ Some (pnode, step) → AreFresh (λ file. own_steps file list) courses.old
        → AreFresh (λ file. own_steps file (list ++ one ∷ [])) courses.new) }
{
    meet(alloc, courses, pnode)?;
    match courses.get_mut(&pnode) {
        Some(course) => course.push(step),
        None => Ok(()),
    }
}

// One record more.
fn note(
    alloc: Global,
    courses: &mut BTreeMap<Pnode, Course>,
    one: &Record,
) -> Result<(), AllocError>
    ensures { OnOk result ((list : List AnyRecord) → AreFresh (λ file. own_steps file list) courses.old → AreFresh (λ file. own_steps file (list ++ one.now ∷ [])) courses.new) }
{
    match step_in(one) {
        Some((pnode, step)) => add(alloc, courses, pnode, step),
        None => Ok(()),
    }
}

// The courses of all files of which the records say something.
fn courses_of(alloc: Global, records: &[Record]) -> Result<BTreeMap<Pnode, Course>, AllocError>
    ensures { IfOk result (AreCourses records.now []) }
{
    let mut courses = BTreeMap::new(alloc);
    for one in records {
        note(alloc, &mut courses, one)?;
    }
    Ok(courses)
}

// What the log says of the next leaf.
fn judge(courses: &mut BTreeMap<Pnode, Course>, leaf: &Leaf) -> Result<Judged, AllocError>
    requires { IfSome (get nat_cmp courses.old leaf.now.node.pnode) (HasCome leaf.now.node.version) }
    ensures { IfOk result (λ judged. (list : List AnyRecord) (past : List AnyLeaf) → AreCourses list past courses.old → last_version past leaf.now.node.pnode < leaf.now.node.version
        → (judged ≡ record { node = leaf.now.node; verdict = verdict_on (log_at list leaf.now.node) leaf.now.node (laid (last_content past leaf.now.node.pnode) leaf.now) })
        × AreCourses list (past ++ leaf.now ∷ []) courses.new) }
{
    let node = leaf.node();
    match courses.get_mut(&node.pnode) {
        Some(course) => {
            let verdict = course.judge(leaf)?;
            Ok(Judged { node, verdict })
        }
        None => Ok(Judged {
            node,
            verdict: Verdict::Unknown,
        }),
    }
}

/// What a log says of each leaf of an archive, in order. It goes through the log once.
pub fn audit(alloc: Global, records: &[Record], leaves: &Leaves) -> Result<Vec<Judged>, AllocError>
    ensures { IfOk result (λ all. all.items ≡ all_judged records.now leaves.now) }
{
    let mut courses = courses_of(alloc, records)?;
    let mut all = Vec::new(alloc);
    for leaf in leaves.list() {
        let judged = judge(&mut courses, leaf)?;
        all.push(judged)?;
    }
    Ok(all)
}
