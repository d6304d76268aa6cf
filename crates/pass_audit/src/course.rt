//! A file of an archive, beside what a log says of it.
ghost use Rattle.std.specs.Prelude.{◌≡◌, ◌++◌, ◌∷◌, [], IfOk, OnOk};
ghost use Rattle.pass_leaf.specs.Contents.{laid};
ghost use Rattle.pass_audit.specs.Courses.{AreSure, verdict_by};

use crate::borne::is_borne_out;
use crate::doubts::doubt_leaf;
use crate::state::State;
use crate::steps::{Step, is_later};
use crate::verdict::Verdict;
use pass_leaf::{Leaf, lay};
use std::alloc::{AllocError, Global};
use std::collections::BTreeSet;

/// What a log says of a file, step for step; the place of the next step, the state there, the content of the file's last leaf, and the
/// blocks of it that the state may not bear out.
#[derive(Drop)]
pub(crate) struct Course {
    pub(crate) steps: Vec<Step>,
    pub(crate) next: usize,
    pub(crate) state: State,
    pub(crate) content: Vec<u8>,
    pub(crate) doubts: BTreeSet<u64>,
}

// What a state says of a version with a content.
fn verdict(state: &State, version: u64, content: &[u8], doubts: &mut BTreeSet<u64>) -> Verdict
    requires { AreSure state.now.rows content.now doubts.old }
    ensures verdict { result ≡ verdict_by state.now version content.now }
    ensures sure { AreSure state.now.rows content.now doubts.new }
{
    if !(state.is_file && state.version == version) {
        return Verdict::Unknown;
    }
    if is_borne_out(state, content, doubts) {
        Verdict::Borne
    } else {
        Verdict::Unlike
    }
}

impl Course {
    ghost use Rattle.std.specs.List.{before_first};
    ghost use Rattle.pass_audit.specs.Courses.{IsAfter, HasCome, is_later as is_later_step};

    /// A course without steps, behind no leaves.
    pub(crate) fn new(alloc: Global) -> Course
        ensures steps { result.steps.items ≡ [] }
        ensures next { result.next ≡ 0 }
        ensures state { IsAfter [] result.state }
        ensures content { result.content.items ≡ [] }
    {
        Course {
            steps: Vec::new(alloc),
            next: 0,
            state: State::new(alloc),
            content: Vec::new(alloc),
            doubts: BTreeSet::new(alloc),
        }
    }

    // Goes on to where a later version than this one begins.
    fn advance(&mut self, version: u64) -> Result<(), AllocError>
        requires { HasCome version self.old }
        ensures come { OnOk result (HasCome version self.new) }
        ensures state { OnOk result (IsAfter (before_first (is_later_step version) self.old.steps.items) self.new.state) }
        ensures steps { self.new.steps.items ≡ self.old.steps.items }
        ensures content { self.new.content ≡ self.old.content }
    {
        'further: while self.next < self.steps.len() {
            let step = self.steps[self.next];
            if is_later(version, &step) {
                return Ok(());
            }
            self.state.note(&step, &mut self.doubts)?;
            self.next += 1;
        }
        Ok(())
    }

    /// One step more, behind the others.
    pub(crate) fn push(&mut self, step: Step) -> Result<(), AllocError>
        ensures steps { OnOk result (self.new.steps.items ≡ self.old.steps.items ++ step ∷ []) }
        ensures next { self.new.next ≡ self.old.next }
        ensures state { self.new.state ≡ self.old.state }
        ensures content { self.new.content ≡ self.old.content }
    {
        self.steps.push(step)?;
        Ok(())
    }

    // Lays the file's next leaf over the content.
    fn lay(&mut self, leaf: &Leaf) -> Result<(), AllocError>
        requires { HasCome leaf.now.node.version self.old }
        ensures come { OnOk result (HasCome leaf.now.node.version self.new) }
        ensures content { OnOk result (self.new.content.items ≡ laid self.old.content.items leaf.now) }
        ensures state { self.new.state ≡ self.old.state }
        ensures steps { self.new.steps.items ≡ self.old.steps.items }
    {
        let size = self.content.len() as u64;
        lay(&mut self.content, leaf)?;
        doubt_leaf(&mut self.doubts, size, leaf)?;
        Ok(())
    }

    /// What the log says of the file's next leaf.
    pub(crate) fn judge(&mut self, leaf: &Leaf) -> Result<Verdict, AllocError>
        requires { HasCome leaf.now.node.version self.old }
        ensures verdict { IfOk result (λ v. v ≡ verdict_by self.new.state leaf.now.node.version self.new.content.items) }
        ensures state { OnOk result (IsAfter (before_first (is_later_step leaf.now.node.version) self.old.steps.items) self.new.state) }
        ensures content { OnOk result (self.new.content.items ≡ laid self.old.content.items leaf.now) }
        ensures come { OnOk result (HasCome leaf.now.node.version self.new) }
        ensures steps { self.new.steps.items ≡ self.old.steps.items }
    {
        let version = leaf.node().version;
        self.advance(version)?;
        self.lay(leaf)?;
        Ok(verdict(&self.state, version, &self.content, &mut self.doubts))
    }
}
