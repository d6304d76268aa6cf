//! The records of a history, by one walk over it.
ghost use Rattle.std.specs.Prelude.{◌≡◌, ◌++◌, ◌∷◌, [], IfOk, OnOk};
ghost use Rattle.pass_plain.specs.Legal.{session_of};
ghost use Rattle.pass_plain.specs.Records.{records_of as records_of_session};
ghost use Rattle.pass_reference.specs.Walks.{IsWalk, HasVersions};

use crate::nodes::version_step;
use pass_entry::{Entry, Node, Record};
use pass_plain::{Recording, Start};
use std::alloc::{AllocError, Global};

/// A walk over the first entries of a history, with the node of each.
#[derive(Drop)]
pub struct Walk {
    pub nodes: Vec<Node>,
    pub recording: Recording,
}

impl Walk {
    fn new(alloc: Global, start: &Start) -> Result<Walk, AllocError>
        requires { HasVersions start.now }
        ensures { IfOk result (IsWalk start.now []) }
    {
        Ok(Walk {
            nodes: Vec::new(alloc),
            recording: Recording::new(alloc, start)?,
        })
    }

    /// Goes on with the entry behind a history.
    fn note(
        &mut self,
        alloc: Global,
        start: &Start,
        history: &[Entry],
        e: &Entry,
    ) -> Result<(), AllocError>
        requires { IsWalk start.now history.now self.old }
        ensures { OnOk result (IsWalk start.now (history.now ++ e.now ∷ []) self.new) }
    {
        let step = version_step(start, history, &self.nodes, e);
        self.recording.note(alloc, start, history, e, &step)?;
        self.nodes.push(step.node)?;
        Ok(())
    }
}

/// The records of the entries of a history, in order.
pub fn records_of(
    alloc: Global,
    start: &Start,
    history: &[Entry],
) -> Result<Vec<Record>, AllocError>
    requires { HasVersions start.now }
    ensures { IfOk result (λ v. v.items ≡ records_of_session (session_of start.now 0) history.now) }
{
    let mut walk = Walk::new(alloc, start)?;
    for i in 0..history.len() {
        walk.note(alloc, start, &history[..i], &history[i])?;
    }
    let Walk { recording, .. } = walk;
    let Recording { list, .. } = recording;
    Ok(list)
}
