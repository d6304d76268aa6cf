//! Where the lines of each process stand in a trace.
ghost use Rattle.std.specs.Prelude.{◌≡◌, ◌<◌, Some, slice_get, IfOk, length};
ghost use Rattle.pass_trace.specs.TraceLines.{plain_trace};
ghost use Rattle.pass_replay.specs.Lines.{IsNextLine};
ghost use Rattle.pass_walk.specs.Tables.{ArePlaces};

use pass_trace::TraceLine;
use std::alloc::{AllocError, Global};
use std::collections::BTreeMap;

/// Where each process has its first line, and each line the next one of its process: the lines of a process are a list that
/// is linked through the trace.
#[derive(Drop)]
pub(crate) struct Places {
    firsts: BTreeMap<u32, usize>,
    nexts: Vec<Option<usize>>,
}

impl Places {
    /// Looks at each line once, the last one first.
    pub(crate) fn of(alloc: Global, lines: &[TraceLine]) -> Result<Places, AllocError>
        ensures { IfOk result (λ p. ArePlaces (plain_trace lines.now) p) }
    {
        let mut firsts = BTreeMap::new(alloc);
        let mut nexts = vec![in alloc; None; lines.len()]?;
        'lines: for place in (0..lines.len()).rev() {
            nexts[place] = firsts.insert(lines[place].process, place)?;
        }
        Ok(Places { firsts, nexts })
    }

    /// The place of the first line of a process.
    pub(crate) fn first(&self, process: u32) -> Option<usize>
        ensures { (lines : _) → ArePlaces lines self.now → IsNextLine lines process 0 result }
    {
        self.firsts.get(&process).copied()
    }

    /// The place of the next line of the process of the line at a place.
    pub(crate) fn next(&self, place: usize) -> Option<usize>
        requires { place < length self.now.nexts.items }
        ensures { slice_get self.now.nexts.items place ≡ Some result }
    {
        self.nexts[place]
    }
}
