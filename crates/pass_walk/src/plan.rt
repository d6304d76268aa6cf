//! What a run keeps of its trace.
ghost use Rattle.std.specs.Prelude.{◌≡◌, ◌≤◌, ◌<◌, ◌+◌, [], ℕ, IfOk, Some, length, slice_get};
ghost use Rattle.pass_plain.specs.Traces.{Line as AnyLine};
ghost use Rattle.pass_trace.specs.declared.limits.Scale.TheVariants.{Long};
ghost use Rattle.pass_trace.specs.Limits.{most_lines};
ghost use Rattle.pass_trace.specs.TraceLines.{plain_trace};
ghost use Rattle.pass_replay.specs.Lines.{AreLinesBehind, IsLineAt, IsNextLine};
ghost use Rattle.pass_walk.specs.Lefts.{AreLefts, HasRoomFor, left_at};
ghost use Rattle.pass_walk.specs.Tables.{ArePlaces};

use crate::lefts::lefts_of;
use crate::places::Places;
use pass_hold::Whose;
use pass_proc::Trail;
use pass_trace::TraceLine;
use std::alloc::{AllocError, Global};
use std::marker::Model;

/// The lines of a trace, with where the lines of each process stand, and how many turns are left from each line on. Contracts see its lines.
#[derive(Drop)]
pub struct Plan<'a> {
    lines: &'a [TraceLine],
    places: Places,
    lefts: Vec<u64>,
}

impl<'a> Model for Plan<'a> {
    ghost use Rattle.std.specs.Prelude.{List, []};
    ghost use Rattle.std.specs.Coded.{codes};
    ghost use Rattle.pass_trace.specs.contracts.trace.TraceLine as line_type;
    ghost use Rattle.pass_trace.specs.declared.trace.TraceLine.{TraceLine as AnyLine};
    ghost use Rattle.pass_trace.specs.TraceLines.{plain_trace};
    ghost use Rattle.pass_replay.specs.Lines.{AreLinesBehind};
    ghost use Rattle.pass_walk.specs.Lefts.{AreLefts};
    ghost use Rattle.pass_walk.specs.Tables.{ArePlaces};

    ghost Value = { List AnyLine };

    ghost coded = { Prim.hlevel (codes, line_type.the_row.coded) };

    ghost view = { λ p. p.lines.now };

    ghost invariant = { λ p. AreLinesBehind [] (plain_trace p.lines.now) × ArePlaces (plain_trace p.lines.now) p.places × AreLefts (plain_trace p.lines.now) p.lefts.items };
}

/// The line at a place.
fn line_at<'a>(lines: &'a [TraceLine], place: usize) -> &'a TraceLine
    requires { place < length lines.now }
    ensures { slice_get lines.now place ≡ Some result.now }
{
    &lines[place]
}

/// How many turns are left from the line at a place on.
fn left_from(lefts: &[u64], place: usize) -> u64
    requires { place < length lefts.now }
    ensures { slice_get lefts.now place ≡ Some result }
{
    lefts[place]
}

impl<'a> Plan<'a> {
    /// The plan of a trace, which keeps the rules of traces.
    pub fn of(alloc: Global, lines: &'a [TraceLine]) -> Result<Plan<'a>, AllocError>
        requires ordered { AreLinesBehind [] (plain_trace lines.now) }
        requires few { length lines.now ≤ most_lines Long }
        ensures { IfOk result (λ plan. plan ≡ lines.now) }
    {
        let places = Places::of(alloc, lines)?;
        let lefts = lefts_of(alloc, lines)?;
        Ok(Plan {
            lines,
            places,
            lefts,
        })
    }

    /// Room for what the processes of the trace have seen at the end of a run, taken before its first entry.
    pub fn room<J: Whose>(&self, alloc: Global) -> Result<Vec<Trail<J>>, AllocError>
        ensures { IfOk result (λ room. HasRoomFor (plain_trace self.now) room) }
    {
        let most = self.left(1, self.first(1));
        Vec::with_capacity(alloc, most as usize)
    }

    /// Each line may stand behind those before it.
    pub fn ordered(&self)
        ensures { AreLinesBehind [] (plain_trace self.now) }
    {
        let _lines = self.lines;
    }

    /// The place of the first line of a process.
    pub fn first(&self, process: u32) -> Option<usize>
        ensures { IsNextLine (plain_trace self.now) process 0 result }
    {
        self.places.first(process)
    }

    /// The place of the next line of the process of the line at a place.
    pub fn next(&self, place: usize) -> Option<usize>
        requires { place < length self.now }
        ensures { (l : AnyLine) → slice_get (plain_trace self.now) place ≡ Some l → IsNextLine (plain_trace self.now) l.process (place + 1) result }
    {
        self.places.next(place)
    }

    /// The line at a place.
    pub fn line(&self, place: usize) -> &'a TraceLine
        requires { place < length self.now }
        ensures { slice_get self.now place ≡ Some result.now }
    {
        line_at(self.lines, place)
    }

    /// How many turns are left to a process from its next line on.
    pub fn left(&self, process: u32, line: Option<usize>) -> u64
        requires { (done : ℕ) × IsLineAt (plain_trace self.now) process done line }
        ensures { result ≡ left_at (plain_trace self.now) process line }
    {
        match line {
            Some(place) => left_from(self.lefts.as_slice(), place),
            None => 1,
        }
    }
}
