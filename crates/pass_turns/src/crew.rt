//! The processes of a run. Those that have ended are put aside, so that no pass takes longer for them.
ghost use Rattle.std.specs.Prelude.{◌≡◌, ◌≤◌, ◌<◌, ◌+◌, ◌++◌, ℕ, [], All, Contains, IfSome, IsNone, IsPermutation, List, None, Some, false, length, map, slice_get, sum_by, true, vec_capacity, vec_len};
ghost use Rattle.pass_trace.specs.declared.trace.TraceLine.{TraceLine as AnyLine};
ghost use Rattle.pass_walk.specs.Causes.{IsSeen};
ghost use Rattle.pass_turns.specs.Meetings.{AreLater, GoesOn, HasMetEnded};
ghost use Rattle.pass_turns.specs.Tasks.{task_room};
ghost use Rattle.pass_turns.specs.Turners.{AreAllStill, AreTasks, HasLeftFor, IsKnown, IsStill, TurnerState, task_trail};

use crate::meeting::meet_each;
use crate::task::Turner;
use pass_hold::Whose;
use pass_proc::Trail;
use pass_progress::Calls;
use pass_sched::{PassEnd, Passed, Task, run_all};
use pass_walk::Cause;
use std::alloc::{AllocError, Global};
use std::marker::Model;
use std::sync::Wait;
use std::thread::Threads;

/// Those that take turns, and behind them those that have ended.
#[derive(Drop)]
pub(crate) struct Crew<'a, J: Whose, S> {
    turning: Vec<Turner<'a, J, S>>,
    ended: Vec<Turner<'a, J, S>>,
}

impl<'a, J: Whose, S> Model for Crew<'a, J, S> {
    ghost use Rattle.std.specs.Prelude.{◌≡◌, ◌++◌, All, List};
    ghost use Rattle.std.specs.Coded.{codes};
    ghost use Rattle.pass_entry.specs.contracts.entry.Entry as entry_type;
    ghost use Rattle.pass_trace.specs.contracts.trace.TraceLine as line_type;
    ghost use Rattle.pass_turns.specs.Turners.{TurnerState};

    ghost Value = { List TurnerState };

    ghost coded = { Prim.hlevel (codes, entry_type.the_row.coded, line_type.the_row.coded) };

    ghost view = { λ crew. crew.turning.items ++ crew.ended.items };

    ghost invariant = { λ crew. All (λ t. t.left ≡ 0) crew.ended.items };
}

impl<'a, J: Whose, S: Calls<J>> Crew<'a, J, S> {
    /// These, of which none is put aside.
    pub(crate) fn new(alloc: Global, turning: Vec<Turner<'a, J, S>>) -> Crew<'a, J, S>
        ensures { result ≡ turning.entry.items }
    {
        Crew {
            turning,
            ended: Vec::new(alloc),
        }
    }

    /// Puts those aside that have ended since. Where the room for them is refused, none.
    pub(crate) fn put_aside(&mut self) -> Result<(), AllocError>
        ensures { IsPermutation self.old self.new }
    {
        self.ended.reserve(self.turning.len())?;
        set_apart(&mut self.turning, &mut self.ended);
        Ok(())
    }

    /// The first living one comes to one history with each that has ended.
    pub(crate) fn meet_ended(self) -> Crew<'a, J, S>
        ensures tasks { (lines : List AnyLine) (first : ℕ) → AreTasks lines first self.entry → AreTasks lines first result }
        ensures room { sum_by task_room result ≡ sum_by task_room self.entry }
        ensures met { (t : TurnerState) → Contains self.entry t → GoesOn t → HasMetEnded result }
    {
        let Crew {
            mut turning,
            mut ended,
        } = self;
        meet_all(&mut turning, &mut ended);
        Crew { turning, ended }
    }

    /// Whether some live, and none goes on.
    pub(crate) fn are_still(&self) -> bool
        ensures { result ≡ true → AreAllStill J.book.session self.now }
    {
        let Some((_, count)) = first_living(self.turning.as_slice()) else {
            return false;
        };
        all_still(self.turning.as_slice(), count) && all_still(self.ended.as_slice(), count)
    }

    /// Why one was left.
    pub(crate) fn cause(&self) -> Cause
        ensures { IsSeen result → HasLeftFor self.now result }
    {
        cause_of(self.turning.as_slice())
    }

    /// What they had seen.
    pub(crate) fn into_trails(self, room: Vec<Trail<J>>) -> Vec<Trail<J>>
        requires room { (room.items ≡ []) × (length self ≤ vec_capacity room) }
        ensures trails { result.items ≡ map task_trail self.entry }
        ensures known { All (IsKnown J.book.session J.places) self.entry }
    {
        let Crew { turning, ended } = self;
        let mut trails = room;
        add_trails(turning, &mut trails);
        add_trails(ended, &mut trails);
        trails
    }
}

impl<'a, J: Whose + Send, S: Calls<J> + Sync> Crew<'a, J, S> {
    /// Makes one pass over those that take turns.
    pub(crate) fn pass<R: Threads + Wait + Sync>(
        self,
        rt: &R,
        alloc: Global,
        workers: u32,
    ) -> (Crew<'a, J, S>, PassEnd)
        requires workers { (1 ≤ workers) × (workers ≤ 64) }
        ensures tasks { (lines : List AnyLine) (first : ℕ) → AreTasks lines first self.entry → AreTasks lines first result.0 }
        ensures room { sum_by task_room result.0 ≤ sum_by task_room self.entry }
        ensures ended { result.1 ≡ PassEnd.AllEnded → All (λ t. t.left ≡ 0) result.0 }
    {
        let Crew { turning, ended } = self;
        let Passed { tasks, end } = pass(rt, alloc, turning, workers);
        let crew = Crew {
            turning: tasks,
            ended,
        };
        (crew, end)
    }
}

/// Makes one pass.
fn pass<'a, R: Threads + Wait + Sync, J: Whose + Send, S: Calls<J> + Sync>(
    rt: &R,
    alloc: Global,
    tasks: Vec<Turner<'a, J, S>>,
    workers: u32,
) -> Passed<Turner<'a, J, S>>
    requires workers { (1 ≤ workers) × (workers ≤ 64) }
    ensures tasks { (lines : List AnyLine) (first : ℕ) (aside : List TurnerState) → All (λ t. t.left ≡ 0) aside
        → AreTasks lines first (tasks.entry.items ++ aside) → AreTasks lines first (result.tasks.items ++ aside) }
    ensures room { sum_by task_room result.tasks.items ≤ sum_by task_room tasks.entry.items }
    ensures ended { result.end ≡ PassEnd.AllEnded → All (λ t. t.left ≡ 0) result.tasks.items }
{
    run_all(rt, alloc, tasks, workers)
}

/// The first living one of the first ones comes to one history with each that has ended.
fn meet_all<'a, J: Whose, S: Calls<J>>(
    turning: &mut Vec<Turner<'a, J, S>>,
    ended: &mut Vec<Turner<'a, J, S>>,
)
    ensures tasks { (lines : List AnyLine) (first : ℕ) → AreTasks lines first (turning.old.items ++ ended.old.items) → AreTasks lines first (turning.new.items ++ ended.new.items) }
    ensures room { sum_by task_room (turning.new.items ++ ended.new.items) ≡ sum_by task_room (turning.old.items ++ ended.old.items) }
    ensures ended { AreLater ended.old.items ended.new.items }
    ensures met { (t : TurnerState) → Contains turning.old.items t → GoesOn t → HasMetEnded (turning.new.items ++ ended.new.items) }
{
    if let Some((place, _)) = first_living(turning.as_slice()) {
        let mut first = turning.swap_remove(place);
        meet_each(&mut first, turning);
        meet_each(&mut first, ended);
        turning.push_reserved(first);
    }
}

/// Moves those that have ended out of the first ones, behind the others, for which there is room.
fn set_apart<'a, J: Whose, S: Calls<J>>(
    turning: &mut Vec<Turner<'a, J, S>>,
    ended: &mut Vec<Turner<'a, J, S>>,
)
    requires room { vec_len ended.old + vec_len turning.old ≤ vec_capacity ended.old }
    ensures same { IsPermutation (turning.old.items ++ ended.old.items) (turning.new.items ++ ended.new.items) }
    ensures ended { All (λ t. t.left ≡ 0) ended.old.items → All (λ t. t.left ≡ 0) ended.new.items }
{
    let mut place = 0;
    while place < turning.len() {
        if turning[place].left() == 0 {
            ended.push_reserved(turning.swap_remove(place));
        } else {
            place += 1;
        }
    }
}

/// Puts what these had seen behind the others, for which there is room.
fn add_trails<'a, J: Whose, S: Calls<J>>(tasks: Vec<Turner<'a, J, S>>, trails: &mut Vec<Trail<J>>)
    requires room { vec_len trails.old + vec_len tasks ≤ vec_capacity trails.old }
    ensures trails { trails.new.items ≡ trails.old.items ++ map task_trail tasks.entry.items }
    ensures known { All (IsKnown J.book.session J.places) tasks.entry.items }
    ensures room { vec_capacity trails.old ≤ vec_capacity trails.new }
{
    for task in tasks {
        trails.push_reserved(task.into_trail());
    }
}

/// Why one was left.
fn cause_of<'a, J: Whose, S: Calls<J>>(tasks: &[Turner<'a, J, S>]) -> Cause
    ensures { IsSeen result → HasLeftFor tasks.now result }
{
    for place in 0..tasks.len() {
        if let Some(cause) = tasks[place].cause() {
            return cause;
        }
    }
    Cause::NoMemory
}

/// The place of the first living process, and how many entries it has seen.
fn first_living<'a, J: Whose, S: Calls<J>>(tasks: &[Turner<'a, J, S>]) -> Option<(usize, u64)>
    ensures some { IfSome result (λ found. (found.0 < length tasks.now) × ((t : TurnerState) → slice_get tasks.now found.0 ≡ Some t → (t.ended ≡ false) × (t.cause ≡ None))) }
    ensures none { IsNone result → All (λ t. GoesOn t → ⊥) tasks.now }
{
    for place in 0..tasks.len() {
        if let Some(count) = tasks[place].living() {
            return Some((place, count));
        }
    }
    None
}

/// Whether each goes on no more.
fn all_still<'a, J: Whose, S: Calls<J>>(tasks: &[Turner<'a, J, S>], count: u64) -> bool
    ensures { result ≡ true → All (IsStill J.book.session count) tasks.now }
{
    for place in 0..tasks.len() {
        if !tasks[place].is_still(count) {
            return false;
        }
    }
    true
}
