//! The processes of a run, by the places of their next calls in the trace.
ghost use Rattle.std.specs.Prelude.{◌≡◌, ◌≤◌, ◌<◌, ◌+◌, ◌∷◌, ◌++◌, ℕ, [], IfOk, IsPermutation, Some, length, map, slice_get, slice_set, true, vec_capacity, vec_len};
ghost use Rattle.std.specs.BinaryHeap.{IsHeap, heap_capacity, heap_items, heap_len};
ghost use Rattle.pass_trace.specs.TraceLines.{plain_trace};
ghost use Rattle.pass_walk.specs.declared.walker.Living.{Living as AnyLiving};
ghost use Rattle.pass_walk.specs.declared.walker.Walker.{Walker as AnyWalker};
ghost use Rattle.pass_walk.specs.declared.walker.Walker.TheVariants as kinds;
ghost use Rattle.pass_walk.specs.Runs.{trail_of};
ghost use Rattle.pass_walk.specs.Walkers.{HasWent, IsLivingOf, IsWalkerOf, WalkerWent, member_of};
ghost use Rattle.pass_walk.specs.Meetings.{KnowsIfEnded};
ghost use Rattle.pass_order.specs.declared.standing.Standing.{Standing as AnyStanding};
ghost use Rattle.pass_order.specs.Queues.{HasBegunAgain, HasJoined, IsAdded, IsAfterTry, AreAllStill, IsGoingOrGone, IsKidAdded, IsSet, IsSettled, IsStillWith, IsTaken, IsThere, kid_walkers, list_of, next_rank, next_standings, place_of, rank_order, room_in, tried_of, waits_if};

use crate::standing::{Standing, child_exit_behind, exit_behind, rank_at};
use pass_hold::Whose;
use pass_proc::Trail;
use pass_progress::Calls;
use pass_sched::Turn;
use pass_walk::{Cause, Ground, Living, Walker, Went, step};
use std::alloc::{AllocError, Global};
use std::collections::BinaryHeap;
use std::mem;

/// The processes in the order of their births; those whose next call is to be tried; and those whose call was tried since the last entry,
/// and waits.
#[derive(Drop)]
pub(crate) struct Queue<J: Whose> {
    walkers: Vec<Walker<J>>,
    due: BinaryHeap<Standing>,
    late: Vec<Standing>,
    /// The place of the process that was tried last, which has seen what all others have.
    last: usize,
}

/// What the try of a call comes to.
#[derive(Clone, Copy)]
pub(crate) enum Tried {
    /// The history is longer, or the call is over.
    Made,
    /// The call waits, and made no entry.
    Waits,
    /// All that live wait since the last entry.
    Nothing,
    /// Its process is left.
    Failed(Cause),
}

impl<J: Whose> Queue<J> {
    /// Room for so many processes. No step takes memory of its own.
    pub(crate) fn with_room(alloc: Global, most: usize) -> Result<Queue<J>, AllocError>
        ensures empty { IfOk result (λ q. (q.walkers.items ≡ []) × (heap_items q.due ≡ []) × (q.late.items ≡ []) × (q.last ≡ 0)) }
        ensures lengths { IfOk result (λ q. (vec_len q.walkers ≡ 0) × (heap_len q.due ≡ 0) × (vec_len q.late ≡ 0)) }
        ensures heap { IfOk result (λ q. IsHeap rank_order (heap_items q.due)) }
        ensures room { IfOk result (λ q. (most ≤ vec_capacity q.walkers) × (most ≤ heap_capacity q.due) × (most ≤ vec_capacity q.late)) }
    {
        let walkers = Vec::with_capacity(alloc, most)?;
        let due = BinaryHeap::with_capacity(alloc, most)?;
        let late = Vec::with_capacity(alloc, most)?;
        Ok(Queue {
            walkers,
            due,
            late,
            last: 0,
        })
    }

    /// Puts a process behind the others, whose next call has this rank.
    pub(crate) fn add(&mut self, living: Living<J>, rank: u128)
        requires room { (vec_len self.old.walkers < vec_capacity self.old.walkers) × (heap_len self.old.due < heap_capacity self.old.due) }
        ensures { IsAdded living rank self.old self.new }
    {
        let place = self.walkers.len();
        self.walkers.push_reserved(Walker::Living(living));
        stand(
            &mut self.due,
            Standing {
                rank,
                place,
                seen: 0,
            },
        );
    }

    /// Tries the next call in the order of the text.
    pub(crate) fn try_next<'a, S: Calls<J>>(&mut self, ground: &Ground<'a, S>) -> Tried
        requires { IsSet J.book.session (plain_trace ground.now.plan.now) self.old }
        ensures goes { IsAfterTry J.book.session J.places (plain_trace ground.now.plan.now) result self.new }
        ensures room { room_in (plain_trace ground.now.plan.now) self.new.walkers.items ≤ room_in (plain_trace ground.now.plan.now) self.old.walkers.items }
    {
        match self.due.pop() {
            Some(standing) => self.try_at(standing, ground),
            None => Tried::Nothing,
        }
    }

    /// Tries the next call of a process, once it has seen what the one before has.
    fn try_at<'a, S: Calls<J>>(&mut self, standing: Standing, ground: &Ground<'a, S>) -> Tried
        requires { IsTaken J.book.session (plain_trace ground.now.plan.now) standing self.old }
        ensures goes { IsAfterTry J.book.session J.places (plain_trace ground.now.plan.now) result self.new }
        ensures room { room_in (plain_trace ground.now.plan.now) self.new.walkers.items ≤ room_in (plain_trace ground.now.plan.now) self.old.walkers.items }
    {
        ground.plan.ordered();
        let mut living = self.take(standing.place);
        come_on(&mut living, &mut self.walkers[self.last], ground);
        self.last = standing.place;
        let seen = living.proc.seen();
        let line = living.line;
        let went = turned(living, ground);
        match self.settle(standing, line, seen, went) {
            Tried::Made => {
                self.begin_again();
                Tried::Made
            }
            tried => tried,
        }
    }

    /// Takes a living process out of its place.
    fn take(&mut self, place: usize) -> Living<J>
        requires { (l : AnyLiving _) × (slice_get self.old.walkers.items place ≡ Some (kinds.Living l)) }
        ensures was { slice_get self.old.walkers.items place ≡ Some (kinds.Living result) }
        ensures gone { self.new.walkers.items ≡ slice_set self.old.walkers.items place kinds.Gone }
        ensures room { vec_capacity self.new.walkers ≡ vec_capacity self.old.walkers }
        ensures rest { (self.new.due ≡ self.old.due) × (self.new.late ≡ self.old.late) × (self.new.last ≡ self.old.last) }
    {
        match mem::replace(&mut self.walkers[place], Walker::Gone) {
            Walker::Living(living) => living,
            _ => unreachable!(),
        }
    }

    /// Puts the process that stood there back, as its turn left it, and its child behind the others. Before the turn it had seen so much,
    /// and stood at this line.
    fn settle(&mut self, standing: Standing, line: Option<usize>, seen: u64, went: Went<J>) -> Tried
        requires place { standing.place < length self.old.walkers.items }
        requires late { vec_len self.old.late + length (next_standings went.walker went.answer standing (place_of line)) ≤ vec_capacity self.old.late }
        requires walkers { vec_len self.old.walkers + length (kid_walkers went.kid) ≤ vec_capacity self.old.walkers }
        requires due { heap_len self.old.due + length (kid_walkers went.kid) ≤ heap_capacity self.old.due }
        ensures settled { IsSettled standing (place_of line) went self.old self.new }
        ensures tried { result ≡ tried_of went.walker went.answer seen }
    {
        let Went {
            walker,
            answer,
            kid,
        } = went;
        let tried = come_to(&walker, answer, seen);
        let place = place_in(line);
        let next = next_standing(&walker, answer, standing, place);
        put_late(&mut self.late, next);
        drop(mem::replace(&mut self.walkers[standing.place], walker));
        self.add_kid(kid, place);
        tried
    }

    /// Puts a child behind the others, which the line at this place forks.
    fn add_kid(&mut self, kid: Option<Living<J>>, place: usize)
        requires walkers { vec_len self.old.walkers + length (kid_walkers kid) ≤ vec_capacity self.old.walkers }
        requires due { heap_len self.old.due + length (kid_walkers kid) ≤ heap_capacity self.old.due }
        ensures { IsKidAdded kid place self.old self.new }
    {
        if let Some(kid) = kid {
            let rank = rank_at(kid.line, child_exit_behind(place));
            self.add(kid, rank);
        }
    }

    /// All whose calls wait are to be tried again.
    pub(crate) fn begin_again(&mut self)
        requires { heap_len self.old.due + vec_len self.old.late ≤ heap_capacity self.old.due }
        ensures { HasBegunAgain self.old self.new }
    {
        while let Some(standing) = self.late.pop() {
            stand(&mut self.due, standing);
        }
    }

    /// Whether each process has made its exit.
    pub(crate) fn have_ended(&self) -> bool
        ensures { result ≡ true → (i : ℕ) (w : AnyWalker _) → slice_get self.now.walkers.items i ≡ Some w → (member_of w).ended ≡ true }
    {
        all_ended(self.walkers.as_slice())
    }

    /// Whether all that live have seen as much as the last one, as they were tried, and those that have ended no more.
    pub(crate) fn are_still(&self) -> bool
        requires last { self.now.last < length self.now.walkers.items }
        requires knows { (i : ℕ) (w : AnyWalker _) → slice_get self.now.walkers.items i ≡ Some w → KnowsIfEnded w }
        ensures { result ≡ true → (count : ℕ) × AreAllStill self.now.walkers.items self.now.late.items count }
    {
        match &self.walkers[self.last] {
            Walker::Living(living) => {
                let count = living.proc.seen();
                all_still(self.walkers.as_slice(), count) && all_tried(self.late.as_slice(), count)
            }
            _ => false,
        }
    }

    /// What they had seen.
    pub(crate) fn into_trails(self, room: Vec<Trail<J>>) -> Vec<Trail<J>>
        requires room { (room.items ≡ []) × (vec_len self.walkers ≤ vec_capacity room) }
        requires each { (i : ℕ) (w : AnyWalker _) → slice_get self.walkers.items i ≡ Some w → IsThere w }
        ensures { result.items ≡ map (λ w. trail_of (member_of w)) self.walkers.items }
    {
        let Queue { walkers, .. } = self;
        let mut trails = room;
        for walker in walkers {
            trails.push_reserved(into_trail(walker));
        }
        trails
    }
}

/// Puts one more before its call, for which there is room.
fn stand(due: &mut BinaryHeap<Standing>, standing: Standing)
    requires { heap_len due.old < heap_capacity due.old }
    ensures items { IsPermutation (standing ∷ heap_items due.old) (heap_items due.new) }
    ensures heap { IsHeap rank_order (heap_items due.old) → IsHeap rank_order (heap_items due.new) }
    ensures count { heap_len due.new ≡ heap_len due.old + 1 }
    ensures room { heap_capacity due.old ≤ heap_capacity due.new }
{
    let _ = due.push(standing);
}

/// Puts one more among those that wait, for which there is room.
fn put_late(late: &mut Vec<Standing>, next: Option<Standing>)
    requires { vec_len late.old + length (list_of next) ≤ vec_capacity late.old }
    ensures items { late.new.items ≡ late.old.items ++ list_of next }
    ensures count { vec_len late.new ≡ vec_len late.old + length (list_of next) }
    ensures room { vec_capacity late.new ≡ vec_capacity late.old }
{
    if let Some(next) = next {
        late.push_reserved(next);
    }
}

/// A process comes to one history with the one that was tried last. Where that is itself, nothing is there.
fn come_on<'a, J: Whose, S: Calls<J>>(
    living: &mut Living<J>,
    last: &mut Walker<J>,
    ground: &Ground<'a, S>,
)
    requires living { IsLivingOf J.book.session (plain_trace ground.now.plan.now) living.old }
    requires last { IsGoingOrGone J.book.session (plain_trace ground.now.plan.now) last.old }
    ensures { HasJoined J.book.session (plain_trace ground.now.plan.now) living.old last.old living.new last.new }
{
    match last {
        Walker::Living(other) => living.join_living(other, ground),
        Walker::Ended(ended) => living.join(ended, ground),
        _ => {}
    }
}

/// Takes the turn of a process, where it lies if that is the call of a line.
fn turned<'a, J: Whose, S: Calls<J>>(living: Living<J>, ground: &Ground<'a, S>) -> Went<J>
    requires { IsLivingOf J.book.session (plain_trace ground.now.plan.now) living }
    ensures { HasWent J.book.session J.places (plain_trace ground.now.plan.now) living result }
{
    let mut walker = Walker::Living(living);
    match step(&mut walker, ground) {
        Some(answer) => Went {
            walker,
            answer,
            kid: None,
        },
        None => turned_out(walker, ground),
    }
}

/// The turn of a process that is no call of a line.
fn turned_out<'a, J: Whose, S: Calls<J>>(walker: Walker<J>, ground: &Ground<'a, S>) -> Went<J>
    requires walker { IsWalkerOf J.book.session J.places (plain_trace ground.now.plan.now) walker }
    requires living { (l : AnyLiving _) × (walker ≡ kinds.Living l) }
    ensures { WalkerWent J.book.session J.places (plain_trace ground.now.plan.now) walker result }
{
    match walker {
        Walker::Living(living) => living.turn(ground),
        _ => unreachable!(),
    }
}

/// What a turn comes to, before which its process had seen so much.
fn come_to<J: Whose>(walker: &Walker<J>, answer: Turn, seen: u64) -> Tried
    ensures { result ≡ tried_of walker.now answer seen }
{
    match walker {
        Walker::Left(left) => Tried::Failed(left.cause),
        Walker::Living(living) => waits_or_made(answer, living.proc.seen() == seen),
        _ => Tried::Made,
    }
}

/// What the turn of a process comes to that lives, which has seen as much as before it, or more.
fn waits_or_made(answer: Turn, same: bool) -> Tried
    ensures { result ≡ waits_if answer same }
{
    match answer {
        Turn::Waiting if same => Tried::Waits,
        _ => Tried::Made,
    }
}

/// The place of a line.
fn place_in(line: Option<usize>) -> usize
    ensures { result ≡ place_of line }
{
    line.unwrap_or(0)
}

/// Where a process stands after a turn, at the line at this place.
fn next_standing<J: Whose>(
    walker: &Walker<J>,
    answer: Turn,
    standing: Standing,
    place: usize,
) -> Option<Standing>
    ensures { list_of result ≡ next_standings walker.now answer standing place }
{
    match walker {
        Walker::Living(living) => Some(Standing {
            rank: rank_behind(answer, living.line, standing.rank, place),
            place: standing.place,
            seen: living.proc.seen(),
        }),
        _ => None,
    }
}

/// The rank of the next call of a process, which is at this line after a turn.
fn rank_behind(answer: Turn, line: Option<usize>, rank: u128, place: usize) -> u128
    ensures { result ≡ next_rank answer line rank place }
{
    match answer {
        Turn::Moved => rank_at(line, exit_behind(place)),
        _ => rank,
    }
}

/// Whether a process has made its exit.
fn has_ended<J: Whose>(walker: &Walker<J>) -> bool
    ensures { result ≡ true → (member_of walker.now).ended ≡ true }
{
    match walker {
        Walker::Ended(_) => true,
        _ => false,
    }
}

/// Whether each of these has made its exit.
fn all_ended<J: Whose>(walkers: &[Walker<J>]) -> bool
    ensures { result ≡ true → (i : ℕ) (w : AnyWalker _) → slice_get walkers.now i ≡ Some w → (member_of w).ended ≡ true }
{
    for place in 0..walkers.len() {
        if !has_ended(&walkers[place]) {
            return false;
        }
    }
    true
}

/// Whether each goes on no more, where so much was seen.
fn all_still<J: Whose>(walkers: &[Walker<J>], count: u64) -> bool
    requires { (i : ℕ) (w : AnyWalker _) → slice_get walkers.now i ≡ Some w → KnowsIfEnded w }
    ensures { result ≡ true → (i : ℕ) (w : AnyWalker _) → slice_get walkers.now i ≡ Some w → IsStillWith count w }
{
    for place in 0..walkers.len() {
        if !is_still(&walkers[place], count) {
            return false;
        }
    }
    true
}

/// Whether each was tried where so much was seen.
fn all_tried(late: &[Standing], count: u64) -> bool
    ensures { result ≡ true → (i : ℕ) (s : AnyStanding) → slice_get late.now i ≡ Some s → s.seen ≡ count }
{
    for place in 0..late.len() {
        if !was_tried(&late[place], count) {
            return false;
        }
    }
    true
}

/// Whether the call of a process was tried where so much was seen.
fn was_tried(standing: &Standing, count: u64) -> bool
    ensures { result ≡ true → standing.now.seen ≡ count }
{
    standing.seen == count
}

/// Whether a process goes on no more, where so much was seen.
fn is_still<J: Whose>(walker: &Walker<J>, count: u64) -> bool
    requires { KnowsIfEnded walker.now }
    ensures { result ≡ true → IsStillWith count walker.now }
{
    match walker {
        Walker::Living(living) => living.proc.seen() == count,
        Walker::Ended(ended) => ended.has_seen(count),
        _ => false,
    }
}

fn into_trail<J: Whose>(walker: Walker<J>) -> Trail<J>
    requires { IsThere walker }
    ensures { result ≡ trail_of (member_of walker) }
{
    match walker {
        Walker::Living(living) => {
            let Living { proc, .. } = living;
            proc.set_aside()
        }
        Walker::Ended(ended) => ended.trail,
        Walker::Left(left) => left.trail,
        Walker::Gone => unreachable!(),
    }
}
