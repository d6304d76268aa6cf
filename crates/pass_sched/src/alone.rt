//! A pass on the caller's thread, in ascending order.
ghost use Rattle.std.specs.Prelude.{◌≡◌, ◌≢◌, ℕ, ◌+◌, ◌≤◌, ◌<◌, [], ◌∷◌, ◌++◌, List, true, not, nat_lt, filter, sum_by, IfOk, IfSome, IsPermutation, vec_len, vec_capacity};
ghost use Rattle.std.specs.BinaryHeap.{heap_len, heap_capacity};
ghost use Rattle.pass_sched.specs.Heaps.{tasks_of};
ghost use Rattle.std.specs.List.Sorted.{IsNonDecreasingBy};
ghost use Rattle.pass_sched.specs.Passes.{Run, IsUnderway, IsPass, end_of, room_of};

use crate::outcome::Outcome;
use crate::pass::{PassEnd, Passed, answer, refused};
use crate::play::play;
use crate::ranked::Ranked;
use crate::room::room_for;
use crate::task::Task;
use std::alloc::{AllocError, Global};
use std::collections::BinaryHeap;

/// What a pass on one thread works with: who waits, who is through, and room for the children of one task.
#[derive(Drop)]
pub struct Bench<T: Task> {
    pub pending: BinaryHeap<Ranked<T>>,
    pub done: Vec<T>,
    pub born: Vec<T>,
}

/// Takes the room for so many tasks.
pub fn lay<T: Task>(alloc: Global, room: usize) -> Result<Bench<T>, AllocError>
    ensures empty { IfOk result (λ bench. (tasks_of bench.pending ≡ []) × (heap_len bench.pending ≡ 0) × (bench.done.items ≡ []) × (vec_len bench.born ≡ 0)) }
    ensures room { IfOk result (λ bench. (room ≤ heap_capacity bench.pending) × (room ≤ vec_capacity bench.done) × (room ≤ vec_capacity bench.born)) }
{
    let pending = BinaryHeap::with_capacity(alloc, room)?;
    let done = Vec::with_capacity(alloc, room)?;
    let born = Vec::with_capacity(alloc, room)?;
    Ok(Bench {
        pending,
        done,
        born,
    })
}

// Lets one more task wait, for which there is room.
fn seat<T: Task>(task: T, pending: &mut BinaryHeap<Ranked<T>>)
    requires { heap_len pending.old < heap_capacity pending.old }
    ensures tasks { IsPermutation (task ∷ tasks_of pending.old) (tasks_of pending.new) }
    ensures len { heap_len pending.new ≡ heap_len pending.old + 1 }
    ensures room { heap_capacity pending.old ≤ heap_capacity pending.new }
{
    let _ = pending.push(Ranked { task });
}

// Puts the children of a parent of this order where they belong: those above it wait for their part, the others are through.
fn sort_out<T: Task>(
    above: u64,
    born: &mut Vec<T>,
    pending: &mut BinaryHeap<Ranked<T>>,
    done: &mut Vec<T>,
)
    requires pending { heap_len pending.old + vec_len born.old ≤ heap_capacity pending.old }
    requires done { vec_len done.old + vec_len born.old ≤ vec_capacity done.old }
    ensures born { (vec_len born.new ≡ 0) × (vec_capacity born.new ≡ vec_capacity born.old) }
    ensures joining { IsPermutation (tasks_of pending.old ++ filter (λ kid. nat_lt above (T.order kid)) born.old.items) (tasks_of pending.new) }
    ensures staying { IsPermutation (done.old.items ++ filter (λ kid. not (nat_lt above (T.order kid))) born.old.items) done.new.items }
    ensures room { (heap_capacity pending.old ≤ heap_capacity pending.new) × (vec_capacity done.new ≡ vec_capacity done.old) }
{
    while let Some(task) = born.pop() {
        if task.order() > above {
            seat(task, pending);
        } else {
            done.push_reserved(task);
        }
    }
}

// Lets a living task take its turns, and sorts out what it bears.
fn take_turns<T: Task>(mut task: T, bench: &mut Bench<T>, outcome: &mut Outcome)
    requires living { 0 < T.left task }
    requires empty { vec_len bench.old.born ≡ 0 }
    requires born { T.left task ≤ vec_capacity bench.old.born }
    requires done { vec_len bench.old.done + T.left task ≤ vec_capacity bench.old.done }
    requires pending { heap_len bench.old.pending + T.left task ≤ heap_capacity bench.old.pending }
    ensures empty { vec_len bench.new.born ≡ 0 }
    ensures born { vec_capacity bench.old.born ≤ vec_capacity bench.new.born }
    ensures done { vec_capacity bench.old.done ≤ vec_capacity bench.new.done }
    ensures pending { heap_capacity bench.old.pending ≤ heap_capacity bench.new.pending }
    ensures room { vec_len bench.new.done + sum_by (room_of T.Task) (tasks_of bench.new.pending) ≤ vec_len bench.old.done + T.left task + sum_by (room_of T.Task) (tasks_of bench.old.pending) }
    ensures falls { sum_by (room_of T.Task) (tasks_of bench.new.pending) < T.left task + sum_by (room_of T.Task) (tasks_of bench.old.pending) }
    ensures kept { (given : List T) (runs : List (Run T)) → IsUnderway T.Task true given runs (task ∷ tasks_of bench.old.pending) bench.old.done.items outcome.old.failed outcome.old.moved → (run : Run T) × IsUnderway T.Task true given (run ∷ runs) (tasks_of bench.new.pending) bench.new.done.items outcome.new.failed outcome.new.moved }
{
    let had = task.left();
    let above = task.order();
    play(&mut task, &mut bench.born);
    outcome.note(had, &task);
    sort_out(above, &mut bench.born, &mut bench.pending, &mut bench.done);
    bench.done.push_reserved(task);
}

// Lets a task take its part in the pass. One that had ended is through as it is.
fn take_part<T: Task>(task: T, bench: &mut Bench<T>, outcome: &mut Outcome)
    requires empty { vec_len bench.old.born ≡ 0 }
    requires born { room_of T.Task task ≤ vec_capacity bench.old.born }
    requires done { vec_len bench.old.done + room_of T.Task task ≤ vec_capacity bench.old.done }
    requires pending { heap_len bench.old.pending + room_of T.Task task ≤ heap_capacity bench.old.pending }
    ensures empty { vec_len bench.new.born ≡ 0 }
    ensures born { vec_capacity bench.old.born ≤ vec_capacity bench.new.born }
    ensures done { vec_capacity bench.old.done ≤ vec_capacity bench.new.done }
    ensures pending { heap_capacity bench.old.pending ≤ heap_capacity bench.new.pending }
    ensures room { vec_len bench.new.done + sum_by (room_of T.Task) (tasks_of bench.new.pending) ≤ vec_len bench.old.done + room_of T.Task task + sum_by (room_of T.Task) (tasks_of bench.old.pending) }
    ensures falls { sum_by (room_of T.Task) (tasks_of bench.new.pending) < room_of T.Task task + sum_by (room_of T.Task) (tasks_of bench.old.pending) }
    ensures kept { (given : List T) (runs : List (Run T)) → IsUnderway T.Task true given runs (task ∷ tasks_of bench.old.pending) bench.old.done.items outcome.old.failed outcome.old.moved → (run : Run T) × IsUnderway T.Task true given (run ∷ runs) (tasks_of bench.new.pending) bench.new.done.items outcome.new.failed outcome.new.moved }
{
    if task.left() == 0 {
        bench.done.push_reserved(task);
    } else {
        take_turns(task, bench, outcome);
    }
}

// Lets all tasks that wait take their part, the least order first.
fn play_all<T: Task>(bench: &mut Bench<T>, outcome: &mut Outcome)
    requires empty { vec_len bench.old.born ≡ 0 }
    requires born { sum_by (room_of T.Task) (tasks_of bench.old.pending) ≤ vec_capacity bench.old.born }
    requires done { vec_len bench.old.done + sum_by (room_of T.Task) (tasks_of bench.old.pending) ≤ vec_capacity bench.old.done }
    requires pending { sum_by (room_of T.Task) (tasks_of bench.old.pending) ≤ heap_capacity bench.old.pending }
    ensures { (given : List T) (runs : List (Run T)) → IsUnderway T.Task true given runs (tasks_of bench.old.pending) bench.old.done.items outcome.old.failed outcome.old.moved → (all : List (Run T)) × IsUnderway T.Task true given all [] bench.new.done.items outcome.new.failed outcome.new.moved }
{
    while let Some(Ranked { task }) = bench.pending.pop() {
        take_part(task, bench, outcome);
    }
}

// Lets each of these tasks wait for its part.
fn seat_all<T: Task>(tasks: Vec<T>, pending: &mut BinaryHeap<Ranked<T>>)
    requires empty { tasks_of pending.old ≡ [] }
    requires room { vec_len tasks ≤ heap_capacity pending.old }
    ensures tasks { IsPermutation tasks.items (tasks_of pending.new) }
    ensures room { heap_capacity pending.old ≤ heap_capacity pending.new }
{
    for task in tasks {
        seat(task, pending);
    }
}

/// One pass on the caller's thread.
pub fn pass_alone<T: Task>(alloc: Global, tasks: Vec<T>) -> Passed<T>
    ensures ascending { IsNonDecreasingBy T.order result.tasks.items }
    ensures untouched { result.end ≡ PassEnd.NoMemory → IsPermutation tasks.items result.tasks.items }
    ensures pass { result.end ≢ PassEnd.NoMemory → (runs : List (Run T)) × IsPass T.Task true tasks.items runs result.tasks.items × (result.end ≡ end_of T.Task runs result.tasks.items) }
{
    let Some(room) = room_for(tasks.as_slice()) else {
        return refused(tasks);
    };
    let Ok(mut bench) = lay(alloc, room) else {
        return refused(tasks);
    };
    seat_all(tasks, &mut bench.pending);
    let mut outcome = Outcome::new();
    play_all(&mut bench, &mut outcome);
    answer(bench.done, outcome)
}
