//! A pass of several workers.
ghost use Rattle.std.specs.Prelude.{◌≡◌, ◌≢◌, ◌+◌, ◌≤◌, ◌<◌, [], ◌∷◌, ◌++◌, List, false, sum_by, All, IfOk, IsTrue, IsPermutation, vec_len, vec_capacity};
ghost use Rattle.std.specs.Thread.{IsSync, IsSend};
ghost use Rattle.std.specs.List.Sorted.{IsNonDecreasingBy};
ghost use Rattle.pass_sched.specs.Jobs.{IsFit, IsDone, tasks_in, were, size_of};
ghost use Rattle.pass_sched.specs.Passes.{Run, IsUnderway, IsPass, end_of, room_of};

use crate::job::{Job, play_job};
use crate::outcome::Outcome;
use crate::pass::{PassEnd, Passed, answer, refused};
use crate::room::room_for;
use crate::task::Task;
use std::alloc::{AllocError, Global};
use std::snapshot::Snapshot;
use std::thread::{Threads, for_each_mut, join_mut};

// What a pass of several workers works with: the living tasks, and those that are through.
struct Hall<T: Task> {
    jobs: Vec<Job<T>>,
    through: Vec<T>,
}

// Takes the room for so many tasks of which so many can come.
fn open<T: Task>(alloc: Global, count: usize, room: usize) -> Result<Hall<T>, AllocError>
    ensures empty { IfOk result (λ hall. (hall.jobs.items ≡ []) × (hall.through.items ≡ [])) }
    ensures room { IfOk result (λ hall. (count ≤ vec_capacity hall.jobs) × (room ≤ vec_capacity hall.through)) }
{
    let jobs = Vec::with_capacity(alloc, count)?;
    let through = Vec::with_capacity(alloc, room)?;
    Ok(Hall { jobs, through })
}

// A living task with room for its children, and whether there was memory for it.
fn job_for<T: Task>(alloc: Global, task: T) -> (Job<T>, bool)
    requires { 0 < T.left task }
    ensures task { result.0.task ≡ task }
    ensures fit { IsTrue result.1 → IsFit T.Task result.0 }
{
    let was = Snapshot::of(&task);
    let had = task.left();
    let (born, fits) = match Vec::with_capacity(alloc, had as usize) {
        Ok(born) => (born, true),
        Err(_) => (Vec::new(alloc), false),
    };
    let job = Job {
        was,
        had,
        task,
        born,
    };
    (job, fits)
}

// Makes a job of each living task, the last task first; the others are through as they are. Answers whether there was memory
// for all.
fn make_jobs<T: Task>(
    alloc: Global,
    mut tasks: Vec<T>,
    jobs: &mut Vec<Job<T>>,
    through: &mut Vec<T>,
) -> bool
    requires jobs { (jobs.old.items ≡ []) × (vec_len tasks ≤ vec_capacity jobs.old) }
    requires through { (through.old.items ≡ []) × (sum_by (room_of T.Task) tasks.items ≤ vec_capacity through.old) }
    ensures tasks { IsPermutation tasks.items (through.new.items ++ tasks_in jobs.new.items) }
    ensures room { vec_len through.new + sum_by (room_of T.Task) (tasks_in jobs.new.items) ≤ vec_capacity through.new }
    ensures fit { IsTrue result → All (IsFit T.Task) jobs.new.items }
    ensures begun { (runs : List (Run T)) × IsUnderway T.Task false tasks.items runs (tasks_in jobs.new.items) through.new.items false false }
{
    let mut all = true;
    while let Some(task) = tasks.pop() {
        if task.left() == 0 {
            through.push_reserved(task);
        } else {
            let (job, fits) = job_for(alloc, task);
            jobs.push_reserved(job);
            all = fits && all;
        }
    }
    all
}

// Gives the tasks back as they were.
fn give_back<T: Task>(mut jobs: Vec<Job<T>>, into: &mut Vec<T>)
    requires { vec_len into.old + vec_len jobs ≤ vec_capacity into.old }
    ensures { IsPermutation (into.old.items ++ tasks_in jobs.items) into.new.items }
{
    while let Some(job) = jobs.pop() {
        into.push_reserved(job.task);
    }
}

// Each job's task takes its turns, one job after the other.
fn play_share<T: Task + Send, R: Threads + Sync>(rt: &R, jobs: &mut [Job<T>])
    requires fit { All (IsFit T.Task) jobs.old }
    ensures done { All (IsDone T.Task) jobs.new }
    ensures were { were jobs.new ≡ tasks_in jobs.old }
{
    let play = |_: usize, job: &mut Job<T>|
        requires { IsFit T.Task job.old }
        ensures was { job.new.was ≡ job.old.was }
        ensures done { IsDone T.Task job.new }
    { play_job(job) };
    for_each_mut(rt, jobs, 1, &play);
}

// Each job's task takes its turns, on so many threads at most. Each thread has as many jobs as any other, or one more.
#[cycle(shares)]
fn play_jobs<T: Task + Send, R: Threads + Sync>(rt: &R, jobs: &mut [Job<T>], workers: usize)
    requires workers { 0 < workers }
    requires fit { All (IsFit T.Task) jobs.old }
    ensures done { All (IsDone T.Task) jobs.new }
    ensures were { were jobs.new ≡ tasks_in jobs.old }
{
    if workers == 1 {
        play_share(rt, jobs);
        return;
    }
    let count = jobs.len() / workers;
    if count == 0 {
        play_jobs(rt, jobs, workers - 1);
        return;
    }
    let (share, others) = jobs.split_at_mut(count);
    play_both(rt, share, others, workers - 1);
}

// One share of the jobs, and the others on so many more threads.
#[cycle(shares)]
fn play_both<T: Task + Send, R: Threads + Sync>(
    rt: &R,
    share: &mut [Job<T>],
    others: &mut [Job<T>],
    workers: usize,
)
    requires workers { 0 < workers }
    requires share { All (IsFit T.Task) share.old }
    requires others { All (IsFit T.Task) others.old }
    ensures share_done { All (IsDone T.Task) share.new }
    ensures share_were { were share.new ≡ tasks_in share.old }
    ensures others_done { All (IsDone T.Task) others.new }
    ensures others_were { were others.new ≡ tasks_in others.old }
{
    let mut here = ||
        requires { IsSync R.row × IsSend T.row × All (IsFit T.Task) share.now }
        ensures { All (IsDone T.Task) share.exit.now × (were share.exit.now ≡ tasks_in share.entry.now) }
    { play_share(rt, share) };
    let mut there = ||
        requires { IsSync R.row × IsSend T.row × (0 < workers) × All (IsFit T.Task) others.now }
        ensures { All (IsDone T.Task) others.exit.now × (were others.exit.now ≡ tasks_in others.entry.now) }
    { play_jobs(rt, others, workers) };
    join_mut(rt, &mut here, &mut there);
}

// Notes what a task has done: it and its children are through.
fn gather<T: Task>(job: Job<T>, through: &mut Vec<T>, outcome: &mut Outcome)
    requires done { IsDone T.Task job }
    requires room { vec_len through.old + size_of job ≤ vec_capacity through.old }
    ensures room { (vec_len through.new ≡ vec_len through.old + size_of job) × (vec_capacity through.old ≤ vec_capacity through.new) }
    ensures kept { (given : List T) (runs : List (Run T)) (others : List T) → IsUnderway T.Task false given runs (job.was.value ∷ others) through.old.items outcome.old.failed outcome.old.moved → (run : Run T) × IsUnderway T.Task false given (run ∷ runs) others through.new.items outcome.new.failed outcome.new.moved }
{
    let Job {
        was: _,
        had,
        task,
        mut born,
    } = job;
    outcome.note(had, &task);
    through.push_reserved(task);
    let _ = through.append(&mut born);
}

// Notes what all have done.
fn gather_all<T: Task>(mut jobs: Vec<Job<T>>, through: &mut Vec<T>, outcome: &mut Outcome)
    requires done { All (IsDone T.Task) jobs.items }
    requires room { vec_len through.old + sum_by size_of jobs.items ≤ vec_capacity through.old }
    ensures { (given : List T) (runs : List (Run T)) → IsUnderway T.Task false given runs (were jobs.items) through.old.items outcome.old.failed outcome.old.moved → (all : List (Run T)) × IsUnderway T.Task false given all [] through.new.items outcome.new.failed outcome.new.moved }
{
    while let Some(job) = jobs.pop() {
        gather(job, through, outcome);
    }
}

/// One pass of so many workers.
pub fn pass_spread<T: Task + Send, R: Threads + Sync>(
    rt: &R,
    alloc: Global,
    tasks: Vec<T>,
    workers: usize,
) -> Passed<T>
    requires { 0 < workers }
    ensures ascending { IsNonDecreasingBy T.order result.tasks.items }
    ensures untouched { result.end ≡ PassEnd.NoMemory → IsPermutation tasks.items result.tasks.items }
    ensures pass { result.end ≢ PassEnd.NoMemory → (runs : List (Run T)) × IsPass T.Task false tasks.items runs result.tasks.items × (result.end ≡ end_of T.Task runs result.tasks.items) }
{
    let Some(room) = room_for(tasks.as_slice()) else {
        return refused(tasks);
    };
    let Ok(hall) = open(alloc, tasks.len(), room) else {
        return refused(tasks);
    };
    let Hall {
        mut jobs,
        mut through,
    } = hall;
    if !make_jobs(alloc, tasks, &mut jobs, &mut through) {
        give_back(jobs, &mut through);
        return refused(through);
    }
    play_jobs(rt, jobs.as_mut_slice(), workers);
    let mut outcome = Outcome::new();
    gather_all(jobs, &mut through, &mut outcome);
    answer(through, outcome)
}
