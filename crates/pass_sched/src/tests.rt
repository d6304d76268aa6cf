//! Small sets of tasks, and two tasks that meet.
ghost use Rattle.std.specs.Prelude.{◌≡◌, ◌≢◌, ◌+◌, ◌-◌, ◌≤◌, ◌<◌, ◌↔◌, ◌++◌, ◌==◌, List, All, Some, is_none, sum_by, vec_len, vec_capacity};

use super::*;
use std::alloc::AllocError;
use std::sync::atomic::{AtomicU64, Ordering};
use std::test::Fail;
use std::thread;

/// What tasks share: a clock of first turns, and how many are inside a turn.
#[derive(Drop)]
struct Stage {
    clock: AtomicU64,
    inside: AtomicU64,
}

/// What a task does beside moving.
#[derive(Clone, Copy)]
enum Plan {
    Plain,
    /// It waits with so many steps left.
    WaitsAt(u64),
    /// It fails with so many steps left.
    FailsAt(u64),
    /// Each step bears a child of a greater order with half of what is left.
    ForksAbove,
    /// Each step bears a child of a lesser order with half of what is left.
    ForksBelow,
    /// Its step looks so many times for another task inside a turn.
    Meets(u64),
}

#[derive(Drop)]
struct Toy<'a> {
    order: u64,
    left: u64,
    turns: u64,
    last: Option<Turn>,
    plan: Plan,
    stamp: u64,
    met: bool,
    stage: &'a Stage,
    ghost first: { is_none last ≡ (turns == 0) },
}

impl<'a> Toy<'a> {
    ghost use Rattle.pass_sched.specs.Turns.{Rises};
    ghost use Rattle.pass_sched.specs.declared.tests.Toy.{Toy};

    fn new(stage: &'a Stage, order: u64, left: u64, plan: Plan) -> Toy<'a>
        ensures { (result.left ≡ left) }
    {
        Toy {
            order,
            left,
            turns: 0,
            last: None,
            plan,
            stamp: 0,
            met: false,
            stage,
        }
    }

    fn answer(&self) -> Turn
        ensures { (result ≡ Turn.Ended) ↔ (self.now.left ≡ 0) }
    {
        match self.plan {
            _ if self.left == 0 => Turn::Ended,
            Plan::WaitsAt(n) if self.left == n => Turn::Waiting,
            Plan::FailsAt(n) if self.left == n => Turn::Failed,
            _ => Turn::Moved,
        }
    }

    /// How many steps go to a child of this step.
    fn share(&self) -> u64
        requires { 0 < self.now.left }
        ensures { result < self.now.left }
    {
        match self.plan {
            Plan::ForksAbove | Plan::ForksBelow => (self.left - 1) / 2,
            _ => 0,
        }
    }

    fn child(&self, left: u64) -> Toy<'a>
        ensures { result.left ≡ left }
    {
        let order = match self.plan {
            Plan::ForksBelow => self.order.saturating_sub(self.left),
            _ => self.order.saturating_add(self.left),
        };
        Toy::new(self.stage, order, left, self.plan)
    }

    /// Notes when the first turn began, and looks for another task inside a turn.
    fn begin(&mut self)
        ensures same { (self.new.order ≡ self.old.order) × (self.new.left ≡ self.old.left) × (self.new.turns ≡ self.old.turns) }
    {
        if self.turns == 0 {
            self.stamp = self.stage.clock.fetch_add(1, Ordering::SeqCst);
            self.met = self.meet();
        }
    }

    /// Makes a step, and bears the child of it.
    fn step(&mut self, born: &mut Vec<Toy<'a>>)
        requires left { 0 < self.old.left }
        requires room { vec_len born.old + self.old.left ≤ vec_capacity born.old }
        ensures same { (self.new.order ≡ self.old.order) × (self.new.turns ≡ self.old.turns) }
        ensures kids { (kids : List (Toy)) × (born.new.items ≡ born.old.items ++ kids) × (self.new.left + (1 + sum_by (λ toy. toy.left) kids) ≡ self.old.left) × All (λ toy. 0 < toy.left) kids }
        ensures room { vec_capacity born.old ≤ vec_capacity born.new }
    {
        let share = self.share();
        if share > 0 {
            born.push_reserved(self.child(share));
        }
        self.left -= 1 + share;
    }

    fn close(&mut self, answer: Turn)
        ensures same { (self.new.order ≡ self.old.order) × (self.new.left ≡ self.old.left) }
        ensures turns { Rises self.old.turns self.new.turns }
        ensures last { self.new.last ≡ Some answer }
    {
        self.turns = self.turns.saturating_add(1);
        self.last = Some(answer);
    }

    fn meet(&self) -> bool {
        let Plan::Meets(limit) = self.plan else {
            return false;
        };
        self.stage.inside.fetch_add(1, Ordering::SeqCst);
        for _ in 0..limit {
            if self.stage.inside.load(Ordering::SeqCst) > 1 {
                return true;
            }
            thread::yield_now();
        }
        self.stage.inside.fetch_sub(1, Ordering::SeqCst);
        false
    }
}

impl<'a> Task for Toy<'a> {
    ghost order = { λ toy. toy.order };

    ghost left = { λ toy. toy.left };

    ghost turns = { λ toy. toy.turns };

    ghost last = { λ toy. toy.last };

    fn order(&self) -> u64 {
        self.order
    }

    fn left(&self) -> u64 {
        self.left
    }

    fn turns(&self) -> u64 {
        self.turns
    }

    fn last(&self) -> Option<Turn> {
        self.last
    }

    fn turn(&mut self, born: &mut Vec<Toy<'a>>) -> Turn {
        self.begin();
        let answer = self.answer();
        if let Turn::Moved = answer {
            self.step(born);
        }
        self.close(answer);
        answer
    }
}

/// Tasks by order, steps and plan; the end and the orders with their turns, by one worker and by several.
struct Row {
    tasks: &'static [(u64, u64, Plan)],
    alone: (PassEnd, &'static [(u64, u64)]),
    spread: (PassEnd, &'static [(u64, u64)]),
}

static ROWS: [Row; 9] = [
    Row {
        tasks: &[],
        alone: (PassEnd::AllEnded, &[]),
        spread: (PassEnd::AllEnded, &[]),
    },
    Row {
        tasks: &[(2, 2, Plan::Plain), (1, 1, Plan::Plain)],
        alone: (PassEnd::AllEnded, &[(1, 2), (2, 3)]),
        spread: (PassEnd::AllEnded, &[(1, 2), (2, 3)]),
    },
    Row {
        tasks: &[
            (3, 2, Plan::WaitsAt(2)),
            (2, 0, Plan::Plain),
            (1, 1, Plan::WaitsAt(1)),
        ],
        alone: (PassEnd::AllWaiting, &[(1, 1), (2, 0), (3, 1)]),
        spread: (PassEnd::AllWaiting, &[(1, 1), (2, 0), (3, 1)]),
    },
    Row {
        tasks: &[(1, 3, Plan::WaitsAt(1)), (2, 1, Plan::WaitsAt(1))],
        alone: (PassEnd::GoOn, &[(1, 3), (2, 1)]),
        spread: (PassEnd::GoOn, &[(1, 3), (2, 1)]),
    },
    Row {
        tasks: &[(1, 2, Plan::FailsAt(1)), (2, 1, Plan::Plain)],
        alone: (PassEnd::OneFailed, &[(1, 2), (2, 2)]),
        spread: (PassEnd::OneFailed, &[(1, 2), (2, 2)]),
    },
    Row {
        tasks: &[(1, 1, Plan::WaitsAt(1)), (2, 1, Plan::FailsAt(1))],
        alone: (PassEnd::OneFailed, &[(1, 1), (2, 1)]),
        spread: (PassEnd::OneFailed, &[(1, 1), (2, 1)]),
    },
    Row {
        tasks: &[(5, 3, Plan::ForksAbove)],
        alone: (PassEnd::AllEnded, &[(5, 3), (8, 2)]),
        spread: (PassEnd::GoOn, &[(5, 3), (8, 0)]),
    },
    Row {
        tasks: &[(5, 3, Plan::ForksBelow), (9, 1, Plan::Plain)],
        alone: (PassEnd::GoOn, &[(2, 0), (5, 3), (9, 2)]),
        spread: (PassEnd::GoOn, &[(2, 0), (5, 3), (9, 2)]),
    },
    Row {
        tasks: &[(1, 7, Plan::ForksAbove)],
        alone: (PassEnd::AllEnded, &[(1, 4), (4, 2), (8, 3), (11, 2)]),
        spread: (PassEnd::GoOn, &[(1, 4), (4, 0), (8, 0)]),
    },
];

fn open_stage() -> Stage {
    Stage {
        clock: AtomicU64::new(0),
        inside: AtomicU64::new(0),
    }
}

fn toys<'a>(
    alloc: Global,
    stage: &'a Stage,
    tasks: &[(u64, u64, Plan)],
) -> Result<Vec<Toy<'a>>, AllocError> {
    let mut toys = Vec::new(alloc);
    for (order, left, plan) in tasks {
        toys.push(Toy::new(stage, *order, *left, *plan))?;
    }
    Ok(toys)
}

/// The orders of tasks with their turns.
fn turns_of(alloc: Global, toys: &[Toy<'_>]) -> Result<Vec<(u64, u64)>, AllocError> {
    toys.iter().map(|toy| (toy.order, toy.turns)).collect(alloc)
}

/// Whether the tasks that took turns began in this order.
fn begins_in_order(toys: &[Toy<'_>]) -> bool {
    let mut last = None;
    for toy in toys {
        if toy.turns > 0 {
            if last > Some(toy.stamp) {
                return false;
            }
            last = Some(toy.stamp);
        }
    }
    true
}

#[test]
fn small_sets(rt: HostRuntime) -> Result<(), Fail> {
    for row in &ROWS {
        for workers in [1, 2, 64] {
            let stage = open_stage();
            let passed = run_all(
                &rt,
                rt.alloc(),
                toys(rt.alloc(), &stage, row.tasks)?,
                workers,
            );
            let (end, expected) = if workers == 1 { row.alone } else { row.spread };
            assert!(rt; passed.end == end);
            assert_eq!(rt;
                turns_of(rt.alloc(), passed.tasks.as_slice())?.as_slice(),
                expected
            );
            assert!(rt; workers > 1 || begins_in_order(passed.tasks.as_slice()));
        }
    }
    Ok(())
}

/// Whether two tasks in one pass meet inside a turn, where each looks so many times for the other.
fn meet<R: Threads + Wait + Sync>(
    rt: &R,
    alloc: Global,
    workers: u32,
    limit: u64,
) -> Result<(PassEnd, bool, bool), AllocError>
    requires { (1 ≤ workers) × (workers ≤ 64) }
{
    let stage = open_stage();
    let tasks = [(1, 1, Plan::Meets(limit)), (2, 1, Plan::Meets(limit))];
    let passed = run_all(rt, alloc, toys(alloc, &stage, &tasks)?, workers);
    let all = passed.tasks.iter().all(|toy| toy.met);
    let any = passed.tasks.iter().any(|toy| toy.met);
    Ok((passed.end, all, any))
}

#[test]
fn two_are_inside_at_once(rt: HostRuntime) -> Result<(), Fail> {
    let two = meet(&rt, rt.alloc(), 2, u64::MAX)?;
    assert!(rt; two == (PassEnd::AllEnded, true, true));
    let one = meet(&rt, rt.alloc(), 1, 1000)?;
    assert!(rt; one == (PassEnd::AllEnded, false, false));
    Ok(())
}
