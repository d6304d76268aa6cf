//! What takes turns: a task, and what a turn answers.
ghost use Rattle.std.specs.Prelude.{◌≡◌, ℕ, ◌+◌, ◌≤◌, ◌++◌, ◌↔◌, ⊤, List, Option, IsNone, vec_len, vec_capacity};

/// What a turn answers.
#[derive(Clone, Copy, PartialEq, Eq)]
pub enum Turn {
    /// A step was made.
    Moved,
    /// There is a step left, and it has to wait.
    Waiting,
    /// No step is left.
    Ended,
    /// The step failed, and is left.
    Failed,
}

/// What workers run. A task makes one step a turn, and a step may give birth to other tasks.
pub trait Task: Drop {
    ghost use Rattle.pass_sched.specs.declared.task.Turn.{Turn};
    ghost use Rattle.pass_sched.specs.Turns.{IsTurn};

    ghost order: { Self → ℕ };

    ghost left: { Self → ℕ };

    ghost turns: { Self → ℕ };

    ghost last: { Self → Option Turn };

    // What a turn may do, beyond what each turn does: the task before, its new children, the answer, the task after.
    ghost turn_gives: { Self → List Self → Turn → Self → Type 0 } = { λ before kids answer after. ⊤ };

    /// The place of the task among all tasks. It never changes.
    fn order(&self) -> u64
        ensures { result ≡ order self.now };

    /// The number of steps that are left, with those of the children that these steps will bear.
    fn left(&self) -> u64
        ensures { result ≡ left self.now };

    /// The number of turns that were taken. It stands still at the end of its type.
    fn turns(&self) -> u64
        ensures { result ≡ turns self.now };

    /// What the last turn answered.
    fn last(&self) -> Option<Turn>
        ensures value { result ≡ last self.now }
        ensures before_the_first { IsNone result ↔ (turns self.now ≡ 0) };

    /// Takes one turn, and puts the children that it bears behind those in `born`, which needs room for as many as are left.
    fn turn(&mut self, born: &mut Vec<Self>) -> Turn
        requires { vec_len born.old + left self.old ≤ vec_capacity born.old }
        ensures turn { (kids : List Self) × (born.new.items ≡ born.old.items ++ kids) × IsTurn order left turns last self.old kids result self.new × turn_gives self.old kids result self.new }
        ensures room { vec_capacity born.old ≤ vec_capacity born.new };
}
