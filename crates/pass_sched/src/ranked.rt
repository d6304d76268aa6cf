//! Tasks in a heap, the least order at the top.
ghost use Rattle.std.specs.Prelude.{◌==◌};
ghost use Rattle.std.proofs.Common.{rules};
ghost use Rattle.std.specs.Cmp.{partial_order_from_own_ties};
ghost use Rattle.std.specs.Cmp.Rules.{comparing};
ghost use Rattle.std.specs.Ordering.{nat_cmp, on, flip_args, as_partial_cmp};

use crate::task::Task;
use std::cmp::Ordering;

/// A task that waits for its part in a pass.
#[derive(Drop)]
pub struct Ranked<T: Task> {
    pub task: T,
}

impl<T: Task> Ord for Ranked<T> {
    ghost cmp = { flip_args (on (λ r. T.order r.task) nat_cmp) };

    ghost total = { Prim.search (comparing, rules) };

    ghost matches_partial_cmp = { Prim.search (comparing, rules) };

    ghost matches_eq = { Prim.search (comparing, rules) };

    fn cmp(&self, other: &Ranked<T>) -> Ordering {
        other.task.order().cmp(&self.task.order())
    }
}

impl<T: Task> PartialOrd for Ranked<T> {
    ghost partial_cmp = { as_partial_cmp (flip_args (on (λ r. T.order r.task) nat_cmp)) };

    ghost laws = { partial_order_from_own_ties (Prim.search (comparing, rules)) (Prim.search (comparing, rules)) };

    fn partial_cmp(&self, other: &Ranked<T>) -> Option<Ordering> {
        Some(self.cmp(other))
    }
}

impl<T: Task> PartialEq for Ranked<T> {
    ghost eq = { λ a b. T.order a.task == T.order b.task };

    ghost laws = { Prim.search (comparing, rules) };

    fn eq(&self, other: &Ranked<T>) -> bool {
        self.task.order() == other.task.order()
    }
}

impl<T: Task> Eq for Ranked<T> {
    ghost laws = { Prim.search (comparing, rules) };
}
