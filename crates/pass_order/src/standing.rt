//! Where the next call of a process stands among all calls of a trace: a line's at three times its place and one, an exit directly behind its
//! process's last line, and that of a child without lines behind its fork.
ghost use Rattle.std.specs.Prelude.{◌==◌, ◌≡◌, ◌+◌, ◌*◌};
ghost use Rattle.std.proofs.Common.{rules};
ghost use Rattle.std.specs.Cmp.{partial_order_from_own_ties};
ghost use Rattle.std.specs.Cmp.Rules.{comparing};
ghost use Rattle.std.specs.Ordering.{nat_cmp, on, flip_args, as_partial_cmp};
ghost use Rattle.pass_order.specs.Ranks.{rank_of};

use std::cmp::Ordering;

/// A process that stands before its next call: the rank of that call, the place of the process, and how many entries it had seen as the call
/// was tried last. In a heap the least rank is at the top.
#[derive(Clone, Copy)]
pub(crate) struct Standing {
    pub rank: u128,
    pub place: usize,
    pub seen: u64,
}

impl Ord for Standing {
    ghost cmp = { flip_args (on (λ s. s.rank) nat_cmp) };

    ghost total = { Prim.search (comparing, rules) };

    ghost matches_partial_cmp = { Prim.search (comparing, rules) };

    ghost matches_eq = { Prim.search (comparing, rules) };

    fn cmp(&self, other: &Standing) -> Ordering {
        other.rank.cmp(&self.rank)
    }
}

impl PartialOrd for Standing {
    ghost partial_cmp = { as_partial_cmp (flip_args (on (λ s. s.rank) nat_cmp)) };

    ghost laws = { partial_order_from_own_ties (Prim.search (comparing, rules)) (Prim.search (comparing, rules)) };

    fn partial_cmp(&self, other: &Standing) -> Option<Ordering> {
        Some(self.cmp(other))
    }
}

impl PartialEq for Standing {
    ghost eq = { λ a b. a.rank == b.rank };

    ghost laws = { Prim.search (comparing, rules) };

    fn eq(&self, other: &Standing) -> bool {
        self.rank == other.rank
    }
}

impl Eq for Standing {
    ghost laws = { Prim.search (comparing, rules) };
}

/// The rank of the exit of a first process that has no line.
pub(crate) const FIRST_EXIT: u128 = 0;

/// The rank of the next call of a process: that of its next line, or of its exit.
pub(crate) fn rank_at(line: Option<usize>, exit: u128) -> u128
    ensures { result ≡ rank_of line exit }
{
    match line {
        Some(place) => 3 * place as u128 + 1,
        None => exit,
    }
}

/// The rank of the exit behind the line at a place, the last one of its process.
pub(crate) fn exit_behind(place: usize) -> u128
    ensures { result ≡ 3 * place + 2 }
{
    3 * place as u128 + 2
}

/// The rank of the exit of a child without lines, behind the line at a place, which forks it.
pub(crate) fn child_exit_behind(place: usize) -> u128
    ensures { result ≡ 3 * place + 3 }
{
    3 * place as u128 + 3
}
