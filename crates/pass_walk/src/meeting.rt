//! A living process and one that has ended come to one history.
ghost use Rattle.std.specs.Prelude.{◌≡◌};
ghost use Rattle.pass_trace.specs.TraceLines.{plain_trace};
ghost use Rattle.pass_walk.specs.Meetings.{HasComeOn, HasSeenMore, HaveJoined, HaveMet, KnowsIfEnded, KnowsSeen};
ghost use Rattle.pass_walk.specs.Walkers.{IsLivingOf, IsWalkerOf};

use crate::ground::Ground;
use crate::walker::{Ended, Living, Walker};
use pass_hold::Whose;
use pass_hold::laws::{answers, calls};
use pass_progress::laws::standing;
use pass_progress::{Calls, between};

/// A living process and one that has ended come to one history. Any others stay as they are.
pub fn met<'a, J: Whose, S: Calls<J>>(
    first: &mut Walker<J>,
    other: &mut Walker<J>,
    ground: &Ground<'a, S>,
)
    requires first { IsWalkerOf J.book.session J.places (plain_trace ground.now.plan.now) first.old }
    requires other { KnowsIfEnded other.old }
    ensures { HaveMet J.book.session (plain_trace ground.now.plan.now) first.old other.old (first.new, other.new) }
{
    if let Walker::Ended(ended) = other {
        if let Walker::Living(living) = first {
            living.meet(ended, ground);
        }
    }
}

impl<J: Whose> Living<J> {
    /// Comes to one history with a process that has ended, unless that one is known to have seen no more.
    fn meet<'a, S: Calls<J>>(&mut self, ended: &mut Ended<J>, ground: &Ground<'a, S>)
        requires living { IsLivingOf J.book.session (plain_trace ground.now.plan.now) self.old }
        requires ended { KnowsSeen ended.old }
        ensures { HaveJoined J.book.session (plain_trace ground.now.plan.now) self.old ended.old self.new ended.new }
    {
        if ended.has_seen(self.proc.seen()) {
            return;
        }
        self.join(ended, ground);
    }

    /// Comes to one history with a process that has ended.
    pub fn join<'a, S: Calls<J>>(&mut self, ended: &mut Ended<J>, ground: &Ground<'a, S>)
        requires { IsLivingOf J.book.session (plain_trace ground.now.plan.now) self.old }
        ensures living { HasComeOn J.book.session (plain_trace ground.now.plan.now) self.old self.new }
        ensures ended { HasSeenMore J.book.session ended.old ended.new }
        ensures one { ended.new.trail.seen ≡ self.new.proc.seen }
    {
        calls();
        answers();
        standing();
        ground.plan.ordered();
        between(&self.proc);
        ground.calls.meet_ended(&mut self.proc, &mut ended.trail);
        ended.met = Some(self.proc.seen());
    }

    /// Comes to one history with another living process.
    pub fn join_living<'a, S: Calls<J>>(&mut self, other: &mut Living<J>, ground: &Ground<'a, S>)
        requires first { IsLivingOf J.book.session (plain_trace ground.now.plan.now) self.old }
        requires other { IsLivingOf J.book.session (plain_trace ground.now.plan.now) other.old }
        ensures first { HasComeOn J.book.session (plain_trace ground.now.plan.now) self.old self.new }
        ensures other { HasComeOn J.book.session (plain_trace ground.now.plan.now) other.old other.new }
        ensures one { other.new.proc.seen ≡ self.new.proc.seen }
    {
        calls();
        answers();
        standing();
        ground.plan.ordered();
        between(&self.proc);
        between(&other.proc);
        ground.calls.meet(&mut self.proc, &mut other.proc);
    }
}
