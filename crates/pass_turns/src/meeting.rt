//! Processes come to one history before the last pass.
ghost use Rattle.std.specs.Prelude.{◌≡◌, ◌≤◌, All, None, false, true, length, vec_capacity, vec_len};
ghost use Rattle.pass_turns.specs.Meetings.{AreLater, IsLater};

use crate::task::Turner;
use pass_hold::Whose;
use pass_progress::Calls;

/// A living process comes to one history with each of these that has ended. It takes no memory.
pub(crate) fn meet_each<'a, J: Whose, S: Calls<J>>(
    first: &mut Turner<'a, J, S>,
    others: &mut Vec<Turner<'a, J, S>>,
)
    requires { (first.old.ended ≡ false) × (first.old.cause ≡ None) }
    ensures first { IsLater first.old first.new }
    ensures others { AreLater others.old.items others.new.items }
    ensures room { (vec_len others.new ≡ vec_len others.old) × (vec_capacity others.new ≡ vec_capacity others.old) }
    ensures met { All (λ t. t.ended ≡ true → length t.seen ≤ length first.new.seen) others.new.items }
{
    for place in 0..others.len() {
        first.meet(&mut others[place]);
    }
}
