//! How much one call of a stream in memory moves.
ghost use Rattle.std.specs.Prelude.{◌≡◌, ◌≤◌, ◌<◌};
ghost use Rattle.std.specs.Option.{ForSome};
ghost use Rattle.pass_outside.specs.Pieces.{in_step};

/// Of so many bytes all, or no more than the step where there is one.
pub fn of_step(step: Option<u32>, count: usize) -> usize
    requires { ForSome step (λ n. 1 ≤ n) }
    ensures exact { result ≡ in_step step count }
    ensures within { result ≤ count }
    ensures some { 0 < count → 0 < result }
{
    match step {
        Some(step) => count.min(step as usize),
        None => count,
    }
}
