//! Which calls of a form in memory are to fail.
ghost use Rattle.std.specs.Prelude.{◌≡◌};
ghost use Rattle.pass_outside.specs.Scripts.{is_due, stopped, listed};

/// Whether the call of this number, from 1, is to fail: it is listed, or it comes after the stop.
pub fn is_to_fail(fail: &[u64], stop: Option<u64>, number: u64) -> bool
    ensures { result ≡ is_due fail.now stop number }
{
    is_stopped(stop, number) || fail.contains(&number)
}

fn is_stopped(stop: Option<u64>, number: u64) -> bool
    ensures { result ≡ stopped stop number }
{
    match stop {
        Some(last) => last < number,
        None => false,
    }
}
