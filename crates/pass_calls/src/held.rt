//! What the process of a call holds.
ghost use Rattle.std.specs.Prelude.{◌≡◌, Some, true};
ghost use Rattle.std.specs.FinMap as finite_map;
ghost use Rattle.pass_plain.specs.Processes.{is_held};

use pass_entry::Descriptor;
use pass_hold::Whose;
use pass_proc::Proc;

/// The descriptor of a number that the process holds.
pub(crate) fn held<J: Whose>(proc: &Proc<J>, fd: u8) -> Descriptor
    requires { is_held proc.now.state fd ≡ true }
    ensures { finite_map.get proc.now.state.descriptors fd ≡ Some result }
{
    match proc.descriptor(fd) {
        Some(d) => d,
        None => unreachable!(),
    }
}
