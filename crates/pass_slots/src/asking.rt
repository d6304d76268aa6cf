//! What a call asks of its process, before an object's lock is taken.
ghost use Rattle.std.specs.Prelude.{◌≡◌, None, Some, IfOk, IfErr, IfSome, IfNone, ◌≤◌, length, true, false};
ghost use Rattle.std.specs.FinMap as finite_map;
ghost use Rattle.pass_entry.specs.Limits.{transfer_limit};
ghost use Rattle.pass_entry.specs.declared.entry.Ask.TheVariants as ask;
ghost use Rattle.pass_entry.specs.declared.entry.CallFault.{CallFault as AnyFault};
ghost use Rattle.pass_entry.specs.declared.objects.Descriptor.{Descriptor as AnyDescriptor};
ghost use Rattle.pass_plain.specs.Processes.{is_file, is_held, is_pipe, refusal};
ghost use Rattle.pass_proc.specs.Procs.{is_way};

use pass_entry::{Ask, Bytes, CallFault, Descriptor, Kind};
use pass_hold::Whose;
use pass_proc::Proc;

/// The descriptor that a call works on, or the fault by which its process refuses the call.
pub fn asked<J: Whose>(proc: &Proc<J>, fd: u8, asks: &Ask) -> Result<Descriptor, CallFault>
    requires held { refusal proc.now.state asks.now ≡ None → is_held proc.now.state fd ≡ true }
    ensures free { IfOk result (λ d. refusal proc.now.state asks.now ≡ None) }
    ensures held { IfOk result (λ d. finite_map.get proc.now.state.descriptors fd ≡ Some d) }
    ensures refused { IfErr result (λ f. refusal proc.now.state asks.now ≡ Some f) }
{
    if let Err(fault) = proc.deny(asks) {
        return Err(fault);
    }
    match proc.descriptor(fd) {
        Some(d) => Ok(d),
        None => unreachable!(),
    }
}

/// The descriptor of a pipe that the process holds under a number.
pub fn held_pipe<J: Whose>(proc: &Proc<J>, fd: u8) -> Option<Descriptor>
    ensures some { IfSome result (λ d. (finite_map.get proc.now.state.descriptors fd ≡ Some d) × (is_pipe d ≡ true)) }
    ensures none { IfNone result ((d : AnyDescriptor) → finite_map.get proc.now.state.descriptors fd ≡ Some d → is_pipe d ≡ false) }
{
    match proc.descriptor(fd) {
        Some(d) => match d.kind {
            Kind::Pipe => Some(d),
            Kind::Process | Kind::File | Kind::App => None,
        },
        None => None,
    }
}

/// A write that is under way goes to a pipe that its process holds, and is not refused: a write to a file is a new one, and so is a
/// write that is refused.
pub fn see_way<J: Whose>(proc: &Proc<J>, fd: u8, bytes: &Bytes)
    ensures file { (d : AnyDescriptor) → finite_map.get proc.now.state.descriptors fd ≡ Some d → is_file d ≡ true → is_way proc.now.way fd bytes.now ≡ false }
    ensures refused { (f : AnyFault) → refusal proc.now.state (ask.ToWrite fd (length bytes.now)) ≡ Some f → is_way proc.now.way fd bytes.now ≡ false }
    ensures few { length bytes.now ≤ transfer_limit }
{
    let _number = proc.number;
    let _ = bytes.as_bytes();
}
