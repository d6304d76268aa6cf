//! The faults by which a process's own descriptors refuse a call.
ghost use Rattle.std.specs.Prelude.{◌≡◌, ◌+◌, ◌&&◌, None, nat_lt};
ghost use Rattle.pass_entry.specs.declared.entry.CallFault.TheVariants as fault;
ghost use Rattle.pass_plain.specs.Processes.{faults_if, file_limit, is_app, is_file, same_mode};
ghost use Rattle.std.specs.Prelude.{not, ◌||◌};
ghost use Rattle.pass_entry.specs.declared.objects.Mode.TheVariants as mode;

use pass_entry::{CallFault, Descriptor, FILE_LIMIT, Kind, Mode};

pub(crate) fn fault_if(applies: bool, fault: CallFault) -> Option<CallFault>
    ensures { result ≡ faults_if applies fault None }
{
    if applies { Some(fault) } else { None }
}

/// Why nothing can be read by the descriptor.
pub(crate) fn read_fault(d: &Descriptor) -> Option<CallFault>
    ensures { result ≡ faults_if (is_app d.now || same_mode d.now.mode mode.Write) fault.BadMode None }
{
    fault_if(
        d.kind == Kind::App || d.mode == Mode::Write,
        CallFault::BadMode,
    )
}

/// Why so many bytes can't be written by the descriptor.
pub(crate) fn write_fault(d: &Descriptor, len: u32) -> Option<CallFault>
    ensures { result ≡ faults_if (is_app d.now || same_mode d.now.mode mode.Read) fault.BadMode (faults_if (is_file d.now && nat_lt file_limit (d.now.offset + len)) fault.TooBig None) }
{
    if d.kind == Kind::App || d.mode == Mode::Read {
        Some(CallFault::BadMode)
    } else {
        fault_if(passes_limit(d, len), CallFault::TooBig)
    }
}

/// Why the descriptor's file can't get this size.
pub(crate) fn cut_fault(d: &Descriptor, size: u64) -> Option<CallFault>
    ensures { result ≡ faults_if (not (is_file d.now) || same_mode d.now.mode mode.Read) fault.BadMode (faults_if (nat_lt file_limit size) fault.TooBig None) }
{
    if d.kind != Kind::File || d.mode == Mode::Read {
        Some(CallFault::BadMode)
    } else {
        fault_if(size > FILE_LIMIT, CallFault::TooBig)
    }
}

/// Why the descriptor's offset can't be set to this place.
pub(crate) fn seek_fault(d: &Descriptor, at: u64) -> Option<CallFault>
    ensures { result ≡ faults_if (not (is_file d.now)) fault.BadMode (faults_if (nat_lt file_limit at) fault.TooBig None) }
{
    if d.kind != Kind::File {
        Some(CallFault::BadMode)
    } else {
        fault_if(at > FILE_LIMIT, CallFault::TooBig)
    }
}

/// A transfer of so many bytes goes past the limit of a file.
fn passes_limit(d: &Descriptor, len: u32) -> bool
    ensures { result ≡ is_file d.now && nat_lt file_limit (d.now.offset + len) }
{
    d.kind == Kind::File && (d.offset > FILE_LIMIT || d.offset + u64::from(len) > FILE_LIMIT)
}
