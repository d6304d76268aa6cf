//! The pipes that a process holds.
ghost use Rattle.std.specs.Prelude.{◌≡◌, ◌+◌, ◌<◌, ◌≤◌, [], ◌∷◌, None, Some, IfNone, IfSome, drop, slice_get, if◌then◌else◌};
ghost use Rattle.pass_plain.specs.Calls.{end_of as end_for};
ghost use Rattle.pass_plain.specs.Processes.{is_pipe};
ghost use Rattle.pass_lives.specs.Pipes.{pipe_at as pipe_held, pipes_from};

use pass_entry::{Descriptor, End, Kind, Mode};
use pass_hold::Whose;
use pass_proc::ProcessDesk;

/// What a process holds by a number, where it is a pipe.
fn pipe_at<J: Whose>(process: &ProcessDesk<J>, fd: u8) -> Option<Descriptor>
    ensures { result ≡ pipe_held process.now.state.descriptors fd }
{
    match process.descriptor(fd) {
        Some(d) => pipe_of(d),
        None => None,
    }
}

fn pipe_of(d: Descriptor) -> Option<Descriptor>
    ensures { result ≡ (if is_pipe d then Some d else None) }
{
    match d.kind {
        Kind::Pipe => Some(d),
        _ => None,
    }
}

/// The first pipe that a process holds by this number or a greater one, with its number.
fn pipe_from<J: Whose>(process: &ProcessDesk<J>, from: u8) -> Option<(u8, Descriptor)>
    requires { from ≤ 64 }
    ensures low { IfSome result (λ r. r.0 < 64) }
    ensures first { IfSome result (λ r. pipes_from process.now.state.descriptors from ≡ r.1 ∷ pipes_from process.now.state.descriptors (r.0 + 1)) }
    ensures none { IfNone result (pipes_from process.now.state.descriptors from ≡ []) }
{
    for fd in from..64u8 {
        if let Some(d) = pipe_at(process, fd) {
            return Some((fd, d));
        }
    }
    None
}

/// The first pipe that a process holds by this number or a greater one.
pub(crate) fn next_pipe<J: Whose>(process: &ProcessDesk<J>, from: u8) -> Option<Descriptor>
    requires { from ≤ 64 }
    ensures { result ≡ slice_get (pipes_from process.now.state.descriptors from) 0 }
{
    match pipe_from(process, from) {
        Some(found) => Some(found.1),
        None => None,
    }
}

/// The number behind that of this pipe, or the same where there is none.
pub(crate) fn after_pipe<J: Whose>(process: &ProcessDesk<J>, from: u8) -> u8
    requires { from ≤ 64 }
    ensures low { result ≤ 64 }
    ensures rest { pipes_from process.now.state.descriptors result ≡ drop 1 (pipes_from process.now.state.descriptors from) }
{
    match pipe_from(process, from) {
        Some(found) => found.0 + 1,
        None => from,
    }
}

/// The end of a pipe that a descriptor of this mode holds.
pub(crate) fn end_of(mode: Mode) -> End
    ensures { result ≡ end_for mode }
{
    match mode {
        Mode::Write => End::Writer,
        _ => End::Reader,
    }
}
