//! Names that are none of files.

use pass_syscall::{Skip, behind, small_of};

/// Why a path is none of a file of the trace. What a system answers below /proc and /sys, devices that keep and bring nothing of the
/// run's, and terminals aren't told. What the run wrote to a terminal comes back by the device that made it, which is told.
pub fn outside(path: &[u8]) -> Option<Skip> {
    if path.starts_with(b"/proc/") || path.starts_with(b"/sys/") {
        return Some(Skip::Quiet);
    }
    let device = path.strip_prefix(b"/dev/")?;
    if device.starts_with(b"shm/") {
        return None;
    }
    let quiet = [
        b"null".as_slice(),
        b"zero".as_slice(),
        b"full".as_slice(),
        b"random".as_slice(),
        b"urandom".as_slice(),
        b"tty".as_slice(),
    ];
    let is_terminal = device.starts_with(b"pts/") && device != b"pts/ptmx".as_slice();
    if is_terminal || quiet.iter().any(|name| *name == device) {
        return Some(Skip::Quiet);
    }
    Some(Skip::Device)
}

/// The number of the process's own descriptor that a path names.
pub fn own_descriptor(path: &[u8]) -> Option<u32> {
    let fronts = [
        b"/dev/fd/".as_slice(),
        b"/proc/self/fd/".as_slice(),
        b"/proc/thread-self/fd/".as_slice(),
    ];
    for front in fronts {
        if path.starts_with(front) {
            return small_of(behind(path, front.len()));
        }
    }
    let names = [
        b"/dev/stdin".as_slice(),
        b"/dev/stdout".as_slice(),
        b"/dev/stderr".as_slice(),
    ];
    let place = names.iter().position(|name| *name == path)?;
    u32::try_from(place).ok()
}
