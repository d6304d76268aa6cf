//! The calls that are looked at, by their names in Linux.

use crate::parts::{before, behind};
use crate::skip::Skip;

/// What a call does. Where `below` holds, the descriptor of a folder stands before a name; where `offset` does, an offset stands
/// behind what is moved.
#[derive(Clone, Copy)]
pub enum Call {
    Open { below: bool },
    Creat,
    Close,
    CloseRange,
    Read { offset: bool },
    Write { offset: bool },
    Pour,
    SendFile,
    CopyRange,
    Splice,
    Tee,
    /// What a descriptor is asked for by its device or its file system: that an exec closes it, or that a file shares another's blocks.
    Device,
    Seek,
    Cut,
    CutName,
    Duplicate,
    Control,
    Pipe,
    Anonymous,
    Fork,
    Exec { below: bool },
    Leave,
    Wait,
    WaitFor,
    Rename { below: bool },
    Link { below: bool },
    Unlink { below: bool },
    Symlink { below: bool },
    ReadLink { below: bool },
    Look { below: bool },
    /// It tells the size of what a descriptor is for.
    Measure,
    MakeNode { below: bool },
    Enter,
    EnterHeld,
    Map,
    Unmap,
    /// It changes what a process may do with its memory.
    Protect,
    /// It gives a descriptor, or two, of what no trace says.
    OpenUnsaid(Skip),
    PairUnsaid(Skip),
    /// It does what no trace says.
    Skipped(Skip),
}

const CALLS: [(&[u8], Call); 94] = [
    (b"open", Call::Open { below: false }),
    (b"openat", Call::Open { below: true }),
    (b"openat2", Call::Open { below: true }),
    (b"creat", Call::Creat),
    (b"close", Call::Close),
    (b"close_range", Call::CloseRange),
    (b"read", Call::Read { offset: false }),
    (b"readv", Call::Read { offset: false }),
    (b"pread64", Call::Read { offset: true }),
    (b"preadv", Call::Read { offset: true }),
    (b"preadv2", Call::Read { offset: true }),
    (b"write", Call::Write { offset: false }),
    (b"writev", Call::Write { offset: false }),
    (b"pwrite64", Call::Write { offset: true }),
    (b"pwritev", Call::Write { offset: true }),
    (b"pwritev2", Call::Write { offset: true }),
    (b"vmsplice", Call::Pour),
    (b"sendfile", Call::SendFile),
    (b"copy_file_range", Call::CopyRange),
    (b"splice", Call::Splice),
    (b"tee", Call::Tee),
    (b"ioctl", Call::Device),
    (b"lseek", Call::Seek),
    (b"truncate", Call::CutName),
    (b"ftruncate", Call::Cut),
    (b"dup", Call::Duplicate),
    (b"dup2", Call::Duplicate),
    (b"dup3", Call::Duplicate),
    (b"fcntl", Call::Control),
    (b"pipe", Call::Pipe),
    (b"pipe2", Call::Pipe),
    (b"memfd_create", Call::Anonymous),
    (b"fork", Call::Fork),
    (b"vfork", Call::Fork),
    (b"clone", Call::Fork),
    (b"clone3", Call::Fork),
    (b"execve", Call::Exec { below: false }),
    (b"execveat", Call::Exec { below: true }),
    (b"exit_group", Call::Leave),
    (b"wait4", Call::Wait),
    (b"waitid", Call::WaitFor),
    (b"rename", Call::Rename { below: false }),
    (b"renameat", Call::Rename { below: true }),
    (b"renameat2", Call::Rename { below: true }),
    (b"link", Call::Link { below: false }),
    (b"linkat", Call::Link { below: true }),
    (b"unlink", Call::Unlink { below: false }),
    (b"unlinkat", Call::Unlink { below: true }),
    (b"symlink", Call::Symlink { below: false }),
    (b"symlinkat", Call::Symlink { below: true }),
    (b"readlink", Call::ReadLink { below: false }),
    (b"readlinkat", Call::ReadLink { below: true }),
    (b"stat", Call::Look { below: false }),
    (b"lstat", Call::Look { below: false }),
    (b"fstat", Call::Measure),
    (b"access", Call::Look { below: false }),
    (b"newfstatat", Call::Look { below: true }),
    (b"statx", Call::Look { below: true }),
    (b"faccessat", Call::Look { below: true }),
    (b"faccessat2", Call::Look { below: true }),
    (b"mknod", Call::MakeNode { below: false }),
    (b"mknodat", Call::MakeNode { below: true }),
    (b"chdir", Call::Enter),
    (b"fchdir", Call::EnterHeld),
    (b"mmap", Call::Map),
    (b"munmap", Call::Unmap),
    (b"msync", Call::Unmap),
    (b"mprotect", Call::Protect),
    (b"pkey_mprotect", Call::Protect),
    (b"socket", Call::OpenUnsaid(Skip::Socket)),
    (b"accept", Call::OpenUnsaid(Skip::Socket)),
    (b"accept4", Call::OpenUnsaid(Skip::Socket)),
    (b"socketpair", Call::PairUnsaid(Skip::Socket)),
    (b"connect", Call::Skipped(Skip::Socket)),
    (b"sendto", Call::Skipped(Skip::Socket)),
    (b"recvfrom", Call::Skipped(Skip::Socket)),
    (b"sendmsg", Call::Skipped(Skip::Socket)),
    (b"sendmmsg", Call::Skipped(Skip::Socket)),
    (b"recvmsg", Call::Skipped(Skip::Socket)),
    (b"recvmmsg", Call::Skipped(Skip::Socket)),
    (b"io_uring_setup", Call::OpenUnsaid(Skip::Queue)),
    (b"io_uring_enter", Call::Skipped(Skip::Queue)),
    (b"io_submit", Call::Skipped(Skip::Queue)),
    (b"mq_open", Call::OpenUnsaid(Skip::Queue)),
    (b"mq_timedsend", Call::Skipped(Skip::Queue)),
    (b"mq_timedreceive", Call::Skipped(Skip::Queue)),
    (b"msgsnd", Call::Skipped(Skip::Queue)),
    (b"msgrcv", Call::Skipped(Skip::Queue)),
    (b"shmat", Call::Skipped(Skip::Memory)),
    (b"process_vm_readv", Call::Skipped(Skip::Memory)),
    (b"process_vm_writev", Call::Skipped(Skip::Memory)),
    (b"chroot", Call::Skipped(Skip::Root)),
    (b"pivot_root", Call::Skipped(Skip::Root)),
    (b"mount", Call::Skipped(Skip::Root)),
];

/// The call with this name, and the name; None where it tells nothing of files, pipes or processes.
pub fn call_of(name: &[u8]) -> Option<(&'static [u8], Call)> {
    CALLS.iter().copied().find(|row| row.0 == name)
}

impl Call {
    // Whether it gives its process bytes, a descriptor or a child's end, or takes a name away. Then it stands in the trace where it
    // ended, and else where it began.
    fn stands_at_end(&self) -> bool {
        matches!(
            self,
            Call::Open { .. }
                | Call::Creat
                | Call::Read { .. }
                | Call::CopyRange
                | Call::Splice
                | Call::Tee
                | Call::Device
                | Call::Duplicate
                | Call::Control
                | Call::Pipe
                | Call::Anonymous
                | Call::Wait
                | Call::WaitFor
                | Call::Unlink { .. }
                | Call::Map
                | Call::OpenUnsaid(_)
                | Call::PairUnsaid(_)
        )
    }
}

// Whether the first argument of a call is a file's descriptor, as far as its path stands beside it.
fn is_from_file(arguments: &[u8]) -> bool {
    let fd = before(arguments, b',');
    behind(fd, before(fd, b'<').len()).starts_with(b"<\\x2f")
}

/// Whether a call that begins so stands where it ended. A splice from a file gives nothing to its process: it stands where it began, so
/// that no reader of its pipe comes before it.
pub(crate) fn stands_at_end(front: &[u8]) -> bool {
    let name = before(front, b'(');
    match call_of(name) {
        Some((_, Call::Splice)) => !is_from_file(behind(front, name.len().saturating_add(1))),
        Some((_, call)) => call.stands_at_end(),
        None => false,
    }
}
