//! The calls of a process with their arguments.
ghost use Rattle.std.specs.Prelude.{◌≡◌};
ghost use Rattle.pass_plain.specs.Calls.{name_of, is_within as is_within_of, ask_of};

use pass_entry::{Ask, Bytes, CallName, Mode, Pnode, TRANSFER_LIMIT, Text};
use std::alloc::AllocError;

/// A call that a process makes, with its arguments. Descriptors are numbers below 64, offsets and sizes are bytes.
#[derive(Drop)]
pub enum Request {
    /// The outside begins the first process.
    Start,
    Creat { fd: u8, name: Text },
    OpenName { fd: u8, name: Text, mode: Mode },
    CloseFd { fd: u8 },
    Read { fd: u8, len: u32 },
    Write { fd: u8, bytes: Bytes },
    Seek { fd: u8, at: u64 },
    Truncate { fd: u8, size: u64 },
    MakePipe { reader: u8, writer: u8 },
    Fork,
    Exec { name: Text, args: Text },
    WaitChild { child: Pnode },
    Await { child: Pnode },
    Exit,
    Rename { from: Text, to: Text },
    Unlink { name: Text },
    MakeObj { fd: u8 },
    Revive { fd: u8, pnode: Pnode },
    FreezeObj { fd: u8 },
    /// `target` gets a reference to `source`.
    Disclose { target: u8, source: u8 },
    TagObj { fd: u8, attr: Text, value: Text },
    Sync { fd: u8 },
}

impl Request {
    /// The name of the call.
    pub fn name(&self) -> CallName
        ensures { result ≡ name_of self.now }
    {
        match self {
            Request::Start => CallName::Start,
            Request::Creat { .. } => CallName::Creat,
            Request::OpenName { .. } => CallName::OpenName,
            Request::CloseFd { .. } => CallName::CloseFd,
            Request::Read { .. } => CallName::Read,
            Request::Write { .. } => CallName::Write,
            Request::Seek { .. } => CallName::Seek,
            Request::Truncate { .. } => CallName::Truncate,
            Request::MakePipe { .. } => CallName::MakePipe,
            Request::Fork => CallName::Fork,
            Request::Exec { .. } => CallName::Exec,
            Request::WaitChild { .. } => CallName::WaitChild,
            Request::Await { .. } => CallName::Await,
            Request::Exit => CallName::Exit,
            Request::Rename { .. } => CallName::Rename,
            Request::Unlink { .. } => CallName::Unlink,
            Request::MakeObj { .. } => CallName::MakeObj,
            Request::Revive { .. } => CallName::Revive,
            Request::FreezeObj { .. } => CallName::FreezeObj,
            Request::Disclose { .. } => CallName::Disclose,
            Request::TagObj { .. } => CallName::TagObj,
            Request::Sync { .. } => CallName::Sync,
        }
    }

    /// The arguments are within their limits: descriptors below 64, reads of at least one byte,
    /// names that are names. Arguments of a program are a text, and so within theirs.
    pub fn is_within(&self) -> bool
        ensures { result ≡ is_within_of self.now }
    {
        match self {
            Request::Start
            | Request::Fork
            | Request::Exit
            | Request::WaitChild { .. }
            | Request::Await { .. } => true,
            Request::Creat { fd, name } => *fd < 64 && name.is_name(),
            Request::OpenName { fd, name, mode } => {
                *fd < 64 && name.is_name() && *mode != Mode::App
            }
            Request::Read { fd, len } => *fd < 64 && 1 <= *len && *len as usize <= TRANSFER_LIMIT,
            Request::Write { fd, bytes } => *fd < 64 && bytes.as_bytes().len() <= TRANSFER_LIMIT,
            Request::MakePipe { reader, writer } => *reader < 64 && *writer < 64,
            Request::Exec { name, args } => {
                let _line = args.as_bytes();
                name.is_name()
            }
            Request::Rename { from, to } => from.is_name() && to.is_name(),
            Request::Unlink { name } => name.is_name(),
            Request::Disclose { target, source } => *target < 64 && *source < 64,
            Request::TagObj { fd, attr, value } => *fd < 64 && attr.is_name() && value.is_name(),
            Request::CloseFd { fd }
            | Request::Seek { fd, .. }
            | Request::Truncate { fd, .. }
            | Request::MakeObj { fd }
            | Request::Revive { fd, .. }
            | Request::FreezeObj { fd }
            | Request::Sync { fd } => *fd < 64,
        }
    }

    /// What the call asks of the state of its own process; None where nothing is asked.
    pub fn ask(&self) -> Option<Ask>
        ensures { result ≡ ask_of self.now }
    {
        match self {
            Request::Creat { fd, .. }
            | Request::OpenName { fd, .. }
            | Request::MakeObj { fd }
            | Request::Revive { fd, .. } => Some(Ask::Free { fd: *fd }),
            Request::CloseFd { fd }
            | Request::FreezeObj { fd }
            | Request::TagObj { fd, .. }
            | Request::Sync { fd } => Some(Ask::Held { fd: *fd }),
            Request::Read { fd, .. } => Some(Ask::ToRead { fd: *fd }),
            Request::Write { fd, bytes } => Some(Ask::ToWrite {
                fd: *fd,
                len: bytes.as_bytes().len() as u32,
            }),
            Request::Seek { fd, at } => Some(Ask::ToSeek { fd: *fd, at: *at }),
            Request::Truncate { fd, size } => Some(Ask::ToCut {
                fd: *fd,
                size: *size,
            }),
            Request::MakePipe { reader, writer } => Some(Ask::FreeTwo {
                first: *reader,
                second: *writer,
            }),
            Request::WaitChild { child } | Request::Await { child } => {
                Some(Ask::Child { pnode: *child })
            }
            Request::Disclose { target, source } => Some(Ask::HeldTwo {
                first: *target,
                second: *source,
            }),
            Request::Start
            | Request::Fork
            | Request::Exec { .. }
            | Request::Exit
            | Request::Rename { .. }
            | Request::Unlink { .. } => None,
        }
    }
}

impl Clone for Request {
    ghost is_clone = { λ a b. b ≡ a };

    fn clone(&self) -> Result<Request, AllocError> {
        Ok(match self {
            Request::Start => Request::Start,
            Request::Creat { fd, name } => Request::Creat {
                fd: *fd,
                name: name.clone()?,
            },
            Request::OpenName { fd, name, mode } => Request::OpenName {
                fd: *fd,
                name: name.clone()?,
                mode: *mode,
            },
            Request::CloseFd { fd } => Request::CloseFd { fd: *fd },
            Request::Read { fd, len } => Request::Read { fd: *fd, len: *len },
            Request::Write { fd, bytes } => Request::Write {
                fd: *fd,
                bytes: bytes.clone()?,
            },
            Request::Seek { fd, at } => Request::Seek { fd: *fd, at: *at },
            Request::Truncate { fd, size } => Request::Truncate {
                fd: *fd,
                size: *size,
            },
            Request::MakePipe { reader, writer } => Request::MakePipe {
                reader: *reader,
                writer: *writer,
            },
            Request::Fork => Request::Fork,
            Request::Exec { name, args } => Request::Exec {
                name: name.clone()?,
                args: args.clone()?,
            },
            Request::WaitChild { child } => Request::WaitChild { child: *child },
            Request::Await { child } => Request::Await { child: *child },
            Request::Exit => Request::Exit,
            Request::Rename { from, to } => Request::Rename {
                from: from.clone()?,
                to: to.clone()?,
            },
            Request::Unlink { name } => Request::Unlink {
                name: name.clone()?,
            },
            Request::MakeObj { fd } => Request::MakeObj { fd: *fd },
            Request::Revive { fd, pnode } => Request::Revive {
                fd: *fd,
                pnode: *pnode,
            },
            Request::FreezeObj { fd } => Request::FreezeObj { fd: *fd },
            Request::Disclose { target, source } => Request::Disclose {
                target: *target,
                source: *source,
            },
            Request::TagObj { fd, attr, value } => Request::TagObj {
                fd: *fd,
                attr: attr.clone()?,
                value: value.clone()?,
            },
            Request::Sync { fd } => Request::Sync { fd: *fd },
        })
    }
}
