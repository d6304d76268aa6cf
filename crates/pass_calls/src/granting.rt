//! The calls that ask the registry for an object and attach a descriptor of it: their two steps.
ghost use Rattle.std.specs.Prelude.{◌≡◌, ◌<◌, ◌≤◌, [], None, true, IfOk};
ghost use Rattle.pass_entry.specs.declared.entry.Reply.TheVariants as answer;
ghost use Rattle.pass_plain.specs.Calls.{is_within, name_of};
ghost use Rattle.pass_plain.specs.Places.{kept_by};
ghost use Rattle.pass_plain.specs.Processes.{process_act, refusal};
ghost use Rattle.pass_hold.specs.Places.{HasRoom};
ghost use Rattle.pass_hold.specs.Entering.{MayEnter, Enters};
ghost use Rattle.pass_proc.specs.Acts.{own_entry};
ghost use Rattle.pass_registry.specs.Desks.{on_registry};
ghost use Rattle.pass_registry.specs.Outcomes.{reply_made};
ghost use Rattle.pass_answer.specs.Answers.{Answers};
ghost use Rattle.pass_calls.specs.Grants.{IfMade, IsGranted, IsLow, IsReady, ask_of_grant, attach_of, attached_by, call_of, first_of, name_room, request_of};
ghost use Rattle.pass_calls.specs.declared.granting.Attach.TheVariants as attach;

use crate::beginning::begin;
use pass_answer::{CallEnd, Moved};
use pass_entry::{CallFault, CallName, Descriptor, Kind, Mode, Pnode, Record, Text};
use pass_hold::{Caller, Shelf, Whose};
use pass_proc::{Proc, ProcessDesk};
use pass_registry::{BindRoom, RegistryDesk};
use std::alloc::Global;

/// What a call asks of the registry, and the numbers of the descriptors that it attaches then, with the memory that this takes.
#[derive(Drop)]
pub(crate) enum Grant {
    /// A new file of a name, for reading and writing.
    Bind {
        fd: u8,
        room: BindRoom,
    },
    /// The file of a name.
    Find {
        fd: u8,
        name: Text,
        mode: Mode,
    },
    /// A new app object.
    App {
        fd: u8,
        list: Vec<Record>,
    },
    /// The app object of a number.
    Known {
        fd: u8,
        pnode: Pnode,
    },
    /// A new pipe, with a descriptor of each end.
    Pipe {
        reader: u8,
        writer: u8,
        list: Vec<Record>,
    },
}

/// The descriptors that a call attaches, but for their object.
#[derive(Clone, Copy, Drop)]
pub(crate) enum Attach {
    One {
        call: CallName,
        fd: u8,
        kind: Kind,
        mode: Mode,
    },
    Ends {
        reader: u8,
        writer: u8,
    },
}

impl Grant {
    /// The descriptors that come of it.
    fn attach(&self) -> Attach
        ensures { result ≡ attach_of self.now }
    {
        match self {
            Grant::Bind { fd, .. } => one(CallName::Creat, *fd, Kind::File, Mode::Both),
            Grant::Find { fd, mode, .. } => one(CallName::OpenName, *fd, Kind::File, *mode),
            Grant::App { fd, .. } => one(CallName::MakeObj, *fd, Kind::App, Mode::App),
            Grant::Known { fd, .. } => one(CallName::Revive, *fd, Kind::App, Mode::App),
            Grant::Pipe { reader, writer, .. } => Attach::Ends {
                reader: *reader,
                writer: *writer,
            },
        }
    }
}

fn one(call: CallName, fd: u8, kind: Kind, mode: Mode) -> Attach
    ensures { result ≡ attach.One call fd kind mode }
{
    Attach::One {
        call,
        fd,
        kind,
        mode,
    }
}

/// The first step, on the registry.
fn ask_registry<J: Whose>(
    alloc: Global,
    registry: &mut RegistryDesk<J>,
    shelf: &mut Shelf<J>,
    caller: &mut Caller<J>,
    who: Pnode,
    number: u64,
    grant: Grant,
) -> Result<Pnode, CallFault>
    requires ready { IsReady grant }
    requires room { name_room grant ≤ registry.old.room }
    requires place { HasRoom shelf.old caller.old.held 3 }
    requires who { caller.old.who ≡ who }
    requires entry { (reply : _) → MayEnter caller.old.seen (on_registry who number (name_of (request_of grant)) (first_of grant) reply) (kept_by reply 2) }
    ensures entry { Enters J.book.session caller.old caller.new registry.old.seen (on_registry who number (name_of (request_of grant)) (first_of grant) (reply_made result)) (kept_by (reply_made result) 2) }
    ensures granted { IfOk result (λ pnode. IsGranted J.book.session registry.old.seen registry.new.seen grant pnode) }
{
    match grant {
        Grant::Bind { room, .. } => registry.bind(shelf, caller, who, number, room),
        Grant::Find { name, .. } => {
            registry.find(alloc, shelf, caller, who, number, CallName::OpenName, name)
        }
        Grant::App { list, .. } => {
            let call = CallName::MakeObj;
            registry.mint(shelf, caller, who, number, call, Kind::App, list, 2)
        }
        Grant::Known { pnode, .. } => registry.known(alloc, shelf, caller, who, number, pnode),
        Grant::Pipe { list, .. } => {
            let call = CallName::MakePipe;
            registry.mint(shelf, caller, who, number, call, Kind::Pipe, list, 2)
        }
    }
}

/// The second step, on the process.
fn attach_object<J: Whose>(
    alloc: Global,
    shelf: &mut Shelf<J>,
    caller: &mut Caller<J>,
    process: &mut ProcessDesk<J>,
    number: u64,
    attach: Attach,
    pnode: Pnode,
)
    requires low { IsLow attach }
    requires place { 0 < caller.old.held }
    requires who { caller.old.who ≡ process.old.who }
    requires entry { MayEnter caller.old.seen (own_entry process.old.who number (call_of attach) (attached_by attach pnode) answer.Done) 0 }
    ensures entry { Enters J.book.session caller.old caller.new process.old.seen (own_entry process.old.who number (call_of attach) (attached_by attach pnode) answer.Done) 0 }
    ensures state { process.new ≡ record process.old { seen = caller.new.seen; state = process_act [] process.old.state (attached_by attach pnode) } }
{
    match attach {
        Attach::One {
            call,
            fd,
            kind,
            mode,
        } => {
            let descriptor = Descriptor {
                pnode,
                kind,
                mode,
                offset: 0,
            };
            process.attach(alloc, shelf, caller, number, call, fd, &descriptor);
        }
        Attach::Ends { reader, writer } => {
            process.attach_pipe(alloc, shelf, caller, number, reader, writer, pnode);
        }
    }
}

/// A call whose memory is taken.
pub(crate) fn granted<J: Whose>(
    alloc: Global,
    registry: &mut RegistryDesk<J>,
    shelf: &mut Shelf<J>,
    proc: &mut Proc<J>,
    grant: Grant,
) -> Result<Moved, CallEnd>
    requires ready { IsReady grant }
    requires room { name_room grant ≤ registry.old.room }
    requires low { IsLow (attach_of grant) }
    requires within { is_within (request_of grant) ≡ true }
    requires free { refusal proc.old.state (ask_of_grant grant) ≡ None }
    ensures call { Answers J.book.session J.places proc.old proc.new (request_of grant) result }
    ensures granted { IfMade result (λ pnode. IsGranted J.book.session registry.old.seen registry.new.seen grant pnode) }
{
    let number = begin(shelf, proc)?;
    let attach = grant.attach();
    let who = proc.process.pnode();
    let _ = proc.caller.held();
    proc.number = number;
    proc.way = None;
    let caller = &mut proc.caller;
    match ask_registry(alloc, registry, shelf, caller, who, number, grant) {
        Err(fault) => Err(CallEnd::Fault(fault)),
        Ok(pnode) => {
            attach_object(
                alloc,
                shelf,
                caller,
                &mut proc.process,
                number,
                attach,
                pnode,
            );
            Ok(Moved::Made(pnode))
        }
    }
}
