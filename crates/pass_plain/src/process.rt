//! The state of one process in a history.
ghost use Rattle.std.specs.Prelude.{◌≡◌, ◌<◌, ◌≤◌, ◌+◌, ◌^◌, ◌&&◌, None, OnOk, OnErr, length, List, nat_lt};
ghost use Rattle.std.specs.Bool.{OnFalse};
ghost use Rattle.pass_entry.specs.declared.entry.Ask.TheVariants as ask;
ghost use Rattle.std.specs.FinMap as finite_map;
ghost use Rattle.std.specs.FinSet as finite_set;
ghost use Rattle.pass_entry.specs.Limits.{transfer_limit};
ghost use Rattle.pass_entry.specs.declared.entry.Entry.{Entry};
ghost use Rattle.pass_plain.specs.Processes.{Process, new_process, process_act, changed_at, risen, OffsetsFit, AllBelow64, Gains, changes_process as changes_process_of, faults_if, is_held, pipe_end as pipe_end_of, refusal as refusal_of, is_file, file_limit};

use pass_entry::{Act, Ask, CallFault, Descriptor, Descriptors, FILE_LIMIT, Kind, Mode, Pnode};
use std::alloc::{AllocError, Global};
use std::collections::BTreeSet;
use std::marker::Model;

/// What a process has become by the entries on it.
#[derive(Drop)]
pub struct ProcessState {
    ended: bool,
    descriptors: Descriptors,
    last_read: Vec<u8>,
    children: BTreeSet<Pnode>,
}

impl Model for ProcessState {
    ghost use Rattle.pass_entry.specs.contracts.objects.Descriptor as descriptor_type;
    ghost use Rattle.std.specs.Coded.{codes, coded_ℕ};
    ghost use Rattle.std.specs.Ordering.{nat_cmp};
    ghost use Rattle.std.specs.FinMap as finite_map;
    ghost use Rattle.std.specs.FinSet as finite_set;
    ghost use Rattle.pass_plain.specs.Processes.{Process};

    ghost Value = { Process };

    ghost coded = { Prim.hlevel (codes, finite_map.code {R = nat_cmp} coded_ℕ descriptor_type.the_row.coded, finite_set.code {R = nat_cmp} coded_ℕ) };

    ghost view = { λ p. record { ended = p.ended; descriptors = p.descriptors; last_read = p.last_read.items; children = finite_set.from_list p.children.keys } };
}

impl ProcessState {
    /// A process that has just begun, with nothing.
    pub fn new(alloc: Global) -> ProcessState
        ensures { result ≡ new_process }
    {
        ProcessState {
            ended: false,
            descriptors: Descriptors::new(),
            last_read: Vec::new(alloc),
            children: BTreeSet::new(alloc),
        }
    }

    /// It has exited.
    pub fn is_ended(&self) -> bool
        ensures { result ≡ self.now.ended }
    {
        self.ended
    }

    /// What it holds under this number.
    pub fn descriptor(&self, fd: u8) -> Option<Descriptor>
        ensures { result ≡ finite_map.get self.now.descriptors fd }
    {
        self.descriptors.get(fd)
    }

    /// All that it holds.
    pub fn descriptors(&self) -> &Descriptors
        ensures { result.now ≡ self.now.descriptors }
    {
        &self.descriptors
    }

    /// It made this child and has not waited for it.
    fn has_child(&self, child: Pnode) -> bool
        ensures { result ≡ finite_set.contains self.now.children child }
    {
        self.children.contains(&child)
    }

    /// The fault for which its own state refuses what a call asks.
    pub fn refusal(&self, ask: &Ask) -> Option<CallFault>
        ensures { result ≡ refusal_of self.now ask.now }
    {
        match *ask {
            Ask::Free { fd } => fault_if(self.holds(fd), CallFault::FdTaken),
            Ask::FreeTwo { first, second } => fault_if(
                first == second || self.holds(first) || self.holds(second),
                CallFault::FdTaken,
            ),
            Ask::Held { fd } => fault_if(!self.holds(fd), CallFault::BadFd),
            Ask::HeldTwo { first, second } => fault_if(
                !(self.holds(first) && self.holds(second)),
                CallFault::BadFd,
            ),
            Ask::ToRead { fd } => self.read_refusal(fd),
            Ask::ToWrite { fd, len } => self.write_refusal(fd, len),
            Ask::ToCut { fd, size } => self.cut_refusal(fd, size),
            Ask::ToSeek { fd, at } => self.seek_refusal(fd, at),
            Ask::Child { pnode } => fault_if(!self.has_child(pnode), CallFault::NoChild),
        }
    }

    fn holds(&self, fd: u8) -> bool
        ensures { result ≡ is_held self.now fd }
    {
        self.descriptors.get(fd).is_some()
    }

    fn read_refusal(&self, fd: u8) -> Option<CallFault>
        ensures { result ≡ refusal_of self.now (ask.ToRead fd) }
    {
        match self.descriptors.get(fd) {
            None => Some(CallFault::BadFd),
            Some(d) => fault_if(
                d.kind == Kind::App || d.mode == Mode::Write,
                CallFault::BadMode,
            ),
        }
    }

    fn write_refusal(&self, fd: u8, len: u32) -> Option<CallFault>
        ensures { result ≡ refusal_of self.now (ask.ToWrite fd len) }
    {
        match self.descriptors.get(fd) {
            None => Some(CallFault::BadFd),
            Some(d) => {
                if d.kind == Kind::App || d.mode == Mode::Read {
                    Some(CallFault::BadMode)
                } else {
                    fault_if(passes_limit(&d, len), CallFault::TooBig)
                }
            }
        }
    }

    fn cut_refusal(&self, fd: u8, size: u64) -> Option<CallFault>
        ensures { result ≡ refusal_of self.now (ask.ToCut fd size) }
    {
        match self.descriptors.get(fd) {
            None => Some(CallFault::BadFd),
            Some(d) => {
                if d.kind != Kind::File || d.mode == Mode::Read {
                    Some(CallFault::BadMode)
                } else {
                    fault_if(size > FILE_LIMIT, CallFault::TooBig)
                }
            }
        }
    }

    fn seek_refusal(&self, fd: u8, at: u64) -> Option<CallFault>
        ensures { result ≡ refusal_of self.now (ask.ToSeek fd at) }
    {
        match self.descriptors.get(fd) {
            None => Some(CallFault::BadFd),
            Some(d) => {
                if d.kind != Kind::File {
                    Some(CallFault::BadMode)
                } else {
                    fault_if(at > FILE_LIMIT, CallFault::TooBig)
                }
            }
        }
    }

    /// Do an act on the process, as an entry that is no fault does. `gained` are the bytes that a
    /// `Gain` gains, and nothing for another act. After a refusal nothing has changed.
    pub fn apply(&mut self, alloc: Global, act: &Act, gained: &[u8]) -> Result<(), AllocError>
        requires offsets { OffsetsFit self.old.descriptors }
        requires short { length gained.now ≤ transfer_limit }
        requires numbers { AllBelow64 act.now }
        ensures ok { OnOk result ((past : List Entry) → Gains past act.now gained.now → self.new ≡ process_act past self.old act.now) }
        ensures err { OnErr result (self.new ≡ self.old) }
    {
        match act {
            Act::Attach { fd, descriptor } => self.descriptors.put(*fd, *descriptor),
            Act::AttachPipe {
                reader,
                writer,
                pnode,
            } => {
                self.descriptors.put(*reader, pipe_end(*pnode, Mode::Read));
                self.descriptors.put(*writer, pipe_end(*pnode, Mode::Write));
            }
            Act::Detach { fd } => {
                let _ = self.descriptors.remove(*fd);
            }
            Act::Seek { fd, at } => move_to(&mut self.descriptors, *fd, *at),
            Act::Show { fd, len } => raise(&mut self.descriptors, *fd, u64::from(*len)),
            Act::Spawn { child } => {
                let _ = self.children.insert(*child)?;
            }
            Act::Born { descriptors, .. } => self.descriptors = descriptors.descriptors(),
            Act::Gain { fd, .. } => {
                self.last_read = Vec::from_slice(alloc, gained)?;
                raise(&mut self.descriptors, *fd, gained.len() as u64);
            }
            Act::Exec { .. } => self.last_read = Vec::new(alloc),
            Act::Gather { child, .. } => {
                let _ = self.children.remove(child);
            }
            Act::Release { child } => {
                let _ = self.children.remove(child);
            }
            Act::Finish => {
                self.ended = true;
                self.descriptors = Descriptors::new();
            }
            _ => {}
        }
        Ok(())
    }
}

fn fault_if(applies: bool, fault: CallFault) -> Option<CallFault>
    ensures { result ≡ faults_if applies fault None }
{
    if applies { Some(fault) } else { None }
}

/// A transfer of so many bytes goes past the limit of a file.
fn passes_limit(d: &Descriptor, len: u32) -> bool
    ensures { result ≡ is_file d.now && nat_lt file_limit (d.now.offset + len) }
{
    d.kind == Kind::File && (d.offset > FILE_LIMIT || d.offset + u64::from(len) > FILE_LIMIT)
}

/// The act changes the state of its process.
pub fn changes_process(act: &Act) -> bool
    ensures exact { result ≡ changes_process_of act.now }
    ensures kept { OnFalse result ((past : List Entry) (p : Process) → process_act past p act.now ≡ p) }
{
    matches!(
        act,
        Act::Attach { .. }
            | Act::AttachPipe { .. }
            | Act::Detach { .. }
            | Act::Seek { .. }
            | Act::Show { .. }
            | Act::Spawn { .. }
            | Act::Born { .. }
            | Act::Gain { .. }
            | Act::Exec { .. }
            | Act::Gather { .. }
            | Act::Release { .. }
            | Act::Finish
    )
}

/// The descriptor of an end of a new pipe.
pub fn pipe_end(pnode: Pnode, mode: Mode) -> Descriptor
    ensures { result ≡ pipe_end_of pnode mode }
{
    Descriptor {
        pnode,
        kind: Kind::Pipe,
        mode,
        offset: 0,
    }
}

/// Sets the offset of a descriptor, where it is held.
pub fn move_to(descriptors: &mut Descriptors, fd: u8, at: u64)
    requires { fd < 64 }
    ensures { descriptors.new ≡ changed_at descriptors.old fd (λ d. record d { offset = at }) }
{
    if let Some(d) = descriptors.get(fd) {
        descriptors.put(fd, Descriptor { offset: at, ..d });
    }
}

/// A transfer of so many bytes by the descriptor moves the offset of a file.
pub fn raise(descriptors: &mut Descriptors, fd: u8, by: u64)
    requires fits { OffsetsFit descriptors.old }
    requires number { fd < 64 }
    requires short { by < 2 ^ 32 }
    ensures { descriptors.new ≡ changed_at descriptors.old fd (risen by) }
{
    if let Some(d) = descriptors.get(fd) {
        if d.kind == Kind::File {
            descriptors.put(
                fd,
                Descriptor {
                    offset: d.offset + by,
                    ..d
                },
            );
        } else {
            descriptors.put(fd, d);
        }
    }
}

impl Clone for ProcessState {
    ghost is_clone = { λ a b. b ≡ a };

    fn clone(&self) -> Result<ProcessState, AllocError> {
        let descriptors = self.descriptors.clone()?;
        let last_read = self.last_read.clone()?;
        let children = self.children.clone()?;
        Ok(ProcessState {
            ended: self.ended,
            descriptors,
            last_read,
            children,
        })
    }
}
