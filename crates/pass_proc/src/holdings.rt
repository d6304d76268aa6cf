//! What a living process holds.
ghost use Rattle.std.specs.Prelude.{◌≡◌, ◌<◌, ◌≤◌, ◌+◌, ◌-◌, ◌^◌, false, true, List, length, OnOk, OnErr};
ghost use Rattle.std.specs.FinMap as finite_map;
ghost use Rattle.std.specs.FinSet as finite_set;
ghost use Rattle.pass_entry.specs.declared.entry.Ask.TheVariants as ask;
ghost use Rattle.pass_entry.specs.declared.entry.Entry.{Entry};
ghost use Rattle.pass_plain.specs.Processes.{new_process, process_act, OffsetsFit, AllBelow64, Gains, is_held, refusal as refusal_of};
ghost use Rattle.pass_proc.specs.Acts.{bytes_in, is_of_living, room_needed};

use crate::children::Children;
use crate::refusals::{cut_fault, fault_if, read_fault, seek_fault, write_fault};
use pass_entry::{Act, Ask, Bytes, CallFault, Descriptor, Descriptors, Mode, Pnode};
use pass_plain::process::{move_to, pipe_end, raise};
use std::alloc::{AllocError, Global};
use std::marker::Model;

/// A living process's descriptors, the bytes that it read last, and its children that it has not waited for.
#[derive(Drop)]
pub(crate) struct Holdings {
    descriptors: Descriptors,
    last: Option<Bytes>,
    children: Children,
}

impl Model for Holdings {
    ghost use Rattle.std.specs.Prelude.{false};
    ghost use Rattle.std.specs.Coded.{codes, coded_ℕ};
    ghost use Rattle.std.specs.Ordering.{nat_cmp};
    ghost use Rattle.std.specs.FinMap as finite_map;
    ghost use Rattle.std.specs.FinSet as finite_set;
    ghost use Rattle.pass_entry.specs.contracts.objects.Descriptor as descriptor_type;
    ghost use Rattle.pass_proc.specs.Acts.{bytes_in};
    ghost use Rattle.pass_proc.specs.Views.{HoldingsView};

    ghost Value = { HoldingsView };

    ghost coded = { Prim.hlevel (codes, finite_map.code {R = nat_cmp} coded_ℕ descriptor_type.the_row.coded, finite_set.code {R = nat_cmp} coded_ℕ) };

    ghost view = { λ h. record { state = record { ended = false; descriptors = h.descriptors; last_read = bytes_in h.last; children = h.children.pnodes }; room = h.children.room } };
}

impl Holdings {
    /// A process that holds these descriptors, has read nothing and has no children.
    pub(crate) fn new(alloc: Global, descriptors: Descriptors) -> Holdings
        ensures { result ≡ record { state = record new_process { descriptors = descriptors }; room = 0 } }
    {
        Holdings {
            descriptors,
            last: None,
            children: Children::new(alloc),
        }
    }

    pub(crate) fn descriptor(&self, fd: u8) -> Option<Descriptor>
        ensures { result ≡ finite_map.get self.now.state.descriptors fd }
    {
        self.descriptors.get(fd)
    }

    pub(crate) fn descriptors(&self) -> &Descriptors
        ensures { result.now ≡ self.now.state.descriptors }
    {
        &self.descriptors
    }

    /// The bytes of the last answered read.
    pub(crate) fn last(&self) -> &[u8]
        ensures { result.now ≡ self.now.state.last_read }
    {
        match &self.last {
            Some(bytes) => bytes.as_bytes(),
            None => &[],
        }
    }

    /// How many children there are.
    pub(crate) fn children(&self) -> usize
        ensures len { result ≡ finite_set.len self.now.state.children }
        ensures few { result < 2 ^ 63 }
    {
        self.children.len()
    }

    /// For how many more children there is room.
    pub(crate) fn room(&self) -> u32
        ensures { result ≡ self.now.room }
    {
        self.children.room()
    }

    /// Makes room for one more child.
    pub(crate) fn reserve(&mut self) -> Result<(), AllocError>
        ensures room { OnOk result (1 ≤ self.new.room) }
        ensures grows { self.old.room ≤ self.new.room }
        ensures same { self.new ≡ record self.old { room = self.new.room } }
        ensures err { OnErr result (self.new ≡ self.old) }
    {
        self.children.reserve()
    }

    /// Has room for fewer children again.
    pub(crate) fn lower(&mut self, room: u32)
        requires { room ≤ self.old.room }
        ensures { self.new ≡ record self.old { room = room } }
    {
        self.children.lower(room);
    }

    /// The fault by which the process refuses what a call asks of it.
    pub(crate) fn refusal(&self, ask: &Ask) -> Option<CallFault>
        ensures { result ≡ refusal_of self.now.state ask.now }
    {
        match *ask {
            Ask::Free { fd } => fault_if(self.holds(fd), CallFault::FdTaken),
            Ask::FreeTwo { first, second } => fault_if(
                first == second || self.holds(first) || self.holds(second),
                CallFault::FdTaken,
            ),
            Ask::Held { fd } => fault_if(!self.holds(fd), CallFault::BadFd),
            Ask::HeldTwo { first, second } => fault_if(
                !(self.holds(first) && self.holds(second)),
                CallFault::BadFd,
            ),
            Ask::ToRead { fd } => self.read_refusal(fd),
            Ask::ToWrite { fd, len } => self.write_refusal(fd, len),
            Ask::ToCut { fd, size } => self.cut_refusal(fd, size),
            Ask::ToSeek { fd, at } => self.seek_refusal(fd, at),
            Ask::Child { pnode } => fault_if(!self.children.has(pnode), CallFault::NoChild),
        }
    }

    fn holds(&self, fd: u8) -> bool
        ensures { result ≡ is_held self.now.state fd }
    {
        self.descriptors.get(fd).is_some()
    }

    fn read_refusal(&self, fd: u8) -> Option<CallFault>
        ensures { result ≡ refusal_of self.now.state (ask.ToRead fd) }
    {
        match self.descriptors.get(fd) {
            None => Some(CallFault::BadFd),
            Some(d) => read_fault(&d),
        }
    }

    fn write_refusal(&self, fd: u8, len: u32) -> Option<CallFault>
        ensures { result ≡ refusal_of self.now.state (ask.ToWrite fd len) }
    {
        match self.descriptors.get(fd) {
            None => Some(CallFault::BadFd),
            Some(d) => write_fault(&d, len),
        }
    }

    fn cut_refusal(&self, fd: u8, size: u64) -> Option<CallFault>
        ensures { result ≡ refusal_of self.now.state (ask.ToCut fd size) }
    {
        match self.descriptors.get(fd) {
            None => Some(CallFault::BadFd),
            Some(d) => cut_fault(&d, size),
        }
    }

    fn seek_refusal(&self, fd: u8, at: u64) -> Option<CallFault>
        ensures { result ≡ refusal_of self.now.state (ask.ToSeek fd at) }
    {
        match self.descriptors.get(fd) {
            None => Some(CallFault::BadFd),
            Some(d) => seek_fault(&d, at),
        }
    }

    /// Does an act on the process that leaves it living. `gained` are the bytes that a `Gain` gains, and nothing for another act.
    /// It takes no memory.
    pub(crate) fn apply(&mut self, act: &Act, gained: Option<Bytes>)
        requires offsets { OffsetsFit self.old.state.descriptors }
        requires numbers { AllBelow64 act.now }
        requires living { is_of_living act.now ≡ true }
        requires room { room_needed act.now ≤ self.old.room }
        ensures state { (past : List Entry) → Gains past act.now (bytes_in gained) → self.new.state ≡ process_act past self.old.state act.now }
        ensures room { self.new.room ≡ self.old.room - room_needed act.now }
    {
        match act {
            Act::Attach { fd, descriptor } => self.descriptors.put(*fd, *descriptor),
            Act::AttachPipe {
                reader,
                writer,
                pnode,
            } => {
                self.descriptors.put(*reader, pipe_end(*pnode, Mode::Read));
                self.descriptors.put(*writer, pipe_end(*pnode, Mode::Write));
            }
            Act::Detach { fd } => {
                let _ = self.descriptors.remove(*fd);
            }
            Act::Seek { fd, at } => move_to(&mut self.descriptors, *fd, *at),
            Act::Show { fd, len } => raise(&mut self.descriptors, *fd, u64::from(*len)),
            Act::Spawn { child } => self.children.add(*child),
            Act::Gain { fd, .. } => {
                raise(&mut self.descriptors, *fd, length_of(&gained));
                self.last = gained;
            }
            Act::Exec { .. } => self.last = None,
            Act::Gather { child, .. } => self.children.remove(*child),
            Act::Release { child } => self.children.remove(*child),
            _ => {}
        }
    }
}

fn length_of(gained: &Option<Bytes>) -> u64
    ensures len { result ≡ length (bytes_in gained.now) }
    ensures short { result < 2 ^ 32 }
{
    match gained {
        Some(bytes) => bytes.as_bytes().len() as u64,
        None => 0,
    }
}
