//! The state of each process, by which it is known where its calls end.
ghost use Rattle.std.specs.Prelude.{ℕ, List, [], ◌∷◌, ◌++◌, ◌≡◌, ◌==◌, ◌≤◌, true, false, OnOk, is_some, length};
ghost use Rattle.std.specs.Ordering.{nat_cmp};
ghost use Rattle.std.specs.BTreeMap.{get};
ghost use Rattle.pass_entry.specs.Limits.{transfer_limit};
ghost use Rattle.pass_entry.specs.declared.entry.Entry.{Entry as AnyEntry};
ghost use Rattle.pass_plain.specs.Histories.{bytes_at as bytes_at_place, is_fault as is_fault_of};
ghost use Rattle.pass_plain.specs.Sessions.{Session};
ghost use Rattle.pass_plain.specs.Sound.{IsSound};
ghost use Rattle.pass_plain.specs.Processes.{Process, process_act, Gains, AllBelow64, OffsetsFit};
ghost use Rattle.pass_plain.specs.Calls.{is_last as is_last_of};
ghost use Rattle.pass_plain.specs.Legal.{IsLegal, MayFollow, before_call};
ghost use Rattle.pass_report.specs.Callers.{state_in, AreProcesses};

use pass_entry::{Act, Entry, Pnode, Reply};
use pass_plain::ProcessState;
use pass_plain::process::changes_process;
use pass_plain::steps::is_last;
use std::alloc::{AllocError, Global};
use std::collections::BTreeMap;

/// The processes that have entries.
#[derive(Drop)]
pub struct Processes {
    alloc: Global,
    states: BTreeMap<Pnode, ProcessState>,
}

/// The bytes that the entry at a place gave.
pub fn bytes_at(history: &[Entry], place: u64) -> &[u8]
    ensures bytes { result.now ≡ bytes_at_place history.now place }
    ensures short { length result.now ≤ transfer_limit }
{
    match history.get(place as usize) {
        Some(
            Entry {
                reply: Reply::Took(bytes),
                ..
            },
        ) => bytes.as_bytes(),
        _ => &[],
    }
}

// The bytes that an act gains from the entry that it names.
fn gained_by<'a>(past: &'a [Entry], act: &Act) -> &'a [u8]
    ensures bytes { Gains past.now act.now result.now }
    ensures short { length result.now ≤ transfer_limit }
{
    match act {
        Act::Gain { out, .. } => bytes_at(past, *out),
        _ => &[],
    }
}

fn is_fault(reply: &Reply) -> bool
    ensures { result ≡ is_fault_of reply.now }
{
    matches!(reply, Reply::Fault(_))
}

impl Processes {
    /// Before the first entry.
    pub fn new(alloc: Global) -> Processes
        ensures { AreProcesses [] result }
    {
        Processes {
            alloc,
            states: BTreeMap::new(alloc),
        }
    }

    /// The entry, which comes next, is the last one of its call.
    pub fn ends_call(&self, entry: &Entry) -> bool
        ensures { (session : Session) (past : List AnyEntry) → IsLegal session past → MayFollow session past entry.now → AreProcesses past self.now
            → result ≡ is_last_of (before_call past entry.now.who entry.now.number) entry.now }
    {
        match self.states.get(&entry.who) {
            Some(state) => is_last(state, entry),
            None => {
                let unknown = ProcessState::new(self.alloc);
                is_last(&unknown, entry)
            }
        }
    }

    /// One more entry, before which the history is `past`.
    pub fn note(&mut self, past: &[Entry], entry: &Entry) -> Result<(), AllocError>
        requires known { (session : Session) × IsSound session × IsLegal session past.now × MayFollow session past.now entry.now }
        requires states { AreProcesses past.now self.old }
        ensures { OnOk result (AreProcesses (past.now ++ entry.now ∷ []) self.new) }
    {
        if is_fault(&entry.reply) {
            return Ok(());
        }
        if !changes_process(&entry.act) {
            return Ok(());
        }
        self.meet(entry.what)?;
        self.apply(past, entry)
    }

    fn apply(&mut self, past: &[Entry], entry: &Entry) -> Result<(), AllocError>
        requires met { is_some (get nat_cmp self.old.states entry.now.what) ≡ true }
        requires offsets { OffsetsFit (state_in self.old entry.now.what).descriptors }
        requires numbers { AllBelow64 entry.now.act }
        ensures own { OnOk result (state_in self.new entry.now.what ≡ process_act past.now (state_in self.old entry.now.what) entry.now.act) }
        ensures others { OnOk result ((who : ℕ) → (entry.now.what == who) ≡ false → state_in self.new who ≡ state_in self.old who) }
    {
        let gained = gained_by(past, &entry.act);
        match self.states.get_mut(&entry.what) {
            Some(state) => state.apply(self.alloc, &entry.act, gained),
            None => Ok(()),
        }
    }

    // The object has a place among those that have entries.
    fn meet(&mut self, pnode: Pnode) -> Result<(), AllocError>
        ensures met { OnOk result (is_some (get nat_cmp self.new.states pnode) ≡ true) }
        ensures same { OnOk result ((who : ℕ) → state_in self.new who ≡ state_in self.old who) }
    {
        if !self.states.contains_key(&pnode) {
            let state = ProcessState::new(self.alloc);
            self.states.insert(pnode, state)?;
        }
        Ok(())
    }
}
