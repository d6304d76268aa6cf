//! The calls of a run, taken one after the other.

use pass_descriptor::{Run, Setting};
use pass_observed::{Process, Survey, Touch, below};
use pass_syscall::{
    BAD, Call, LineFault, Parts, Skip, Stage, Step, StraceReason, Taken, call_of, name_of_call,
    narrow, number_among, split_call,
};
use pass_trace::Command;
use pass_transfer::{
    copy_range, cut, cut_name, device, exec, leave, map, pour, protect, seek, send_file, tee,
    transfer, unmap_part,
};
use std::alloc::Global;
use std::collections::BTreeMap;

/// What a trace says of a process that waited for a child.
#[derive(Clone, Copy, PartialEq, Eq)]
pub enum Waits {
    /// That no data flowed: `await`.
    Quiet,
    /// That the process took from the child: `wait`.
    Flow,
}

#[derive(Drop)]
pub(crate) struct Tracing<'a> {
    processes: Vec<Process>,
    /// The places of the processes by the numbers of their threads; and those of all that there were.
    pids: BTreeMap<u32, usize>,
    pids_ever: BTreeMap<u32, usize>,
    survey: &'a Survey,
    waits: Waits,
    pub(crate) run: Run<'a>,
}

impl Waits {
    fn command(self, child: u32) -> Command {
        match self {
            Waits::Quiet => Command::Await { child },
            Waits::Flow => Command::Wait { child },
        }
    }
}

impl<'a> Tracing<'a> {
    pub(crate) fn new(
        alloc: Global,
        survey: &'a Survey,
        setting: Setting<'a>,
        waits: Waits,
    ) -> Tracing<'a> {
        Tracing {
            processes: Vec::new(alloc),
            pids: BTreeMap::new(alloc),
            pids_ever: BTreeMap::new(alloc),
            survey,
            waits,
            run: Run::new(alloc, setting),
        }
    }

    // Takes the next step of the run.
    pub(crate) fn take(&mut self, alloc: Global, step: &Step<'_>) -> Taken {
        match step.stage {
            Stage::Begun | Stage::Ended => self.take_end(step),
            Stage::Answered => self.take_call(alloc, step),
        }
    }

    // The last call of a process, or the end of a thread.
    fn take_end(&mut self, step: &Step<'_>) -> Taken {
        let Some(who) = self.pids.get(&step.pid) else {
            return Ok(());
        };
        let who = *who;
        self.look_at(step, b"exit", who);
        let Some(process) = self.processes.get_mut(who) else {
            return Ok(());
        };
        if step.stage == Stage::Ended {
            let is_last = process.end_thread(step.pid);
            let _pid = self.pids.remove(&step.pid);
            return if is_last {
                leave(&mut self.run, process)
            } else {
                Ok(())
            };
        }
        let name = name_of_call(step.front);
        if name.is_some_and(|name| name == b"exit_group".as_slice()) {
            return leave(&mut self.run, process);
        }
        Ok(())
    }

    // A call. Where the trace has no more room, what it does is known all the same, so that each reading finds the same files.
    fn take_call(&mut self, alloc: Global, step: &Step<'_>) -> Taken {
        let Some((name, call)) = call_of(name_of_call(step.front).ok_or(BAD)?) else {
            return Ok(());
        };
        let mut text = Vec::from_slice(alloc, step.front)?;
        text.extend_from_slice(step.rest)?;
        let parts = split_call(alloc, &text)?;
        let fails = parts.failed_by(b"ENOENT");
        let looks = fails && matches!(call, Call::Look { .. } | Call::Open { .. });
        if !parts.is_answered() && !looks && !matches!(call, Call::Leave) {
            return Ok(());
        }
        if self.processes.is_empty() {
            self.begin(alloc, step.pid)?;
        }
        let Some(who) = self.pids.get(&step.pid) else {
            return Err(LineFault::Bad(StraceReason::Process));
        };
        let who = *who;
        self.look_at(step, name, who);
        if looks {
            return self.look(who, call, &parts);
        }
        let said = self.run.out.lines.len();
        let skipped = self.run.ledger.skipped.len();
        self.act(who, call, &parts)?;
        if said == self.run.out.lines.len() && skipped == self.run.ledger.skipped.len() {
            return self.run.skip(Skip::Quiet);
        }
        Ok(())
    }

    // The step whose lines are said from now on.
    fn look_at(&mut self, step: &Step<'_>, name: &'static [u8], who: usize) {
        self.run.line = step.place;
        self.run.call = name;
        self.run.touch = Touch {
            process: u32::try_from(who).unwrap_or(u32::MAX),
            begun: step.begun,
            ended: step.ended,
        };
    }

    fn begin(&mut self, alloc: Global, pid: u32) -> Taken {
        self.run.begin()?;
        let base = Vec::from_slice(alloc, self.run.setting.base)?;
        let mut process = Process::first(alloc, pid, base)?;
        self.run.give(&mut process)?;
        for path in self.survey.fifos.iter() {
            self.run.give_fifo(&mut process, path)?;
        }
        self.processes.push(process)?;
        self.pids.insert(pid, 0)?;
        Ok(())
    }

    // A name that a process looked for and that isn't there.
    fn look(&mut self, who: usize, call: Call, parts: &Parts<'_>) -> Taken {
        let Some(process) = self.processes.get_mut(who) else {
            return Ok(());
        };
        match call {
            Call::Look { below } => self.run.look(process, parts, below),
            Call::Open { below } => {
                let place = usize::from(below);
                if parts.has(place.saturating_add(1), b"O_CREAT") {
                    return Ok(());
                }
                let path = self.run.path_of(process, parts, place, below, true)?;
                self.run.note_absent(&path)
            }
            _ => Ok(()),
        }
    }

    fn act(&mut self, who: usize, call: Call, parts: &Parts<'_>) -> Taken {
        match call {
            Call::Fork => self.fork(who, parts),
            Call::Wait => self.wait(who, parts),
            Call::WaitFor => self.wait_for(who, parts),
            Call::Rename { below } => self.rename(who, parts, below),
            _ => match self.processes.get_mut(who) {
                Some(process) => act_in(&mut self.run, process, call, parts),
                None => Ok(()),
            },
        }
    }

    // A thread acts as its process.
    fn fork(&mut self, who: usize, parts: &Parts<'_>) -> Taken {
        let pid = parts.given()?.number;
        let has = |flag: &[u8]| parts.has(0, flag) || parts.has(1, flag);
        let is_thread = has(b"CLONE_THREAD");
        let shares = has(b"CLONE_VM") && !has(b"CLONE_VFORK") && !is_thread;
        let Some(parent) = self.processes.get_mut(who) else {
            return Ok(());
        };
        if is_thread {
            self.pids.insert(pid, who)?;
            parent.add_thread(pid)?;
            return Ok(());
        }
        if shares {
            self.run.skip(Skip::Memory)?;
        }
        let place = self.processes.len();
        let Some(parent) = self.processes.get(who) else {
            return Ok(());
        };
        let child = u32::try_from(place.saturating_add(2)).unwrap_or(u32::MAX);
        let process = parent.child(self.run.alloc, child, pid)?;
        self.run.say(parent, Command::Fork { child })?;
        self.run.share_pipes(&process)?;
        self.processes.push(process)?;
        self.pids.insert(pid, place)?;
        self.pids_ever.insert(pid, place)?;
        Ok(())
    }

    // A wait that a child's end answered, and not its stop.
    fn wait(&mut self, who: usize, parts: &Parts<'_>) -> Taken {
        let stopped = parts.word(1).starts_with(b"[{WIFSTOPPED")
            || parts.word(1).starts_with(b"[{WIFCONTINUED");
        let pid = parts.given()?.number;
        if stopped || pid == 0 {
            return Ok(());
        }
        self.wait_child(who, pid)
    }

    fn wait_for(&mut self, who: usize, parts: &Parts<'_>) -> Taken {
        if parts.word(2) == b"NULL".as_slice() {
            return self.wait_unasked(who, parts);
        }
        let keeps = parts.has(3, b"WNOWAIT");
        let ended = parts.has(2, b"CLD_EXITED")
            || parts.has(2, b"CLD_KILLED")
            || parts.has(2, b"CLD_DUMPED");
        match number_of_pid(parts.word(2)) {
            Some(pid) if ended && !keeps => self.wait_child(who, pid),
            _ => Ok(()),
        }
    }

    // A wait that doesn't ask whose end it was, nor whether it was one.
    fn wait_unasked(&mut self, who: usize, parts: &Parts<'_>) -> Taken {
        if !parts.has(3, b"WEXITED") || parts.has(3, b"WNOWAIT") {
            return Ok(());
        }
        let others = [
            b"WNOHANG".as_slice(),
            b"WSTOPPED".as_slice(),
            b"WCONTINUED".as_slice(),
        ];
        let may_be_none = others.iter().any(|flag| parts.has(3, flag));
        match number_of_pid(parts.word(1)) {
            Some(pid) if parts.has(0, b"P_PID") && !may_be_none => self.wait_child(who, pid),
            _ => self.run.skip(Skip::Child),
        }
    }

    // Waits for a child, whose parent hasn't waited for it yet.
    fn wait_child(&mut self, who: usize, pid: u32) -> Taken {
        match self.child_of(who, pid) {
            Some(child) => {
                let waited = self.waits.command(child);
                match self.processes.get(who) {
                    Some(process) => self.run.say(process, waited),
                    None => Ok(()),
                }
            }
            None => self.run.skip(Skip::Child),
        }
    }
}

// The process that an answer of `waitid` is about.
fn number_of_pid(word: &[u8]) -> Option<u32> {
    narrow(number_among(word)?)
}

impl Tracing<'_> {
    fn child_of(&mut self, who: usize, pid: u32) -> Option<u32> {
        let parent = self.processes.get(who)?.number;
        let place = *self.pids_ever.get(&pid)?;
        let child = self.processes.get_mut(place)?;
        if child.parent != parent || child.waited {
            return None;
        }
        child.waited = true;
        Some(child.number)
    }

    // Processes that are in a folder are still below it when it has another name.
    fn rename(&mut self, who: usize, parts: &Parts<'_>, is_below: bool) -> Taken {
        let Some(process) = self.processes.get_mut(who) else {
            return Ok(());
        };
        for (old, new) in self.run.rename(process, parts, is_below)? {
            self.move_folders(&old, &new)?;
        }
        Ok(())
    }

    fn move_folders(&mut self, old: &[u8], new: &[u8]) -> Taken {
        for process in self.processes.iter_mut() {
            if process.ended {
                continue;
            }
            if let Some(rest) = below(old, &process.folder) {
                let mut moved = Vec::from_slice(self.run.alloc, new)?;
                if !rest.is_empty() {
                    moved.push(b'/')?;
                    moved.extend_from_slice(rest)?;
                }
                process.folder = moved;
            }
        }
        Ok(())
    }
}

fn act_in(run: &mut Run<'_>, process: &mut Process, call: Call, parts: &Parts<'_>) -> Taken {
    match call {
        Call::Open { below } => run.open(process, parts, below),
        Call::Creat => run.creat(process, parts),
        Call::Close => run.close_one(process, parts),
        Call::CloseRange => run.close_range(process, parts),
        Call::Read { offset } => transfer(run, process, parts, offset, false),
        Call::Write { offset } => transfer(run, process, parts, offset, true),
        Call::Pour => pour(run, process, parts),
        Call::SendFile => send_file(run, process, parts),
        Call::CopyRange | Call::Splice => copy_range(run, process, parts),
        Call::Tee => tee(run, process, parts),
        Call::Device => device(run, process, parts),
        Call::Seek => seek(run, process, parts),
        Call::Cut => cut(run, process, parts),
        Call::CutName => cut_name(run, process, parts),
        Call::Duplicate => run.duplicate(process, parts, parts.has(2, b"O_CLOEXEC")),
        Call::Control => run.control(process, parts),
        Call::Pipe => run.pipe(process, parts),
        Call::Anonymous => run.anonymous(process, parts),
        Call::Exec { below } => exec(run, process, parts, below),
        Call::Leave => leave(run, process),
        Call::Link { below } => run.link(process, parts, below),
        Call::Unlink { below } => run.unlink(process, parts, below),
        Call::Symlink { below } => run.symlink(process, parts, below),
        Call::ReadLink { below } => run.read_link(process, parts, below),
        Call::Look { below } => run.look(process, parts, below),
        Call::Measure => run.measure(process, parts, 1),
        Call::Enter => run.enter(process, parts),
        Call::EnterHeld => run.enter_held(process, parts),
        Call::Map => map(run, process, parts),
        Call::Unmap => unmap_part(run, process, parts),
        Call::Protect => protect(run, process, parts),
        Call::OpenUnsaid(skip) => {
            run.hold_silently(process, parts.given()?, skip, Vec::new(run.alloc))
        }
        Call::PairUnsaid(skip) => run.hold_pair(process, parts.word(3), skip),
        Call::Skipped(skip) => run.skip(skip),
        Call::MakeNode { .. } | Call::Fork | Call::Wait | Call::WaitFor | Call::Rename { .. } => {
            Ok(())
        }
    }
}
