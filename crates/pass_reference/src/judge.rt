//! What may come next after a history, from the states that are kept of it.
ghost use Rattle.std.specs.Prelude.{◌≡◌, ◌<◌, ◌+◌, ◌^◌, ℕ, IfOk, IfSome, Some, IsTrue, ◌↔◌};
ghost use Rattle.pass_entry.specs.Limits.{number_limit};
ghost use Rattle.pass_entry.specs.declared.entry.Reply.{Reply as AnyReply};
ghost use Rattle.pass_plain.specs.Files.{file_after};
ghost use Rattle.pass_plain.specs.Legal.{session_of, CallerAllows, MayFollow};
ghost use Rattle.pass_plain.specs.Processes.{process_after};
ghost use Rattle.pass_plain.specs.Registries.{registry_after};
ghost use Rattle.pass_plain.specs.Replies.{reply_to};
ghost use Rattle.pass_plain.specs.Pipes.{pipe_after};
ghost use Rattle.pass_plain.specs.States.{IsLastCall, IsLawful, registry_reply as registry_reply_of};
ghost use Rattle.pass_reference.specs.States.{call_of, AsksFew, file_reply as file_reply_of, pipe_reply as pipe_reply_of, process_reply as process_reply_of};
ghost use Rattle.pass_reference.specs.Cache.{AreCached, IsPlainState};

use crate::cache::{StateCache, absent_caller, absent_pipe};
use crate::callers::{LastCall, is_start, start_allows};
use crate::file::content_after;
use crate::registry;
use crate::replies::{Holder, file_reply, holder_of, pipe_reply, process_reply, registry_reply};
use pass_entry::{Act, Entry, Pnode, Reply};
use pass_plain::file::opened_bytes;
use pass_plain::{ProcessState, Start};
use std::alloc::{AllocError, Global};

impl StateCache {
    fn registry_answer(
        &self,
        alloc: Global,
        start: &Start,
        objects: u32,
        history: &[Entry],
        act: &Act,
    ) -> Result<Reply, AllocError>
        requires room { start.now.ceiling + objects < number_limit }
        requires kept { AreCached start.now history.now self.now }
        ensures { IfOk result (λ r. r ≡ registry_reply_of (session_of start.now objects) (registry_after (session_of start.now objects) history.now) act.now) }
    {
        match &self.registry {
            Some(registry) => Ok(registry_reply(registry, start, objects, act)),
            None => {
                let registry = registry::after(alloc, start, history)?;
                Ok(registry_reply(&registry, start, objects, act))
            }
        }
    }

    fn file_answer(
        &self,
        alloc: Global,
        start: &Start,
        history: &[Entry],
        object: Pnode,
        act: &Act,
    ) -> Result<Reply, AllocError>
        requires few { AsksFew act.now }
        requires kept { AreCached start.now history.now self.now }
        ensures { IfOk result (λ r. (objects : ℕ) → r ≡ file_reply_of (file_after (session_of start.now objects) history.now object) act.now) }
    {
        match self.files.get(object) {
            Some(content) => file_reply(alloc, content, act),
            None if self.files.whole => file_reply(alloc, opened_bytes(start, object), act),
            None => {
                let content = content_after(alloc, start, history, object)?;
                file_reply(alloc, &content, act)
            }
        }
    }

    fn pipe_answer(
        &self,
        alloc: Global,
        start: &Start,
        history: &[Entry],
        object: Pnode,
        act: &Act,
    ) -> Result<Option<Reply>, AllocError>
        requires few { AsksFew act.now }
        requires kept { AreCached start.now history.now self.now }
        ensures { IfOk result (λ r. r ≡ pipe_reply_of (pipe_after history.now object) act.now) }
    {
        match self.pipes.get(object) {
            Some(pipe) => pipe_reply(alloc, pipe, act),
            None => {
                let pipe = absent_pipe(alloc, self.pipes.whole, history, object)?;
                pipe_reply(alloc, &pipe, act)
            }
        }
    }

    fn process_answer(
        &self,
        alloc: Global,
        start: &Start,
        history: &[Entry],
        object: Pnode,
        act: &Act,
    ) -> Result<Option<Reply>, AllocError>
        requires lawful { IsLawful history.now }
        requires kept { AreCached start.now history.now self.now }
        ensures { IfOk result (λ r. r ≡ process_reply_of (process_after history.now object) act.now) }
    {
        match self.callers.get(object) {
            Some(process) => Ok(process_reply(&process.state, act)),
            None => {
                let process = absent_caller(alloc, self.callers.whole, history, object)?;
                Ok(process_reply(&process.state, act))
            }
        }
    }

    /// What the plain state after the history answers to an act on an object, nothing where the act isn't ready.
    fn answer(
        &self,
        alloc: Global,
        start: &Start,
        objects: u32,
        history: &[Entry],
        what: Pnode,
        act: &Act,
    ) -> Result<Option<Reply>, AllocError>
        requires few { AsksFew act.now }
        requires state { IsPlainState start.now objects history.now self.now }
        ensures { IfOk result (λ o. o ≡ reply_to (session_of start.now objects) history.now what act.now) }
    {
        match holder_of(act) {
            Holder::Registry => {
                let reply = self.registry_answer(alloc, start, objects, history, act)?;
                Ok(Some(reply))
            }
            Holder::File => {
                let reply = self.file_answer(alloc, start, history, what, act)?;
                Ok(Some(reply))
            }
            Holder::Pipe => self.pipe_answer(alloc, start, history, what, act),
            Holder::Process => self.process_answer(alloc, start, history, what, act),
            Holder::Nothing => Ok(Some(Reply::Done)),
        }
    }

    /// The caller of an entry may make it next, whatever its object answers.
    fn allows(
        &self,
        alloc: Global,
        start: &Start,
        objects: u32,
        history: &[Entry],
        e: &Entry,
    ) -> Result<bool, AllocError>
        requires { IsPlainState start.now objects history.now self.now }
        ensures { IfOk result (λ b. IsTrue b ↔ CallerAllows history.now e.now) }
    {
        if is_start(e.call) {
            return start_allows(alloc, history, e);
        }
        match self.callers.get(e.who) {
            Some(caller) => caller.allows(alloc, e),
            None => {
                let caller = absent_caller(alloc, self.callers.whole, history, e.who)?;
                caller.allows(alloc, e)
            }
        }
    }

    /// The reply with which an entry may come next, whatever reply it has itself; nothing where it can't come next.
    pub fn judge(
        &self,
        alloc: Global,
        start: &Start,
        objects: u32,
        history: &[Entry],
        e: &Entry,
    ) -> Result<Option<Reply>, AllocError>
        requires { IsPlainState start.now objects history.now self.now }
        ensures { IfOk result (λ o. (r : AnyReply) → (o ≡ Some r) ↔ MayFollow (session_of start.now objects) history.now (record e.now { reply = r })) }
    {
        let allowed = self.allows(alloc, start, objects, history, e)?;
        if !allowed {
            return Ok(None);
        }
        let answer = self.answer(alloc, start, objects, history, e.what, &e.act)?;
        Ok(answer)
    }

    /// A process after the history.
    pub fn process(
        &self,
        alloc: Global,
        start: &Start,
        objects: u32,
        history: &[Entry],
        who: Pnode,
    ) -> Result<ProcessState, AllocError>
        requires { IsPlainState start.now objects history.now self.now }
        ensures { IfOk result (λ p. p ≡ process_after history.now who) }
    {
        match self.callers.get(who) {
            Some(caller) => caller.state.clone(),
            None => {
                let caller = absent_caller(alloc, self.callers.whole, history, who)?;
                caller.state.clone()
            }
        }
    }

    /// The last call of a process in the history.
    pub fn call(
        &self,
        alloc: Global,
        start: &Start,
        objects: u32,
        history: &[Entry],
        who: Pnode,
    ) -> Result<LastCall, AllocError>
        requires { IsPlainState start.now objects history.now self.now }
        ensures { IfOk result (λ c. IsLastCall history.now who (call_of c)) }
    {
        match self.callers.get(who) {
            Some(caller) => caller.call.copied(alloc),
            None => {
                let caller = absent_caller(alloc, self.callers.whole, history, who)?;
                caller.call.copied(alloc)
            }
        }
    }
}
