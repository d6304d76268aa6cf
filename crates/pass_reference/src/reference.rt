//! The slow reference: a legal history, with each next entry judged by the plain definitions.
ghost use Rattle.std.specs.Prelude.{◌≡◌, ◌↔◌, ◌++◌, ◌∷◌, [], IfOk, IfSome, IfNone, OnErr, Some};
ghost use Rattle.pass_entry.specs.declared.entry.Reply.{Reply as AnyReply};
ghost use Rattle.pass_plain.specs.Legal.{IsLegal, MayFollow, Past, session_of};
ghost use Rattle.pass_plain.specs.Processes.{process_after};
ghost use Rattle.pass_plain.specs.Records.{records_of as records_of_session};
ghost use Rattle.pass_plain.specs.Sound.{IsSound};
ghost use Rattle.pass_plain.specs.States.{IsLastCall};
ghost use Rattle.pass_reference.specs.States.{call_of};

use crate::cache::StateCache;
use crate::callers::LastCall;
use crate::copying::with_reply;
use crate::walk::records_of;
use pass_entry::{Entry, Pnode, Record, Reply};
use pass_plain::{ProcessState, Start};
use std::alloc::{AllocError, Global};
use std::marker::Model;

/// What a session opened with and its history so far, and the states of the objects.
#[derive(Drop)]
pub struct Plain<'a> {
    start: &'a Start,
    objects: u32,
    history: Vec<Entry>,
    cache: StateCache,
}

impl<'a> Model for Plain<'a> {
    ghost use Rattle.pass_plain.specs.Legal.{Past, session_of};
    ghost use Rattle.pass_reference.specs.Cache.{IsPlainState};
    ghost use Rattle.pass_entry.specs.contracts.entry.Entry as entry_type;
    ghost use Rattle.pass_plain.specs.contracts.start.Start as start_type;
    ghost use Rattle.std.specs.Coded.{codes};

    ghost Value = { Past };

    ghost coded = { Prim.hlevel (codes, entry_type.the_row.coded, start_type.the_row.coded) };

    ghost view = { λ p. record { session = session_of p.start.now p.objects; history = p.history.items } };

    ghost invariant = { λ p. IsPlainState p.start.now p.objects p.history.items p.cache };
}

impl<'a> Plain<'a> {
    /// A session that opened with this and may make so many objects, with no entry.
    pub fn new(alloc: Global, start: &'a Start, objects: u32) -> Result<Plain<'a>, AllocError>
        requires { IsSound (session_of start.now objects) }
        ensures { IfOk result (λ p. p ≡ record { session = session_of start.now objects; history = [] }) }
    {
        Ok(Plain {
            start,
            objects,
            history: Vec::new(alloc),
            cache: StateCache::new(alloc),
        })
    }

    /// The reply of an entry that may come next, which then stands in the history with that reply, whatever reply it has
    /// itself; else nothing, and nothing moves.
    pub fn step(&mut self, entry: &Entry) -> Result<Option<Reply>, AllocError>
        ensures answer { IfOk result (λ o. (r : AnyReply) → (o ≡ Some r) ↔ MayFollow self.old.session self.old.history (record entry.now { reply = r })) }
        ensures moved { IfOk result (λ o. IfSome o (λ r. self.new ≡ record self.old { history = self.old.history ++ record entry.now { reply = r } ∷ [] })) }
        ensures refused { IfOk result (λ o. IfNone o (self.new ≡ self.old)) }
        ensures err { OnErr result (self.new ≡ self.old) }
    {
        let alloc = *self.history.allocator();
        let answer = self
            .cache
            .judge(alloc, self.start, self.objects, &self.history, entry)?;
        match answer {
            None => Ok(None),
            Some(reply) => {
                let copy = with_reply(entry, &reply)?;
                self.history.push(copy)?;
                if let Some((last, past)) = self.history.split_last() {
                    self.cache.note(alloc, self.start, self.objects, past, last);
                }
                Ok(Some(reply))
            }
        }
    }

    /// The state of a process after the history.
    pub fn process(&mut self, who: Pnode) -> Result<ProcessState, AllocError>
        ensures process { IfOk result (λ p. p ≡ process_after self.old.history who) }
        ensures same { self.new ≡ self.old }
    {
        let alloc = *self.history.allocator();
        self.cache
            .process(alloc, self.start, self.objects, &self.history, who)
    }

    /// The last call of a process, which has number 0 where there is none.
    pub fn call(&mut self, who: Pnode) -> Result<LastCall, AllocError>
        ensures call { IfOk result (λ c. IsLastCall self.old.history who (call_of c)) }
        ensures same { self.new ≡ self.old }
    {
        let alloc = *self.history.allocator();
        self.cache
            .call(alloc, self.start, self.objects, &self.history, who)
    }

    /// The history so far, which is legal in the session.
    pub fn entries(&self) -> &[Entry]
        ensures entries { result.now ≡ self.now.history }
        ensures legal { IsLegal self.now.session self.now.history }
        ensures sound { IsSound self.now.session }
    {
        self.history.as_slice()
    }

    /// The records of the entries so far, in order. A call of its own walks over the whole history.
    pub fn records(&self) -> Result<Vec<Record>, AllocError>
        ensures { IfOk result (λ v. v.items ≡ records_of_session self.now.session self.now.history) }
    {
        let alloc = *self.history.allocator();
        records_of(alloc, self.start, &self.history)
    }

    /// The history.
    pub fn into_history(self) -> Vec<Entry>
        ensures entries { result.items ≡ self.entry.history }
        ensures legal { IsLegal self.entry.session self.entry.history }
    {
        let Plain { history, .. } = self;
        history
    }
}
