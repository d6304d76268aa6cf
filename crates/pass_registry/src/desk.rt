//! The registry, as it lies under its lock.
ghost use Rattle.std.specs.Prelude.{◌≡◌, ◌≤◌, ◌+◌, ◌↔◌, [], length, vec_capacity, IfOk, IfSome, IsSome, OnOk, OnErr};
ghost use Rattle.std.specs.FinMap as finite_map;
ghost use mathlib.Core.List.{IsPrefix};
ghost use Rattle.pass_entry.specs.declared.entry.Act.TheVariants as act;
ghost use Rattle.pass_entry.specs.declared.entry.CallName.TheVariants as calls;
ghost use Rattle.pass_entry.specs.declared.objects.Kind.TheVariants as kinds;
ghost use Rattle.pass_plain.specs.Legal.{IsLegal};
ghost use Rattle.pass_plain.specs.Places.{kept_by};
ghost use Rattle.pass_plain.specs.Registries.{Exists, next_pnode, registry_after};
ghost use Rattle.pass_plain.specs.States.{registry_reply, registry_step};
ghost use Rattle.pass_book.specs.Numbers.{IsFileNumber};
ghost use Rattle.pass_hold.specs.Places.{HasRoom};
ghost use Rattle.pass_hold.specs.Entering.{MayEnter, Enters};
ghost use Rattle.pass_registry.specs.Desks.{IsMade, on_registry};
ghost use Rattle.pass_registry.specs.Files.{files_of};
ghost use Rattle.pass_registry.specs.Listed.{lost_by};
ghost use Rattle.pass_registry.specs.Outcomes.{reply_done, reply_made};
ghost use Rattle.pass_registry.specs.States.{IsOf};

use crate::registry::Registry;
use crate::rooms::{BindRoom, MoveRoom, UnbindRoom};
use crate::slips::{bind_slip, mint_slip, move_slip, unbind_slip};
use pass_book::{Desk, Note, Slip};
use pass_entry::{Act, CallFault, CallName, Entry, Kind, Pnode, Record, Reply, Text};
use pass_hold::{Caller, Shelf, Whose};
use std::alloc::{AllocError, Global};
use std::marker::{Model, PhantomData};

/// The registry with its desk: it is the one of the definitions after what was seen of it.
#[derive(Drop)]
pub struct RegistryDesk<J: Whose> {
    registry: Registry,
    desk: Desk,
    whose: PhantomData<J>,
}

impl<J: Whose> Model for RegistryDesk<J> {
    ghost use Rattle.std.specs.Prelude.{◌≡◌};
    ghost use Rattle.std.specs.Coded.{codes};
    ghost use Rattle.pass_entry.specs.contracts.entry.Entry as entry_type;
    ghost use Rattle.pass_plain.specs.Registries.{registry_after};
    ghost use Rattle.pass_registry.specs.Desks.{RegistryView};
    ghost use Rattle.pass_registry.specs.States.{IsOf};

    ghost Value = { RegistryView };

    ghost coded = { Prim.hlevel (codes, entry_type.the_row.coded) };

    ghost view = { λ r. record { seen = r.desk.seen; room = r.registry.room } };

    ghost invariant = { λ r. (r.desk.book ≡ J.book) × (r.desk.what ≡ 0) × IsOf J.book.session r.registry × (registry_after J.book.session r.desk.seen ≡ r.registry.registry) };
}

/// The reply that an answer stands for.
fn reply_of(answer: &Result<Pnode, CallFault>) -> Reply
    ensures { result ≡ reply_made answer.now }
{
    match answer {
        Ok(pnode) => Reply::Made(*pnode),
        Err(fault) => Reply::Fault(*fault),
    }
}

/// How many places a call still needs after a step with this answer: none after a fault.
fn kept(answer: &Result<Pnode, CallFault>, keep: u32) -> u32
    ensures { result ≡ kept_by (reply_made answer.now) keep }
{
    match answer {
        Ok(_) => keep,
        Err(_) => 0,
    }
}

/// The reply that an answer stands for which says no more than that it was done.
fn done_reply<T>(answer: &Result<T, CallFault>) -> Reply
    ensures { result ≡ reply_done answer.now }
{
    match answer {
        Ok(_) => Reply::Done,
        Err(fault) => Reply::Fault(*fault),
    }
}

/// Whether it was done.
fn done<T: Drop>(answer: Result<T, CallFault>) -> Result<(), CallFault>
    ensures { reply_done result ≡ reply_done answer }
{
    match answer {
        Ok(_) => Ok(()),
        Err(fault) => Err(fault),
    }
}

/// The file that lost its name to another one.
fn lost_in(answer: &Result<Option<Pnode>, CallFault>) -> Option<Pnode>
    ensures { result ≡ lost_by answer.now }
{
    match answer {
        Ok(lost) => *lost,
        Err(_) => None,
    }
}

impl<J: Whose> RegistryDesk<J> {
    /// The registry as it is after what its desk has seen.
    pub fn of(registry: Registry, desk: Desk) -> RegistryDesk<J>
        requires desk { (desk.book ≡ J.book) × (desk.what ≡ 0) }
        requires session { IsOf J.book.session registry }
        requires registry { registry_after J.book.session desk.seen ≡ registry.registry }
        ensures { result ≡ record { seen = desk.seen; room = registry.room } }
    {
        RegistryDesk {
            registry,
            desk,
            whose: PhantomData,
        }
    }

    /// Makes room for one name.
    pub fn reserve(&mut self) -> Result<(), AllocError>
        ensures room { OnOk result (1 ≤ self.new.room) }
        ensures same { self.new ≡ record self.old { room = self.new.room } }
        ensures grows { self.old.room ≤ self.new.room }
        ensures err { OnErr result (self.new ≡ self.old) }
    {
        self.registry.reserve()
    }

    /// The number of a file among the files of the store, by which its data has its place on the disk.
    pub fn number(&self, file: Pnode) -> Option<u32>
        ensures number { IfSome result (λ n. IsFileNumber J.book.session self.now.seen file n) }
        ensures some { IsSome result ↔ Exists (registry_after J.book.session self.now.seen) file kinds.File }
    {
        self.registry.number(file)
    }

    /// How many files the store has.
    pub fn files(&self) -> u32
        ensures { result ≡ length (files_of (registry_after J.book.session self.now.seen).objects) }
    {
        self.registry.files()
    }

    /// The number that the next object gets, as long as this desk is held.
    pub fn next(&self) -> Pnode
        ensures { result ≡ next_pnode J.book.session (registry_after J.book.session self.now.seen) }
    {
        self.registry.next()
    }

    /// The file that has the name now.
    pub fn named(&self, name: &Text) -> Option<Pnode>
        ensures { result ≡ finite_map.get (registry_after J.book.session self.now.seen).names name.now }
    {
        match self.registry.find(name) {
            Ok(file) => Some(file),
            Err(_) => None,
        }
    }

    /// It sees what the holder of a note had seen.
    pub fn meet(&mut self, note: Note)
        requires { note.book ≡ J.book }
        ensures same { self.new ≡ record self.old { seen = self.new.seen } }
        ensures begins { IsPrefix self.old.seen self.new.seen }
        ensures told { IsPrefix note.seen self.new.seen }
    {
        self.desk.meet(note);
    }

    /// It sees the whole history.
    pub fn see(&mut self, shelf: &mut Shelf<J>)
        ensures same { self.new ≡ record self.old { seen = shelf.old.history } }
        ensures begins { IsPrefix self.old.seen shelf.old.history }
        ensures state { registry_after J.book.session shelf.old.history ≡ registry_after J.book.session self.old.seen }
        ensures legal { IsLegal J.book.session shelf.old.history }
        ensures shelf { shelf.new ≡ record shelf.old { syncs = shelf.new.syncs } }
    {
        shelf.show(&mut self.desk);
    }

    /// Makes the entry of a `Bind`, by which a call of `creat` makes a file under a name that no file has.
    pub fn bind(
        &mut self,
        shelf: &mut Shelf<J>,
        caller: &mut Caller<J>,
        who: Pnode,
        number: u64,
        room: BindRoom,
    ) -> Result<Pnode, CallFault>
        requires room { 1 ≤ self.old.room }
        requires place { HasRoom shelf.old caller.old.held 3 }
        requires who { caller.old.who ≡ who }
        requires entry { (reply : _) → MayEnter caller.old.seen (on_registry who number calls.Creat (act.Bind room) reply) (kept_by reply 2) }
        ensures answer { reply_made result ≡ registry_reply J.book.session (registry_after J.book.session self.old.seen) (act.Bind room) }
        ensures state { registry_after J.book.session self.new.seen ≡ registry_step (registry_after J.book.session self.old.seen) (on_registry who number calls.Creat (act.Bind room) (reply_made result)) }
        ensures made { IfOk result (λ pnode. IsMade J.book.session self.old.seen self.new.seen pnode kinds.File) }
        ensures seen { self.new.seen ≡ caller.new.seen }
        ensures entry { Enters J.book.session caller.old caller.new self.old.seen (on_registry who number calls.Creat (act.Bind room) (reply_made result)) (kept_by (reply_made result) 2) }
        ensures shelf { shelf.new ≡ record shelf.old { history = caller.new.seen; syncs = shelf.new.syncs; claimed = shelf.new.claimed } }
    {
        let BindRoom {
            name,
            act,
            record,
            list,
        } = room;
        let answer = self.registry.bind(name);
        let slip = bind_slip(&answer, record, list);
        let entry = Entry {
            who,
            number,
            call: CallName::Creat,
            what: Pnode(0),
            act: Act::Bind { name: act },
            reply: reply_of(&answer),
        };
        let keep = kept(&answer, 2);
        caller.enter(shelf, &mut self.desk, slip, entry, keep);
        answer
    }

    /// Makes the entry of a `Find`, by which a call of `open_name` or `exec` looks for the file of a name.
    pub fn find(
        &mut self,
        alloc: Global,
        shelf: &mut Shelf<J>,
        caller: &mut Caller<J>,
        who: Pnode,
        number: u64,
        call: CallName,
        name: Text,
    ) -> Result<Pnode, CallFault>
        requires place { HasRoom shelf.old caller.old.held 3 }
        requires who { caller.old.who ≡ who }
        requires entry { (reply : _) → MayEnter caller.old.seen (on_registry who number call (act.Find name) reply) (kept_by reply 2) }
        ensures answer { reply_made result ≡ registry_reply J.book.session (registry_after J.book.session self.old.seen) (act.Find name) }
        ensures state { registry_after J.book.session self.new.seen ≡ registry_step (registry_after J.book.session self.old.seen) (on_registry who number call (act.Find name) (reply_made result)) }
        ensures desk { self.new ≡ record self.old { seen = caller.new.seen } }
        ensures entry { Enters J.book.session caller.old caller.new self.old.seen (on_registry who number call (act.Find name) (reply_made result)) (kept_by (reply_made result) 2) }
        ensures shelf { shelf.new ≡ record shelf.old { history = caller.new.seen; syncs = shelf.new.syncs; claimed = shelf.new.claimed } }
    {
        let answer = self.registry.find(&name);
        let entry = Entry {
            who,
            number,
            call,
            what: Pnode(0),
            act: Act::Find { name },
            reply: reply_of(&answer),
        };
        let keep = kept(&answer, 2);
        caller.enter(shelf, &mut self.desk, Slip::new(alloc), entry, keep);
        answer
    }

    /// Makes the entry of a `Mint`, by which a call makes an object without a name. `keep`: how many entries the call still needs
    /// after it.
    pub fn mint(
        &mut self,
        shelf: &mut Shelf<J>,
        caller: &mut Caller<J>,
        who: Pnode,
        number: u64,
        call: CallName,
        kind: Kind,
        list: Vec<Record>,
        keep: u32,
    ) -> Result<Pnode, CallFault>
        requires list { (list.items ≡ []) × (1 ≤ vec_capacity list) }
        requires place { HasRoom shelf.old caller.old.held (keep + 1) }
        requires who { caller.old.who ≡ who }
        requires entry { (reply : _) → MayEnter caller.old.seen (on_registry who number call (act.Mint kind) reply) (kept_by reply keep) }
        ensures answer { reply_made result ≡ registry_reply J.book.session (registry_after J.book.session self.old.seen) (act.Mint kind) }
        ensures state { registry_after J.book.session self.new.seen ≡ registry_step (registry_after J.book.session self.old.seen) (on_registry who number call (act.Mint kind) (reply_made result)) }
        ensures made { IfOk result (λ pnode. IsMade J.book.session self.old.seen self.new.seen pnode kind) }
        ensures desk { self.new ≡ record self.old { seen = caller.new.seen } }
        ensures entry { Enters J.book.session caller.old caller.new self.old.seen (on_registry who number call (act.Mint kind) (reply_made result)) (kept_by (reply_made result) keep) }
        ensures shelf { shelf.new ≡ record shelf.old { history = caller.new.seen; syncs = shelf.new.syncs; claimed = shelf.new.claimed } }
    {
        let answer = self.registry.mint(kind);
        let slip = mint_slip(&answer, kind, list);
        let entry = Entry {
            who,
            number,
            call,
            what: Pnode(0),
            act: Act::Mint { kind },
            reply: reply_of(&answer),
        };
        let keep = kept(&answer, keep);
        caller.enter(shelf, &mut self.desk, slip, entry, keep);
        answer
    }

    /// Makes the entry of a `Known`, by which a call of `pass_reviveobj` looks for an app object.
    pub fn known(
        &mut self,
        alloc: Global,
        shelf: &mut Shelf<J>,
        caller: &mut Caller<J>,
        who: Pnode,
        number: u64,
        pnode: Pnode,
    ) -> Result<Pnode, CallFault>
        requires place { HasRoom shelf.old caller.old.held 3 }
        requires who { caller.old.who ≡ who }
        requires entry { (reply : _) → MayEnter caller.old.seen (on_registry who number calls.Revive (act.Known pnode) reply) (kept_by reply 2) }
        ensures answer { reply_made result ≡ registry_reply J.book.session (registry_after J.book.session self.old.seen) (act.Known pnode) }
        ensures state { registry_after J.book.session self.new.seen ≡ registry_step (registry_after J.book.session self.old.seen) (on_registry who number calls.Revive (act.Known pnode) (reply_made result)) }
        ensures desk { self.new ≡ record self.old { seen = caller.new.seen } }
        ensures entry { Enters J.book.session caller.old caller.new self.old.seen (on_registry who number calls.Revive (act.Known pnode) (reply_made result)) (kept_by (reply_made result) 2) }
        ensures shelf { shelf.new ≡ record shelf.old { history = caller.new.seen; syncs = shelf.new.syncs; claimed = shelf.new.claimed } }
    {
        let answer = self.registry.known(pnode);
        let entry = Entry {
            who,
            number,
            call: CallName::Revive,
            what: Pnode(0),
            act: Act::Known { pnode },
            reply: reply_of(&answer),
        };
        let keep = kept(&answer, 2);
        caller.enter(shelf, &mut self.desk, Slip::new(alloc), entry, keep);
        answer
    }

    /// Makes the entry of a `Move`, by which a call of `rename` gives a file another name, which another file may lose.
    pub fn rename(
        &mut self,
        shelf: &mut Shelf<J>,
        caller: &mut Caller<J>,
        who: Pnode,
        number: u64,
        room: MoveRoom,
    ) -> Result<(), CallFault>
        requires place { HasRoom shelf.old caller.old.held 3 }
        requires who { caller.old.who ≡ who }
        requires entry { (reply : _) → MayEnter caller.old.seen (on_registry who number calls.Rename (act.Move room.from room.to) reply) 0 }
        ensures answer { reply_done result ≡ registry_reply J.book.session (registry_after J.book.session self.old.seen) (act.Move room.from room.to) }
        ensures state { registry_after J.book.session self.new.seen ≡ registry_step (registry_after J.book.session self.old.seen) (on_registry who number calls.Rename (act.Move room.from room.to) (reply_done result)) }
        ensures desk { self.new ≡ record self.old { seen = caller.new.seen } }
        ensures entry { Enters J.book.session caller.old caller.new self.old.seen (on_registry who number calls.Rename (act.Move room.from room.to) (reply_done result)) 0 }
        ensures shelf { shelf.new ≡ record shelf.old { history = caller.new.seen; syncs = shelf.new.syncs; claimed = shelf.new.claimed } }
    {
        let MoveRoom {
            from,
            to,
            act,
            record,
            empty,
            list,
        } = room;
        let file = self.registry.find(&from);
        let answer = self.registry.rename(&from, to);
        let slip = move_slip(&file, lost_in(&answer), &from, record, empty, list);
        let entry = Entry {
            who,
            number,
            call: CallName::Rename,
            what: Pnode(0),
            act: Act::Move { from, to: act },
            reply: done_reply(&answer),
        };
        caller.enter(shelf, &mut self.desk, slip, entry, 0);
        done(answer)
    }

    /// Makes the entry of an `Unbind`, by which a call of `unlink` takes a name from its file, which stays.
    pub fn unlink(
        &mut self,
        shelf: &mut Shelf<J>,
        caller: &mut Caller<J>,
        who: Pnode,
        number: u64,
        room: UnbindRoom,
    ) -> Result<(), CallFault>
        requires place { HasRoom shelf.old caller.old.held 3 }
        requires who { caller.old.who ≡ who }
        requires entry { (reply : _) → MayEnter caller.old.seen (on_registry who number calls.Unlink (act.Unbind room) reply) 0 }
        ensures answer { reply_done result ≡ registry_reply J.book.session (registry_after J.book.session self.old.seen) (act.Unbind room) }
        ensures state { registry_after J.book.session self.new.seen ≡ registry_step (registry_after J.book.session self.old.seen) (on_registry who number calls.Unlink (act.Unbind room) (reply_done result)) }
        ensures desk { self.new ≡ record self.old { seen = caller.new.seen } }
        ensures entry { Enters J.book.session caller.old caller.new self.old.seen (on_registry who number calls.Unlink (act.Unbind room) (reply_done result)) 0 }
        ensures shelf { shelf.new ≡ record shelf.old { history = caller.new.seen; syncs = shelf.new.syncs; claimed = shelf.new.claimed } }
    {
        let UnbindRoom { name, empty, list } = room;
        let answer = self.registry.unlink(&name);
        let slip = unbind_slip(&answer, empty, list);
        let entry = Entry {
            who,
            number,
            call: CallName::Unlink,
            what: Pnode(0),
            act: Act::Unbind { name },
            reply: done_reply(&answer),
        };
        caller.enter(shelf, &mut self.desk, slip, entry, 0);
        done(answer)
    }
}
