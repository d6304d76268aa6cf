//! The registry of a store.
ghost use Rattle.std.specs.Prelude.{◌≡◌, ◌≤◌, ◌<◌, ◌+◌, ◌-◌, ◌^◌, ◌++◌, ◌↔◌, ◌==◌, false, length, map, OnOk, OnErr, IfOk, IsSome, Ok, Err, None, if◌then◌else◌};
ghost use Rattle.std.specs.List.{list_any};
ghost use Rattle.std.specs.Option.{ok_or};
ghost use Rattle.std.specs.FinMap as finite_map;
ghost use Rattle.pass_entry.specs.declared.entry.Act.TheVariants as act;
ghost use Rattle.pass_entry.specs.declared.entry.CallFault.TheVariants as faults;
ghost use Rattle.pass_entry.specs.declared.entry.Reply.TheVariants as answer;
ghost use Rattle.pass_entry.specs.declared.objects.Kind.TheVariants as kinds;
ghost use Rattle.pass_entry.specs.Limits.{kind_limit, number_limit};
ghost use Rattle.pass_plain.specs.Legal.{session_of};
ghost use Rattle.pass_plain.specs.Registries.{Exists};
ghost use Rattle.pass_plain.specs.Replies.{is_app_object};
ghost use Rattle.pass_plain.specs.Sessions.{Session};
ghost use Rattle.pass_plain.specs.Sound.{IsSound};
ghost use Rattle.pass_plain.specs.States.{registry_reply};
ghost use Rattle.pass_registry.specs.Files.{files_of, number_of};
ghost use Rattle.pass_registry.specs.Outcomes.{minted, displaced, reply_made, reply_done};
ghost use Rattle.pass_registry.specs.States.{IsOf, next_pnode, opened, with_act};
ghost use Rattle.pass_registry.specs.Openings.{IsSingle, file_object, app_object};
ghost use Rattle.pass_registry.specs.Tables.{count_in};

use crate::names::Names;
use crate::objects::Objects;
use pass_entry::{CallFault, Kind, Node, Pnode, Text};
use pass_plain::{Start, StartFile};
use std::alloc::{AllocError, Global};
use std::marker::Model;

/// The names of the files, the objects that were ever made, and the numbers of the next ones, in one session.
#[derive(Drop)]
pub struct Registry {
    names: Names,
    table: Objects,
    ceiling: u64,
    limit: u32,
    made: u32,
}

impl Model for Registry {
    ghost use Rattle.std.specs.Coded.{codes, coded_ℕ, coded_list};
    ghost use Rattle.std.specs.Ordering.{nat_cmp};
    ghost use Rattle.std.specs.Cmp.Lexicographic.{slice_cmp};
    ghost use Rattle.std.specs.FinMap as finite_map;
    ghost use Rattle.pass_entry.specs.contracts.objects.Kind as kind_type;
    ghost use Rattle.pass_registry.specs.States.{RegistryState, IsSession};

    ghost Value = { RegistryState };

    ghost coded = { Prim.hlevel (codes, finite_map.code {R = slice_cmp nat_cmp} (coded_list coded_ℕ) coded_ℕ, kind_type.the_row.coded) };

    ghost view = { λ r. record {
      registry = record { names = r.names.names; objects = r.table.objects; made = r.made };
      ceiling = r.ceiling;
      limit = r.limit;
      room = r.names.room;
    } };

    ghost invariant = { λ r. IsSession r.table.objects r.table.room r.ceiling r.limit r.made };
}

/// Adds the files with which a session begins.
fn add_files(table: &mut Objects, files: &[StartFile])
    requires single { IsSingle (table.old.objects ++ map file_object files.now) }
    requires few { count_in kinds.File table.old.objects + length files.now ≤ kind_limit }
    requires room { length files.now ≤ table.old.room }
    ensures objects { table.new.objects ≡ table.old.objects ++ map file_object files.now }
    ensures room { table.new.room ≡ table.old.room - length files.now }
{
    for file in files {
        table.add(file.node.pnode, Kind::File);
    }
}

/// Adds the app objects with which a session begins.
fn add_apps(table: &mut Objects, apps: &[Node])
    requires single { IsSingle (table.old.objects ++ map app_object apps.now) }
    requires few { count_in kinds.App table.old.objects + length apps.now ≤ kind_limit }
    requires room { length apps.now ≤ table.old.room }
    ensures objects { table.new.objects ≡ table.old.objects ++ map app_object apps.now }
    ensures room { table.new.room ≡ table.old.room - length apps.now }
{
    for app in apps {
        table.add(app.pnode, Kind::App);
    }
}

impl Registry {
    /// The registry with which a session begins that may make so many objects. There is room for all of them, and none for a
    /// name.
    pub fn new(alloc: Global, start: &Start, objects: u32) -> Result<Registry, AllocError>
        requires { IsSound (session_of start.now objects) }
        ensures { IfOk result (λ r. r ≡ opened start.now objects) }
    {
        let room = start.files.len() + start.apps.len() + objects as usize;
        let mut table = Objects::with_room(alloc, room)?;
        add_files(&mut table, &start.files);
        add_apps(&mut table, &start.apps);
        let names = Names::of_files(alloc, &start.files)?;
        Ok(Registry {
            names,
            table,
            ceiling: start.ceiling,
            limit: objects,
            made: 0,
        })
    }

    /// Makes room for one name.
    pub fn reserve(&mut self) -> Result<(), AllocError>
        ensures room { OnOk result (1 ≤ self.new.room) }
        ensures same { self.new ≡ record self.old { room = self.new.room } }
        ensures grows { self.old.room ≤ self.new.room }
        ensures err { OnErr result (self.new ≡ self.old) }
    {
        self.names.reserve()
    }

    /// Makes an object without a name, and answers its number.
    pub fn mint(&mut self, kind: Kind) -> Result<Pnode, CallFault>
        ensures answer { result ≡ minted self.old kind }
        ensures plain { (session : Session) → IsOf session self.old → reply_made result ≡ registry_reply session self.old.registry (act.Mint kind) }
        ensures new { IfOk result (λ pnode. list_any (λ o. o.0 == pnode) self.old.registry.objects ≡ false) }
        ensures ok { OnOk result (self.new ≡ with_act self.old (act.Mint kind) (reply_made result)) }
        ensures err { OnErr result (self.new ≡ self.old) }
    {
        if self.made >= self.limit || self.table.is_filled(kind) {
            return Err(CallFault::TooMany);
        }
        self.made += 1;
        let pnode = Pnode(self.ceiling + u64::from(self.made));
        self.table.add(pnode, kind);
        Ok(pnode)
    }

    /// Makes a file under a name, and answers its number. Room for the name was reserved.
    pub fn bind(&mut self, name: Text) -> Result<Pnode, CallFault>
        requires { 1 ≤ self.old.room }
        ensures answer { result ≡ (if finite_map.contains_key self.old.registry.names name then Err faults.Exists else minted self.old kinds.File) }
        ensures plain { (session : Session) → IsOf session self.old → reply_made result ≡ registry_reply session self.old.registry (act.Bind name) }
        ensures new { IfOk result (λ pnode. list_any (λ o. o.0 == pnode) self.old.registry.objects ≡ false) }
        ensures ok { OnOk result (self.new ≡ record (with_act self.old (act.Bind name) (reply_made result)) { room = self.old.room - 1 }) }
        ensures err { OnErr result (self.new ≡ self.old) }
    {
        if self.names.find(&name).is_some() {
            return Err(CallFault::Exists);
        }
        let file = self.mint(Kind::File)?;
        self.names.insert(name, file);
        Ok(file)
    }

    /// The file that has the name.
    pub fn find(&self, name: &Text) -> Result<Pnode, CallFault>
        ensures answer { result ≡ ok_or (finite_map.get self.now.registry.names name.now) faults.NoEntry }
        ensures plain { (session : Session) → reply_made result ≡ registry_reply session self.now.registry (act.Find name.now) }
    {
        self.names.find(name).ok_or(CallFault::NoEntry)
    }

    /// Takes the name from its file, which stays and is answered.
    pub fn unlink(&mut self, name: &Text) -> Result<Pnode, CallFault>
        ensures answer { result ≡ ok_or (finite_map.get self.old.registry.names name.now) faults.NoEntry }
        ensures plain { (session : Session) → reply_done result ≡ registry_reply session self.old.registry (act.Unbind name.now) }
        ensures ok { OnOk result (self.new ≡ with_act self.old (act.Unbind name.now) answer.Done) }
        ensures err { OnErr result (self.new ≡ self.old) }
    {
        self.names.remove(name).ok_or(CallFault::NoEntry)
    }

    /// The file that has the first name gets the second in its place. Another file that had the second is answered, and has
    /// no name any more.
    pub fn rename(&mut self, from: &Text, to: Text) -> Result<Option<Pnode>, CallFault>
        ensures answer { result ≡ (if finite_map.contains_key self.old.registry.names from.now then Ok (displaced self.old.registry.names from.now to) else Err faults.NoEntry) }
        ensures plain { (session : Session) → reply_done result ≡ registry_reply session self.old.registry (act.Move from.now to) }
        ensures ok { OnOk result (self.new ≡ with_act self.old (act.Move from.now to) answer.Done) }
        ensures same { from.now ≡ to → IfOk result (λ lost. lost ≡ None) }
        ensures unmoved { from.now ≡ to → self.new ≡ self.old }
        ensures err { OnErr result (self.new ≡ self.old) }
    {
        match self.names.find(from) {
            Some(file) => Ok(self.names.rename(from, to, file)),
            None => Err(CallFault::NoEntry),
        }
    }

    /// The number, where it is an app object's.
    pub fn known(&self, pnode: Pnode) -> Result<Pnode, CallFault>
        ensures answer { result ≡ (if is_app_object self.now.registry pnode then Ok pnode else Err faults.NoObject) }
        ensures plain { (session : Session) → reply_made result ≡ registry_reply session self.now.registry (act.Known pnode) }
    {
        if self.table.is_app(pnode) {
            Ok(pnode)
        } else {
            Err(CallFault::NoObject)
        }
    }

    /// The number of a file among the files of the store, by which its data has its place on the disk.
    pub fn number(&self, file: Pnode) -> Option<u32>
        ensures number { result ≡ number_of self.now.registry.objects file }
        ensures some { IsSome result ↔ Exists self.now.registry file kinds.File }
    {
        self.table.number(file)
    }

    /// How many files the store has.
    pub fn files(&self) -> u32
        ensures { result ≡ length (files_of self.now.registry.objects) }
    {
        self.table.files()
    }

    /// The number that the next object gets.
    pub fn next(&self) -> Pnode
        ensures { result ≡ next_pnode self.now }
    {
        Pnode(self.ceiling + u64::from(self.made) + 1)
    }

    /// How many objects the session made.
    pub fn made(&self) -> u32
        ensures made { result ≡ self.now.registry.made }
        ensures within { result ≤ self.now.limit }
        ensures numbers { self.now.ceiling + self.now.limit < number_limit }
    {
        self.made
    }

    /// How many objects the session may make.
    pub fn objects(&self) -> u32
        ensures { result ≡ self.now.limit }
    {
        self.limit
    }
}
