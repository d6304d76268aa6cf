//! The objects of a store by their numbers.
ghost use Rattle.std.specs.Prelude.{◌≡◌, ◌≤◌, ◌<◌, ◌-◌, ◌++◌, ◌∷◌, [], ◌==◌, ◌&&◌, false, is_some, find, length, IfOk};
ghost use Rattle.std.specs.List.{list_any};
ghost use Rattle.pass_entry.specs.declared.objects.Kind.TheVariants as kinds;
ghost use Rattle.pass_plain.specs.Registries.{same_kind};
ghost use Rattle.pass_registry.specs.Files.{files_of, number_of};

use indexmap::IndexMap;
use pass_entry::{KIND_LIMIT, Kind, Pnode};
use std::alloc::{AllocError, Global};
use std::marker::Model;

/// What an object is, and of a file its number among the files.
#[derive(Clone, Copy)]
pub enum Object {
    Process,
    File(u32),
    Pipe,
    App,
}

impl Object {
    ghost use Rattle.pass_registry.specs.Tables.{object_of, is_app_in, number_in};

    /// An object of this kind, which has this number if it is a file.
    fn of(kind: Kind, number: u32) -> Object
        ensures { result ≡ object_of kind number }
    {
        match kind {
            Kind::Process => Object::Process,
            Kind::File => Object::File(number),
            Kind::Pipe => Object::Pipe,
            Kind::App => Object::App,
        }
    }

    fn is_app(self) -> bool
        ensures { result ≡ is_app_in self }
    {
        matches!(self, Object::App)
    }

    fn number(self) -> Option<u32>
        ensures { result ≡ number_in self }
    {
        match self {
            Object::File(number) => Some(number),
            Object::Process | Object::Pipe | Object::App => None,
        }
    }
}

/// The objects in the order in which they were made, how many files and app objects are among them, and for how many more
/// there is room.
#[derive(Drop)]
pub struct Objects {
    table: IndexMap<Pnode, Object>,
    files: u32,
    apps: u32,
    room: usize,
}

impl Model for Objects {
    ghost use Rattle.pass_registry.specs.Tables.{ObjectState, kinds_of, IsTable};
    ghost use Rattle.indexmap.specs.IndexMap.{spare, IsUnique};
    ghost use Rattle.std.specs.Prelude.{◌≤◌, nat_eq};

    ghost Value = { ObjectState };

    ghost view = { λ o. record { objects = kinds_of o.table.entries; room = o.room } };

    ghost invariant = { λ o. IsTable o.table.entries o.files o.apps × IsUnique nat_eq o.table × (o.room ≤ spare o.table) };
}

impl Objects {
    ghost use Rattle.pass_registry.specs.Tables.{is_filled};

    /// No objects yet, and room for so many.
    pub fn with_room(alloc: Global, room: usize) -> Result<Objects, AllocError>
        ensures { IfOk result (λ o. o ≡ record { objects = []; room = room }) }
    {
        let table = IndexMap::with_capacity(alloc, room)?;
        Ok(Objects {
            table,
            files: 0,
            apps: 0,
            room,
        })
    }

    /// There are as many objects of this kind as a store may have.
    pub fn is_filled(&self, kind: Kind) -> bool
        ensures { result ≡ is_filled self.now.objects kind }
    {
        match kind {
            Kind::File => self.files >= KIND_LIMIT,
            Kind::App => self.apps >= KIND_LIMIT,
            Kind::Process | Kind::Pipe => false,
        }
    }

    /// Adds an object of a number that no other has.
    pub fn add(&mut self, pnode: Pnode, kind: Kind)
        requires room { 1 ≤ self.old.room }
        requires single { list_any (λ o. o.0 == pnode) self.old.objects ≡ false }
        requires few { is_filled self.old.objects kind ≡ false }
        ensures { self.new ≡ record { objects = self.old.objects ++ (pnode, kind) ∷ []; room = self.old.room - 1 } }
    {
        let object = Object::of(kind, self.files);
        self.room -= 1;
        match kind {
            Kind::File => self.files += 1,
            Kind::App => self.apps += 1,
            Kind::Process => {}
            Kind::Pipe => {}
        }
        let _ = self.table.insert(pnode, object);
    }

    /// An app object has this number.
    pub fn is_app(&self, pnode: Pnode) -> bool
        ensures { result ≡ is_some (find (λ o. o.0 == pnode && same_kind o.1 kinds.App) self.now.objects) }
    {
        match self.table.get(&pnode) {
            Some(object) => object.is_app(),
            None => false,
        }
    }

    /// The number of a file.
    pub fn number(&self, file: Pnode) -> Option<u32>
        ensures { result ≡ number_of self.now.objects file }
    {
        match self.table.get(&file) {
            Some(object) => object.number(),
            None => None,
        }
    }

    /// How many files there are.
    pub fn files(&self) -> u32
        ensures { result ≡ length (files_of self.now.objects) }
    {
        self.files
    }
}
