//! The locks of a store.
ghost use Rattle.std.specs.Prelude.{◌≡◌, ℕ, None, Some, IfNone, IfSome, true};
ghost use Rattle.std.specs.FinMap as finite_map;
ghost use Rattle.std.specs.Sync.Mutex.{mutex_guard_value};
ghost use Rattle.pass_plain.specs.Pipes.{new_pipe};
ghost use Rattle.pass_plain.specs.Registries.{registry_after};
ghost use Rattle.pass_slots.specs.declared.slot.Sought.TheVariants as sought;
ghost use Rattle.pass_slots.specs.Slots.{Has, HasObject};

use crate::slot::{Slot, Sought};
use pass_entry::{Descriptor, Kind, Pnode, Text};
use pass_file::FileDesk;
use pass_flow::AppDesk;
use pass_hold::{Blank, Shelf, Whose};
use pass_outside::Gate;
use pass_pipe::{PipeDesk, PipeState};
use pass_registry::RegistryDesk;
use std::alloc::{AllocError, Global};
use std::collections::{BTreeSet, HashMap};
use std::mem;
use std::sync::{Mutex, MutexGuard, Wait};

/// The registry's number, by which a gate knows it.
pub const REGISTRY: Pnode = Pnode(0);

/// The objects of a session, its registry and its book, each in a lock of its own, and the gate that a call passes with a lock held.
#[derive(Drop)]
pub struct Locks<'g, J: Whose, G: Gate> {
    /// The objects of the opening, then those that the session may make, in ascending order of their numbers.
    pub slots: Vec<Mutex<Slot<J>>>,
    /// Where the objects of the opening lie.
    pub opened: HashMap<Pnode, usize>,
    /// The greatest number that was given out before the session.
    pub ceiling: Pnode,
    pub registry: Mutex<RegistryDesk<J>>,
    pub book: Mutex<Shelf<J>>,
    /// The files that may have changed blocks which nobody has looked for yet. Nothing else is locked while this is held.
    pub changed: Mutex<BTreeSet<Pnode>>,
    pub gate: &'g G,
}

/// A file that the session has made, at its first use; the desk of anything else stays as it is. It takes no memory.
pub fn made_file<J: Whose>(
    alloc: Global,
    registry: &mut RegistryDesk<J>,
    shelf: &mut Shelf<J>,
    blank: Blank<J>,
) -> Slot<J>
    ensures registry { registry.new.seen ≡ shelf.old.history }
    ensures shelf { shelf.new ≡ record shelf.old { syncs = shelf.new.syncs } }
{
    registry.see(shelf);
    let pnode = blank.pnode();
    match registry.number(pnode) {
        Some(number) => {
            let mut desk = blank.into_desk();
            shelf.show(&mut desk);
            Slot::File(FileDesk::made(alloc, pnode, number, desk))
        }
        None => Slot::Blank(blank),
    }
}

/// An app object that the session has made, at its first use. It takes no memory.
fn made_app<J: Whose>(alloc: Global, blank: Blank<J>) -> Slot<J> {
    let pnode = blank.pnode();
    Slot::App(AppDesk::new(alloc, pnode, 1, false, blank.into_desk()))
}

/// Lays a pipe that was just made into its slot, with its room for bytes.
fn laid_pipe<J: Whose>(alloc: Global, slot: &mut Slot<J>, state: PipeState)
    requires { state ≡ new_pipe }
{
    let held = match mem::replace(slot, Slot::Empty) {
        Slot::Blank(blank) => {
            let pnode = blank.pnode();
            Slot::Pipe(PipeDesk::new(alloc, pnode, state, blank.into_desk()))
        }
        other => {
            drop(state);
            other
        }
    };
    slot.lay(held);
}

impl<'g, J: Whose, G: Gate> Locks<'g, J, G> {
    /// Where an object lies among the slots.
    fn index(&self, object: Pnode) -> Option<usize> {
        if let Some(index) = self.opened.get(&object) {
            return Some(*index);
        }
        let above = object.0.checked_sub(self.ceiling.0)?.checked_sub(1)?;
        self.opened.len().checked_add(above as usize)
    }

    /// The lock of an object.
    pub fn slot(&self, object: Pnode) -> Option<&Mutex<Slot<J>>> {
        self.slots.get(self.index(object)?)
    }

    /// A desk that nobody has used, as an object of such a kind; a pipe has become one as it was made. It takes no memory.
    fn used<R: Wait>(&self, rt: &R, alloc: Global, blank: Blank<J>, kind: Kind) -> Slot<J> {
        match kind {
            Kind::File => {
                let mut registry = self.registry.lock(rt);
                let mut shelf = self.book.lock(rt);
                made_file(alloc, &mut registry, &mut shelf, blank)
            }
            Kind::App => made_app(alloc, blank),
            Kind::Pipe | Kind::Process => Slot::Blank(blank),
        }
    }

    /// What is used for the first time becomes an object of its kind. It takes no memory.
    fn fill<R: Wait>(&self, rt: &R, alloc: Global, slot: &mut Slot<J>, kind: Kind) {
        if !matches!(slot, Slot::Blank(_)) {
            return;
        }
        let held = match mem::replace(slot, Slot::Empty) {
            Slot::Blank(blank) => self.used(rt, alloc, blank, kind),
            other => other,
        };
        slot.lay(held);
    }

    /// The lock of what is looked for. It waits until that lies there.
    pub fn hold<R: Wait>(
        &self,
        rt: &R,
        alloc: Global,
        object: Pnode,
        wanted: Sought,
    ) -> MutexGuard<'_, Slot<J>>
        ensures { Has (mutex_guard_value result) wanted object }
    {
        for _ in rt.forever() {
            if let Some(lock) = self.slot(object) {
                let mut slot = lock.lock(rt);
                if matches!(wanted, Sought::File) {
                    self.fill(rt, alloc, &mut slot, Kind::File);
                }
                if slot.has(wanted, object) {
                    return slot;
                }
            }
        }
        unreachable!()
    }

    /// The lock of the object of a descriptor. It waits until the object lies there.
    pub fn object<R: Wait>(&self, rt: &R, alloc: Global, d: &Descriptor) -> MutexGuard<'_, Slot<J>>
        ensures { HasObject (mutex_guard_value result) d.now }
    {
        for _ in rt.forever() {
            if let Some(lock) = self.slot(d.pnode) {
                let mut slot = lock.lock(rt);
                self.fill(rt, alloc, &mut slot, d.kind);
                if slot.has_object(d) {
                    return slot;
                }
            }
        }
        unreachable!()
    }

    /// The locks of two objects, that of the lower number taken first.
    pub fn two<R: Wait>(
        &self,
        rt: &R,
        alloc: Global,
        one: &Descriptor,
        other: &Descriptor,
    ) -> (MutexGuard<'_, Slot<J>>, MutexGuard<'_, Slot<J>>)
        ensures one { HasObject (mutex_guard_value result.0) one.now }
        ensures other { HasObject (mutex_guard_value result.1) other.now }
    {
        if one.pnode < other.pnode {
            let first = self.object(rt, alloc, one);
            let second = self.object(rt, alloc, other);
            (first, second)
        } else {
            let second = self.object(rt, alloc, other);
            let first = self.object(rt, alloc, one);
            (first, second)
        }
    }

    /// The locks of the registry and of the file that has a name, where one has it. The file's is taken first, so the name is looked up
    /// once more when both are held.
    pub fn named<R: Wait>(
        &self,
        rt: &R,
        alloc: Global,
        name: &Text,
    ) -> (
        MutexGuard<'_, RegistryDesk<J>>,
        Option<MutexGuard<'_, Slot<J>>>,
    )
        ensures some { IfSome result.1 (λ slot. (file : ℕ) × (finite_map.get (registry_after J.book.session (mutex_guard_value result.0).seen).names name.now ≡ Some file) × Has (mutex_guard_value slot) sought.File file) }
        ensures none { IfNone result.1 (finite_map.get (registry_after J.book.session (mutex_guard_value result.0).seen).names name.now ≡ None) }
    {
        for _ in rt.forever() {
            let found = self.registry.lock(rt).named(name);
            let slot = match found {
                Some(file) => Some(self.hold(rt, alloc, file, Sought::File)),
                None => None,
            };
            let registry = self.registry.lock(rt);
            if registry.named(name) == found {
                return (registry, slot);
            }
        }
        unreachable!()
    }

    /// Lays a pipe that was just made into its lock, with its room for bytes.
    pub fn lay_pipe<R: Wait>(&self, rt: &R, alloc: Global, pipe: Pnode, state: PipeState)
        requires { state ≡ new_pipe }
    {
        let Some(lock) = self.slot(pipe) else {
            return;
        };
        let mut slot = lock.lock(rt);
        laid_pipe(alloc, &mut slot, state);
    }

    /// Notes a file that is about to change. One that memory has no room to note is looked for after its next change, or at the end.
    pub fn note_changed<R: Wait>(&self, rt: &R, file: Pnode) {
        let mut changed = self.changed.lock(rt);
        drop(changed.insert(file));
    }

    /// Takes the list of changed files, which is empty then.
    pub fn take_changed<R: Wait>(&self, rt: &R, alloc: Global) -> BTreeSet<Pnode> {
        let mut changed = self.changed.lock(rt);
        mem::replace(&mut *changed, BTreeSet::new(alloc))
    }

    /// Lists these files again.
    pub fn keep_changed<R: Wait>(&self, rt: &R, files: BTreeSet<Pnode>) -> Result<(), AllocError> {
        let mut files = files;
        let mut changed = self.changed.lock(rt);
        changed.append(&mut files)
    }
}
