//! The names and objects of a store.
ghost use Rattle.std.specs.Prelude.{◌≡◌, ◌<◌, ◌≤◌, ◌+◌, ◌^◌, ◌++◌, OnOk, IfOk, map};
ghost use Rattle.pass_entry.specs.declared.objects.Kind.TheVariants as kind_of;
ghost use Rattle.pass_plain.specs.Histories.{is_fault as is_fault_of, is_own as is_own_of};
ghost use Rattle.pass_plain.specs.Registries.{opening_registry, registry_act, with_object};
ghost use Rattle.pass_plain.specs.States.{registry_of, registry_step};

use crate::names::Names;
use crate::start::{Start, StartFile};
use crate::steps::pnode_of;
use pass_entry::{Act, Entry, Kind, Node, Pnode, Reply};
use std::alloc::{AllocError, Global};

/// The registry of a store after some entries: the files' names, the objects in the order in which they were made, and how
/// many the session made.
#[derive(Drop)]
pub struct RegistryState {
    pub names: Names,
    pub objects: Vec<(Pnode, Kind)>,
    pub made: u64,
}

/// The reply is a fault.
pub fn is_fault(reply: &Reply) -> bool
    ensures { result ≡ is_fault_of reply.now }
{
    matches!(reply, Reply::Fault(_))
}

/// An entry on the object that is no fault.
pub fn is_own(object: Pnode, e: &Entry) -> bool
    ensures { result ≡ is_own_of object e.now }
{
    e.what == object && !is_fault(&e.reply)
}

fn file_objects(alloc: Global, files: &[StartFile]) -> Result<Vec<(Pnode, Kind)>, AllocError>
    ensures { IfOk result (λ v. v.items ≡ map (λ f. (f.node.pnode, kind_of.File)) files.now) }
{
    files
        .iter()
        .map(|f| (f.node.pnode, Kind::File))
        .collect(alloc)
}

fn add_apps(objects: &mut Vec<(Pnode, Kind)>, apps: &[Node]) -> Result<(), AllocError>
    ensures { OnOk result (objects.new.items ≡ objects.old.items ++ map (λ n. (n.pnode, kind_of.App)) apps.now) }
{
    for app in apps {
        objects.push((app.pnode, Kind::App))?;
    }
    Ok(())
}

impl RegistryState {
    /// The registry with which a session begins.
    pub fn opened(alloc: Global, start: &Start) -> Result<RegistryState, AllocError>
        ensures after { IfOk result (λ r. registry_of r ≡ opening_registry start.now) }
        ensures none_made { IfOk result (λ r. r.made ≡ 0) }
    {
        let names = Names::of_files(alloc, &start.files)?;
        let mut objects = file_objects(alloc, &start.files)?;
        add_apps(&mut objects, &start.apps)?;
        Ok(RegistryState {
            names,
            objects,
            made: 0,
        })
    }

    fn add(&mut self, pnode: Pnode, kind: Kind) -> Result<(), AllocError>
        requires { self.old.made < 2 ^ 63 }
        ensures ok { OnOk result (registry_of self.new ≡ with_object (registry_of self.old) pnode kind) }
        ensures made { self.new.made ≤ self.old.made + 1 }
    {
        self.objects.push((pnode, kind))?;
        self.made += 1;
        Ok(())
    }

    /// What an entry on the registry with this act and reply makes of it.
    pub fn apply(&mut self, act: &Act, reply: &Reply) -> Result<(), AllocError>
        requires { self.old.made < 2 ^ 63 }
        ensures ok { OnOk result (registry_of self.new ≡ registry_act (registry_of self.old) act.now reply.now) }
        ensures made { self.new.made ≤ self.old.made + 1 }
    {
        match act {
            Act::Bind { name } => {
                let file = pnode_of(reply);
                self.names.insert(name.clone()?, file)?;
                self.add(file, Kind::File)
            }
            Act::Mint { kind } => self.add(pnode_of(reply), *kind),
            Act::Move { from, to } => self.names.rename(from, to),
            Act::Unbind { name } => {
                self.names.remove(name);
                Ok(())
            }
            _ => Ok(()),
        }
    }

    /// The registry after one more entry of a history.
    pub fn follow(&mut self, e: &Entry) -> Result<(), AllocError>
        requires { self.old.made < 2 ^ 63 }
        ensures ok { OnOk result (registry_of self.new ≡ registry_step (registry_of self.old) e.now) }
        ensures made { self.new.made ≤ self.old.made + 1 }
    {
        if is_own(Pnode(0), e) {
            self.apply(&e.act, &e.reply)?;
        }
        Ok(())
    }
}
