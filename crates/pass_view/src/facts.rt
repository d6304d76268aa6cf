//! What the records say of nodes, in tables.
ghost use Rattle.std.specs.Prelude.{◌≡◌, ℕ, List, [], ◌∷◌, ◌++◌, ◌||◌, IfOk, IfSome, IsSome, OnOk, None, nat_eq, ◌==◌, true, if◌then◌else◌};
ghost use Rattle.std.specs.List.{list_any, starts_with};
ghost use Rattle.pass_entry.specs.declared.record.Record.{Record};
ghost use Rattle.pass_plain.specs.WellLogged.{flaw_of, is_known, IsWellLogged};
ghost use Rattle.pass_view.specs.Facts.{is_system_name, relation_between};

use crate::picture::{Link, Relation, Shown};
use crate::tags::Tags;
use pass_entry::{Kind, Node, Pnode, Record, Text};
use pass_graph::Logged;
use std::alloc::{AllocError, Global};
use std::collections::HashMap;

/// The folders of what a system brings along.
const SYSTEM_FOLDERS: [&str; 11] = [
    "/bin/", "/etc/", "/lib/", "/lib32/", "/lib64/", "/libx32/", "/opt/", "/proc/", "/sbin/",
    "/sys/", "/usr/",
];

/// What records say of objects, the last name that each was given, and the attributes of each node.
#[derive(Drop)]
pub(crate) struct Facts {
    logged: Logged,
    names: HashMap<u64, Text>,
    tags: Tags,
}

impl Facts {
    ghost use Rattle.pass_view.specs.Facts.{AreFacts, IsTold, IsRelated, given, given_name_of, is_process, is_system};
    ghost use Rattle.std.specs.HashMap.{get};

    fn new(alloc: Global) -> Facts
        ensures { AreFacts [] result }
    {
        Facts {
            logged: Logged::new(alloc),
            names: HashMap::new(alloc),
            tags: Tags::new(alloc),
        }
    }

    /// What well logged records say.
    pub(crate) fn of(alloc: Global, records: &[Record]) -> Result<Facts, AllocError>
        requires { IsWellLogged records.now }
        ensures { IfOk result (λ facts. AreFacts records.now facts) }
    {
        let mut facts = Facts::new(alloc);
        for one in records {
            facts.note(one)?;
        }
        Ok(facts)
    }

    // Notes the next record, which has no flaw.
    fn note(&mut self, one: &Record) -> Result<(), AllocError>
        ensures { OnOk result ((list : List Record) → flaw_of list one.now ≡ None → AreFacts list self.old → AreFacts (list ++ one.now ∷ []) self.new) }
    {
        self.logged.add(one)?;
        self.tags.note(one)?;
        match one {
            Record::Name { pnode, name } => self.add_name(*pnode, name),
            _ => Ok(()),
        }
    }

    // The object is given a name; an empty one takes the name before away.
    #[tactic(auto, using(crate::proofs::Tagging::name_put, crate::proofs::Tagging::name_stays))]
    fn add_name(&mut self, pnode: Pnode, name: &Text) -> Result<(), AllocError>
        ensures logged { self.new.logged ≡ self.old.logged }
        ensures tags { self.new.tags ≡ self.old.tags }
        ensures names { OnOk result ((o : ℕ) → get nat_eq self.new.names o
            ≡ (if pnode == o then given name.now (get nat_eq self.old.names o) else get nat_eq self.old.names o)) }
    {
        if name.as_bytes().is_empty() {
            return Ok(());
        }
        let own = name.clone()?;
        self.names.insert(pnode.0, own)?;
        Ok(())
    }

    /// What is told of a node; None where the records don't have its object.
    #[tactic(auto, using(crate::proofs::Telling::kind_told, crate::proofs::Telling::not_told))]
    pub(crate) fn shown(&self, node: Node) -> Result<Option<Shown>, AllocError>
        ensures node { IfOk result (λ o. IfSome o (λ s. s.node ≡ node)) }
        ensures told { (list : List Record) → AreFacts list self.now → IfOk result (λ o. IfSome o (IsTold list)) }
        ensures there { (list : List Record) → AreFacts list self.now → is_known list node.pnode ≡ true → IfOk result (λ o. IsSome o) }
    {
        let Some(object) = self.logged.object(node.pnode) else {
            return Ok(None);
        };
        Ok(Some(Shown {
            node,
            kind: object.kind,
            name: self.logged.name(node.pnode)?,
            was: self.given_name(node.pnode)?,
            is_system: self.is_system(node.pnode),
            tags: self.tags.of_node(node)?,
        }))
    }

    // The last name that the object was given.
    fn given_name(&self, pnode: Pnode) -> Result<Option<Text>, AllocError>
        ensures { IfOk result (λ name. (list : List Record) → AreFacts list self.now → name ≡ given_name_of list pnode) }
    {
        match self.names.get(&pnode.0) {
            Some(name) => Ok(Some(name.clone()?)),
            None => Ok(None),
        }
    }

    // Whether that name is one of the system's.
    fn is_system(&self, pnode: Pnode) -> bool
        ensures { (list : List Record) → AreFacts list self.now → result ≡ is_system list pnode }
    {
        match self.names.get(&pnode.0) {
            Some(name) => is_system_name(name.as_bytes()),
            None => false,
        }
    }

    // Whether the object is a process.
    #[tactic(auto, using(crate::proofs::Telling::process_told, crate::proofs::Telling::no_process))]
    fn is_process(&self, pnode: Pnode) -> bool
        ensures { (list : List Record) → AreFacts list self.now → result ≡ is_process list pnode }
    {
        match self.logged.object(pnode) {
            Some(object) => match object.kind {
                Kind::Process => true,
                Kind::File | Kind::Pipe | Kind::App => false,
            },
            None => false,
        }
    }

    /// The edge between two nodes, with what the one is to the other.
    pub(crate) fn link(&self, target: &Node, source: &Node) -> Link
        ensures target { result.target ≡ target.now }
        ensures source { result.source ≡ source.now }
        ensures related { (list : List Record) → AreFacts list self.now → IsRelated list result }
    {
        let relation = relation(self.is_process(target.pnode), self.is_process(source.pnode));
        Link {
            target: *target,
            source: *source,
            relation,
            is_system: self.is_system(target.pnode) || self.is_system(source.pnode),
        }
    }
}

/// Whether the name is below one of the folders of what a system brings along.
pub fn is_system_name(name: &[u8]) -> bool
    ensures { result ≡ is_system_name name.now }
{
    is_below(name, &SYSTEM_FOLDERS)
}

// Whether the name is below one of these folders.
fn is_below(name: &[u8], folders: &[&str]) -> bool
    ensures { result ≡ list_any (λ f. starts_with nat_eq name.now f.now) folders.now }
{
    folders
        .iter()
        .any(|folder| name.starts_with(folder.as_bytes()))
}

// The relation by which of the two ends are processes.
fn relation(target: bool, source: bool) -> Relation
    ensures { result ≡ relation_between target source }
{
    match (target, source) {
        (true, false) => Relation::Used,
        (false, true) => Relation::Generated,
        (true, true) => Relation::Informed,
        (false, false) => Relation::Derived,
    }
}
