//! What is told of a node.
ghost use Rattle.std.specs.Prelude.{◌≡◌, List, IfOk, Some};
ghost use Rattle.pass_entry.specs.declared.record.Record.{Record};
ghost use Rattle.pass_plain.specs.WellLogged.{is_file_of};
ghost use Rattle.pass_view.specs.Facts.{is_system, tags_in};
ghost use Rattle.pass_files.specs.Told.{told_of, title_by, named_title, running_title, naming_of, ran_of};
ghost use Rattle.pass_files.specs.declared.told.Title.TheVariants.{Tagged};

use crate::attributes::Attributes;
use crate::facts::{Naming, Ran, kinds_of, names_of, ran_at, runs_of};
use pass_entry::{Kind, Node, Record};
use pass_view::{Tags, is_system_name};
use std::alloc::{AllocError, Global};
use std::collections::HashMap;

/// What is told of a node besides its kind.
#[derive(Drop)]
pub enum Title {
    Nothing,
    /// The name of a file.
    Named(Naming),
    /// What a process ran.
    Ran(Ran),
    /// The attributes of an app object.
    Tagged(Attributes),
}

/// A node with what the records tell of it.
#[derive(Drop)]
pub struct Told {
    pub node: Node,
    /// The kind of its object, None where the records haven't the object.
    pub kind: Option<Kind>,
    pub title: Title,
}

/// What records tell of all nodes.
#[derive(Drop)]
pub(crate) struct Facts {
    kinds: HashMap<u64, Kind>,
    names: HashMap<u64, Naming>,
    runs: HashMap<Node, Ran>,
    tags: Tags,
}

impl Facts {
    ghost use Rattle.pass_files.specs.Tables.{AreFacts};

    pub(crate) fn of(alloc: Global, records: &[Record]) -> Result<Facts, AllocError>
        ensures { IfOk result (AreFacts records.now) }
    {
        Ok(Facts {
            kinds: kinds_of(alloc, records)?,
            names: names_of(alloc, records)?,
            runs: runs_of(alloc, records)?,
            tags: Tags::of(alloc, records)?,
        })
    }

    /// What is told of the node.
    pub(crate) fn told(&self, node: Node) -> Result<Told, AllocError>
        ensures { (list : List Record) → AreFacts list self.now → IfOk result (λ t. t ≡ told_of list node) }
    {
        let kind = self.kinds.get(&node.pnode.0).copied();
        Ok(Told {
            node,
            kind,
            title: self.title(kind, node)?,
        })
    }

    fn title(&self, kind: Option<Kind>, node: Node) -> Result<Title, AllocError>
        ensures { (list : List Record) → AreFacts list self.now → IfOk result (λ t. t ≡ title_by kind (naming_of list node.pnode) (ran_of list node) (tags_in list node)) }
    {
        let Some(kind) = kind else {
            return Ok(Title::Nothing);
        };
        match kind {
            Kind::Process => self.running(node),
            Kind::App => self.tagged(node),
            Kind::File | Kind::Pipe => self.naming(node),
        }
    }

    fn running(&self, node: Node) -> Result<Title, AllocError>
        ensures { (list : List Record) → AreFacts list self.now → IfOk result (λ t. t ≡ running_title (ran_of list node)) }
    {
        match ran_at(&self.runs, &node)? {
            Some(ran) => Ok(Title::Ran(ran)),
            None => Ok(Title::Nothing),
        }
    }

    fn tagged(&self, node: Node) -> Result<Title, AllocError>
        ensures { (list : List Record) → AreFacts list self.now → IfOk result (λ t. t ≡ Tagged (tags_in list node)) }
    {
        Ok(Title::Tagged(Attributes::new(self.tags.of_node(node)?)))
    }

    fn naming(&self, node: Node) -> Result<Title, AllocError>
        ensures { (list : List Record) → AreFacts list self.now → IfOk result (λ t. t ≡ named_title (naming_of list node.pnode)) }
    {
        match self.names.get(&node.pnode.0) {
            Some(naming) => Ok(Title::Named(Naming {
                name: naming.name.clone()?,
                lost: naming.lost,
            })),
            None => Ok(Title::Nothing),
        }
    }

    /// Whether the object is a file.
    pub(crate) fn is_file(&self, pnode: u64) -> bool
        ensures { (list : List Record) → AreFacts list self.now → result ≡ is_file_of list pnode }
    {
        match self.kinds.get(&pnode) {
            Some(kind) => *kind == Kind::File,
            None => false,
        }
    }

    /// Whether the object is a file of the system.
    #[tactic(auto, using(crate::proofs::Called::systems_are))]
    pub(crate) fn is_system(&self, pnode: u64) -> bool
        ensures { (list : List Record) → AreFacts list self.now → result ≡ is_system list pnode }
    {
        match self.names.get(&pnode) {
            Some(naming) => is_system_name(naming.name.as_bytes()),
            None => false,
        }
    }
}
