//! What a list of records says, in tables.
ghost use Rattle.std.specs.Prelude.{◌≡◌, ℕ, List, IfOk, IfSome, IfNone, OnOk, OnErr, Some, None, ◌∷◌, [], ◌++◌, length, ◌≤◌, ◌<◌, ◌&&◌, ◌||◌, not, nat_lt, nat_le, count_by, bytes_eq};
ghost use Rattle.std.specs.List.{list_any};
ghost use Rattle.pass_entry.specs.Limits.{kind_limit};
ghost use Rattle.pass_entry.specs.declared.record.Record.{Record};
ghost use Rattle.pass_entry.specs.declared.record.Record.TheVariants as log;
ghost use Rattle.pass_plain.specs.WellLogged.{ceiling_of, current_of, size_of, last_name_of, flaw_of, is_known, is_file_of, is_current, names_other, has_kind, has_source, is_input};
ghost use Rattle.pass_plain.specs.Versions.{same_node};
ghost use Rattle.pass_plain.specs.Registries.{is_limited};
ghost use Rattle.pass_graph.specs.Logged.{name_in};

use pass_entry::limits::{BLOCK_SIZE, KIND_LIMIT};
use pass_entry::{FlawReason, Kind, Node, Pnode, Record, Text};
use std::alloc::{AllocError, Global};
use std::collections::{HashMap, HashSet};

/// By how much a ceiling may rise at once.
const CEILING_STEP: u64 = 8192;

/// What a list of records says of one object.
#[derive(Clone, Copy, PartialEq, Eq)]
pub struct Told {
    pub kind: Kind,
    /// The current version.
    pub version: u64,
    /// The size in bytes, 0 where none was given.
    pub size: u64,
}

/// What a list of records says, in tables by which the next record is judged with a few look-ups.
#[derive(Drop)]
pub struct Logged {
    alloc: Global,
    ceiling: u64,
    files: u32,
    apps: u32,
    objects: HashMap<u64, Told>,
    names: HashMap<u64, Text>,
    holders: HashMap<Vec<u8>, u64>,
    sources: HashSet<Node>,
    inputs: HashSet<(Node, Node)>,
}

impl Logged {
    ghost use Rattle.pass_graph.specs.Logged.{Summarizes, told};

    /// The tables of the empty list.
    pub fn new(alloc: Global) -> Logged
        ensures { Summarizes result [] }
    {
        Logged {
            alloc,
            ceiling: 0,
            files: 0,
            apps: 0,
            objects: HashMap::new(alloc),
            names: HashMap::new(alloc),
            holders: HashMap::new(alloc),
            sources: HashSet::new(alloc),
            inputs: HashSet::new(alloc),
        }
    }

    /// What the list says of the object, None where it has none of that number.
    pub fn object(&self, pnode: Pnode) -> Option<Told>
        ensures { (list : List Record) → Summarizes self.now list → result ≡ told list pnode }
    {
        self.objects.get(&pnode.0).copied()
    }

    /// The greatest number that an object may have.
    pub fn ceiling(&self) -> u64
        ensures { (list : List Record) → Summarizes self.now list → result ≡ ceiling_of list }
    {
        self.ceiling
    }

    /// The object's last name, None where it has none or the empty one.
    pub fn name(&self, pnode: Pnode) -> Result<Option<Text>, AllocError>
        ensures { IfOk result (λ name. (list : List Record) → Summarizes self.now list → name ≡ name_in (last_name_of list pnode)) }
    {
        match self.names.get(&pnode.0) {
            Some(name) => unless_empty(name),
            None => Ok(None),
        }
    }

    /// The first reason for which the record may not stand after the list.
    pub fn flaw(&self, one: &Record) -> Option<FlawReason>
        ensures { (list : List Record) → Summarizes self.now list → result ≡ flaw_of list one.now }
    {
        match one {
            Record::Object { pnode, kind } => self.object_flaw(*pnode, *kind),
            Record::Name { pnode, name } => self.name_flaw(*pnode, name),
            Record::Attr { node, .. } => self.attr_flaw(*node),
            Record::Input { target, source } => self.input_flaw(*target, *source),
            Record::Version { node } => self.version_flaw(*node),
            Record::Size { pnode, .. } => self.size_flaw(*pnode),
            Record::Digest { pnode, block, .. } => self.digest_flaw(*pnode, *block),
            Record::Ceiling { pnode } => self.ceiling_flaw(*pnode),
        }
    }

    /// The file that has the name now; none has the empty one.
    pub fn holder(&self, name: &[u8]) -> Option<Pnode>
        ensures named { (list : List Record) → Summarizes self.now list
            → IfSome result (λ p. (1 ≤ length name.now) × (last_name_of list p ≡ name.now)) }
        ensures alone { (list : List Record) → Summarizes self.now list
            → 1 ≤ length name.now → (p : ℕ) → last_name_of list p ≡ name.now → result ≡ Some p }
    {
        if name.is_empty() {
            return None;
        }
        let last = *self.holders.get(name)?;
        if self.has_name(last, name) {
            Some(Pnode(last))
        } else {
            None
        }
    }

    fn has_name(&self, object: u64, name: &[u8]) -> bool
        ensures { (list : List Record) → Summarizes self.now list
            → result ≡ bytes_eq (last_name_of list object) name.now }
    {
        match self.names.get(&object) {
            Some(own) => own.as_bytes() == name,
            None => name.is_empty(),
        }
    }

    // Whether a file other than this one has the name.
    fn is_other(&self, pnode: Pnode, name: &[u8]) -> bool
        ensures { (list : List Record) → Summarizes self.now list
            → result ≡ (nat_lt 0 (length name.now) && list_any (names_other list pnode name.now) list) }
    {
        match self.holder(name) {
            Some(holder) => holder != pnode,
            None => false,
        }
    }

    fn name_flaw(&self, pnode: Pnode, name: &Text) -> Option<FlawReason>
        ensures { (list : List Record) → Summarizes self.now list → result ≡ flaw_of list (log.Name pnode name.now) }
    {
        if !self.is_known(pnode) {
            Some(FlawReason::Unknown)
        } else if !self.is_file(pnode) {
            Some(FlawReason::Kind)
        } else if self.is_other(pnode, name.as_bytes()) {
            Some(FlawReason::Name)
        } else {
            None
        }
    }

    fn is_known(&self, pnode: Pnode) -> bool
        ensures { (list : List Record) → Summarizes self.now list → result ≡ is_known list pnode }
    {
        self.object(pnode).is_some()
    }

    fn is_file(&self, pnode: Pnode) -> bool
        ensures { (list : List Record) → Summarizes self.now list → result ≡ is_file_of list pnode }
    {
        match self.object(pnode) {
            Some(told) => match told.kind {
                Kind::File => true,
                Kind::Process | Kind::Pipe | Kind::App => false,
            },
            None => false,
        }
    }

    /// The current version, 1 for an object that the list doesn't have.
    pub fn version(&self, pnode: Pnode) -> u64
        ensures { (list : List Record) → Summarizes self.now list → result ≡ current_of list pnode }
    {
        match self.object(pnode) {
            Some(told) => told.version,
            None => 1,
        }
    }

    fn is_current(&self, node: Node) -> bool
        ensures { (list : List Record) → Summarizes self.now list → result ≡ is_current list node }
    {
        node.version == self.version(node.pnode)
    }

    // The size, 0 for an object that the list doesn't have.
    fn size(&self, pnode: Pnode) -> u64
        ensures { (list : List Record) → Summarizes self.now list → result ≡ size_of list pnode }
    {
        match self.object(pnode) {
            Some(told) => told.size,
            None => 0,
        }
    }

    // There are as many objects of the kind as there may be.
    fn is_full(&self, kind: Kind) -> bool
        ensures { (list : List Record) → Summarizes self.now list
            → result ≡ (is_limited kind && nat_le kind_limit (count_by (has_kind kind) list)) }
    {
        match kind {
            Kind::File => self.files >= KIND_LIMIT,
            Kind::App => self.apps >= KIND_LIMIT,
            Kind::Process | Kind::Pipe => false,
        }
    }

    fn object_flaw(&self, pnode: Pnode, kind: Kind) -> Option<FlawReason>
        ensures { (list : List Record) → Summarizes self.now list → result ≡ flaw_of list (log.Object pnode kind) }
    {
        if self.is_known(pnode) {
            Some(FlawReason::Known)
        } else if pnode.0 > self.ceiling {
            Some(FlawReason::Ceiling)
        } else if self.is_full(kind) {
            Some(FlawReason::Many)
        } else {
            None
        }
    }

    fn attr_flaw(&self, node: Node) -> Option<FlawReason>
        ensures { (list : List Record) (attr value : List ℕ) → Summarizes self.now list → result ≡ flaw_of list (log.Attr node attr value) }
    {
        if !self.is_known(node.pnode) {
            Some(FlawReason::Unknown)
        } else if !self.is_current(node) {
            Some(FlawReason::Version)
        } else {
            None
        }
    }

    // Whether the list doesn't have the object, or the object hasn't come to the version.
    fn is_to_come(&self, node: Node) -> bool
        ensures { (list : List Record) → Summarizes self.now list
            → result ≡ (not (is_known list node.pnode) || nat_lt (current_of list node.pnode) node.version) }
    {
        match self.object(node.pnode) {
            Some(told) => told.version < node.version,
            None => true,
        }
    }

    // Whether an input from the source has the target as a source already, or as its own.
    fn is_source(&self, target: &Node, source: &Node) -> bool
        ensures { (list : List Record) → Summarizes self.now list
            → result ≡ (list_any (has_source target.now) list || same_node target.now source.now) }
    {
        self.sources.contains(target) || target == source
    }

    fn has_input(&self, target: Node, source: Node) -> bool
        ensures { (list : List Record) → Summarizes self.now list → result ≡ list_any (is_input target source) list }
    {
        self.inputs.contains(&(target, source))
    }

    fn input_flaw(&self, target: Node, source: Node) -> Option<FlawReason>
        ensures { (list : List Record) → Summarizes self.now list → result ≡ flaw_of list (log.Input target source) }
    {
        if !self.is_known(target.pnode) {
            Some(FlawReason::Unknown)
        } else if self.is_to_come(source) {
            Some(FlawReason::Unknown)
        } else if !self.is_current(target) {
            Some(FlawReason::Version)
        } else if self.is_source(&target, &source) {
            Some(FlawReason::Source)
        } else if self.has_input(target, source) {
            Some(FlawReason::Repeat)
        } else {
            None
        }
    }

    fn version_flaw(&self, node: Node) -> Option<FlawReason>
        ensures { (list : List Record) → Summarizes self.now list → result ≡ flaw_of list (log.Version node) }
    {
        if !self.is_known(node.pnode) {
            Some(FlawReason::Unknown)
        } else if node.version == 0 || node.version - 1 != self.version(node.pnode) {
            Some(FlawReason::Version)
        } else {
            None
        }
    }

    fn size_flaw(&self, pnode: Pnode) -> Option<FlawReason>
        ensures { (list : List Record) (size : ℕ) → Summarizes self.now list → result ≡ flaw_of list (log.Size pnode size) }
    {
        if !self.is_known(pnode) {
            Some(FlawReason::Unknown)
        } else if !self.is_file(pnode) {
            Some(FlawReason::Kind)
        } else {
            None
        }
    }

    fn digest_flaw(&self, pnode: Pnode, block: u32) -> Option<FlawReason>
        ensures { (list : List Record) (md5 : List ℕ) → Summarizes self.now list → result ≡ flaw_of list (log.Digest pnode block md5) }
    {
        if !self.is_known(pnode) {
            Some(FlawReason::Unknown)
        } else if !self.is_file(pnode) {
            Some(FlawReason::Kind)
        } else if self.size(pnode) <= u64::from(block) * BLOCK_SIZE {
            Some(FlawReason::Block)
        } else {
            None
        }
    }

    fn ceiling_flaw(&self, pnode: Pnode) -> Option<FlawReason>
        ensures { (list : List Record) → Summarizes self.now list → result ≡ flaw_of list (log.Ceiling pnode) }
    {
        if pnode.0 <= self.ceiling || pnode.0 - self.ceiling > CEILING_STEP {
            Some(FlawReason::Ceiling)
        } else {
            None
        }
    }

    /// Takes a record that has no flaw after the list. Where memory is refused, the tables still tell what the list says.
    pub fn add(&mut self, one: &Record) -> Result<(), AllocError>
        ensures ok { OnOk result ((list : List Record) → Summarizes self.old list → flaw_of list one.now ≡ None
            → Summarizes self.new (list ++ one.now ∷ [])) }
        ensures err { OnErr result ((list : List Record) → Summarizes self.old list → flaw_of list one.now ≡ None
            → Summarizes self.new list) }
    {
        match one {
            Record::Object { pnode, kind } => self.add_object(pnode.0, *kind),
            Record::Name { pnode, name } => self.add_name(pnode.0, name),
            Record::Input { target, source } => self.add_input(target, source),
            Record::Version { node } => {
                self.add_version(*node);
                Ok(())
            }
            Record::Size { pnode, size } => {
                self.add_size(*pnode, *size);
                Ok(())
            }
            Record::Ceiling { pnode } => {
                self.add_ceiling(*pnode);
                Ok(())
            }
            Record::Attr { .. } | Record::Digest { .. } => Ok(()),
        }
    }

    fn add_object(&mut self, pnode: u64, kind: Kind) -> Result<(), AllocError>
        ensures ok { OnOk result ((list : List Record) → Summarizes self.old list → flaw_of list (log.Object pnode kind) ≡ None
            → Summarizes self.new (list ++ log.Object pnode kind ∷ [])) }
        ensures err { OnErr result ((list : List Record) → Summarizes self.old list → Summarizes self.new list) }
    {
        let new = Told {
            kind,
            version: 1,
            size: 0,
        };
        self.objects.insert(pnode, new)?;
        match kind {
            Kind::File => self.files = self.files.saturating_add(1),
            Kind::App => self.apps = self.apps.saturating_add(1),
            Kind::Process | Kind::Pipe => {}
        }
        Ok(())
    }

    fn add_version(&mut self, node: Node)
        ensures { (list : List Record) → Summarizes self.old list → flaw_of list (log.Version node) ≡ None
            → Summarizes self.new (list ++ log.Version node ∷ []) }
    {
        if let Some(told) = self.objects.get_mut(&node.pnode.0) {
            told.version = node.version;
        }
    }

    fn add_size(&mut self, pnode: Pnode, size: u64)
        ensures { (list : List Record) → Summarizes self.old list → flaw_of list (log.Size pnode size) ≡ None
            → Summarizes self.new (list ++ log.Size pnode size ∷ []) }
    {
        if let Some(told) = self.objects.get_mut(&pnode.0) {
            told.size = size;
        }
    }

    fn add_ceiling(&mut self, pnode: Pnode)
        ensures { (list : List Record) → Summarizes self.old list → flaw_of list (log.Ceiling pnode) ≡ None
            → Summarizes self.new (list ++ log.Ceiling pnode ∷ []) }
    {
        self.ceiling = pnode.0;
    }

    fn add_name(&mut self, pnode: u64, name: &Text) -> Result<(), AllocError>
        ensures ok { OnOk result ((list : List Record) → Summarizes self.old list → flaw_of list (log.Name pnode name.now) ≡ None
            → Summarizes self.new (list ++ log.Name pnode name.now ∷ [])) }
        ensures err { OnErr result ((list : List Record) → Summarizes self.old list → flaw_of list (log.Name pnode name.now) ≡ None
            → Summarizes self.new list) }
    {
        let key = Vec::from_slice(self.alloc, name.as_bytes())?;
        let own = name.clone()?;
        self.holders.insert(key, pnode)?;
        self.names.insert(pnode, own)?;
        Ok(())
    }

    fn add_input(&mut self, target: &Node, source: &Node) -> Result<(), AllocError>
        ensures ok { OnOk result ((list : List Record) → Summarizes self.old list → flaw_of list (log.Input target.now source.now) ≡ None
            → Summarizes self.new (list ++ log.Input target.now source.now ∷ [])) }
        ensures err { OnErr result ((list : List Record) → Summarizes self.old list → Summarizes self.new list) }
    {
        self.sources.reserve(1)?;
        self.inputs.insert((*target, *source))?;
        let _ = self.sources.insert(*source);
        Ok(())
    }
}

// The name, None where it is empty.
fn unless_empty(name: &Text) -> Result<Option<Text>, AllocError>
    ensures { IfOk result (λ own. own ≡ name_in name.now) }
{
    if name.as_bytes().is_empty() {
        return Ok(None);
    }
    Ok(Some(name.clone()?))
}
