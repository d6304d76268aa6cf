//! What the records tell of nodes, in tables.
ghost use Rattle.std.specs.Prelude.{◌≡◌, ℕ, [], Some, IfOk, OnOk, nat_eq, option_map, if◌then◌else◌};
ghost use Rattle.std.specs.HashMap.{get};
ghost use Rattle.pass_entry.specs.declared.objects.Node.{Node};
ghost use Rattle.pass_plain.specs.Versions.{same_node};
ghost use Rattle.pass_plain.specs.WellLogged.{kind_look, kind_of};
ghost use Rattle.pass_files.specs.Data.{version_before};
ghost use Rattle.pass_files.specs.Told.{named, naming_look, naming_of, ran_look, ran_of, ran_with, with_arguments};

use pass_entry::{Kind, Node, Record, Text};
use std::alloc::{AllocError, Global};
use std::collections::HashMap;

/// The last name that an object was given.
#[derive(Drop)]
pub struct Naming {
    pub name: Text,
    /// Whether a record took the name away since.
    pub lost: bool,
}

/// What a process ran.
#[derive(Drop)]
pub struct Ran {
    /// The name of the program.
    pub program: Text,
    pub arguments: Option<Text>,
}

/// The kind of each object.
pub(crate) fn kinds_of(alloc: Global, records: &[Record]) -> Result<HashMap<u64, Kind>, AllocError>
    ensures { IfOk result (λ kinds. (o : ℕ) → get nat_eq kinds o ≡ kind_of records.now o) }
{
    let mut kinds = HashMap::new(alloc);
    for one in records {
        note_kind(&mut kinds, one)?;
    }
    Ok(kinds)
}

#[tactic(auto, using(crate::proofs::Rows::no_kind))]
fn note_kind(kinds: &mut HashMap<u64, Kind>, one: &Record) -> Result<(), AllocError>
    ensures { OnOk result ((o : ℕ) → get nat_eq kinds.new o ≡ kind_look o (get nat_eq kinds.old o) one.now) }
{
    if let Record::Object { pnode, kind } = one {
        kinds.insert(pnode.0, *kind)?;
    }
    Ok(())
}

/// The last name of each object that was given one.
pub(crate) fn names_of(
    alloc: Global,
    records: &[Record],
) -> Result<HashMap<u64, Naming>, AllocError>
    ensures { IfOk result (λ names. (o : ℕ) → get nat_eq names o ≡ naming_of records.now o) }
{
    let mut names = HashMap::new(alloc);
    for one in records {
        note_name(&mut names, one)?;
    }
    Ok(names)
}

#[tactic(auto, using(crate::proofs::Rows::row_made, crate::proofs::Rows::put_over, crate::proofs::Rows::no_name))]
fn note_name(names: &mut HashMap<u64, Naming>, one: &Record) -> Result<(), AllocError>
    ensures { OnOk result ((o : ℕ) → get nat_eq names.new o ≡ naming_look o (get nat_eq names.old o) one.now) }
{
    if let Record::Name { pnode, name } = one {
        let last = names.remove(&pnode.0);
        if let Some(naming) = named(last, name)? {
            names.insert(pnode.0, naming)?;
        }
    }
    Ok(())
}

// The last name of an object that is given this one; the empty one takes the last one away.
fn named(last: Option<Naming>, name: &Text) -> Result<Option<Naming>, AllocError>
    ensures { IfOk result (λ naming. naming ≡ named last name.now) }
{
    if name.as_bytes().is_empty() {
        return Ok(lost(last));
    }
    Ok(Some(Naming {
        name: name.clone()?,
        lost: false,
    }))
}

fn lost(last: Option<Naming>) -> Option<Naming>
    ensures { result ≡ named last [] }
{
    let Naming { name, .. } = last?;
    Some(Naming { name, lost: true })
}

/// What ran at each version of a process, where that is known.
pub(crate) fn runs_of(alloc: Global, records: &[Record]) -> Result<HashMap<Node, Ran>, AllocError>
    ensures { IfOk result (λ runs. (n : Node) → get same_node runs n ≡ ran_of records.now n) }
{
    let mut runs = HashMap::new(alloc);
    for one in records {
        note_run(&mut runs, one)?;
    }
    Ok(runs)
}

#[tactic(auto, using(crate::proofs::Rows::node_row_made, crate::proofs::Rows::no_run))]
fn note_run(runs: &mut HashMap<Node, Ran>, one: &Record) -> Result<(), AllocError>
    ensures { OnOk result ((n : Node) → get same_node runs.new n ≡ ran_look (λ m. get same_node runs.old m) one.now n) }
{
    match one {
        Record::Version { node } => {
            let ran = ran_at(runs, &version_before(node))?;
            put(runs, *node, ran)
        }
        Record::Attr { node, attr, value } => {
            let ran = ran_with(ran_at(runs, node)?, attr.as_bytes(), value)?;
            put(runs, *node, ran)
        }
        _ => Ok(()),
    }
}

/// The version of the object before this one.
pub(crate) fn version_before(node: &Node) -> Node
    ensures { result ≡ version_before node.now }
{
    Node {
        pnode: node.pnode,
        version: node.version.saturating_sub(1),
    }
}

/// What ran at the version.
pub(crate) fn ran_at(runs: &HashMap<Node, Ran>, node: &Node) -> Result<Option<Ran>, AllocError>
    ensures { IfOk result (λ ran. ran ≡ get same_node runs.now node.now) }
{
    match runs.get(node) {
        Some(ran) => Ok(Some(copy_of(ran)?)),
        None => Ok(None),
    }
}

// A copy, which shares the texts' bytes.
fn copy_of(ran: &Ran) -> Result<Ran, AllocError>
    ensures { IfOk result (λ copy. copy ≡ ran.now) }
{
    let program = ran.program.clone()?;
    match &ran.arguments {
        Some(arguments) => Ok(Ran {
            program,
            arguments: Some(arguments.clone()?),
        }),
        None => Ok(Ran {
            program,
            arguments: None,
        }),
    }
}

fn put(runs: &mut HashMap<Node, Ran>, node: Node, ran: Option<Ran>) -> Result<(), AllocError>
    ensures { OnOk result ((n : Node) → get same_node runs.new n ≡ (if same_node node n then ran else get same_node runs.old n)) }
{
    match ran {
        Some(ran) => {
            runs.insert(node, ran)?;
        }
        None => {
            let _none = runs.remove(&node);
        }
    }
    Ok(())
}

// What ran, with an attribute that an exec gives.
fn ran_with(ran: Option<Ran>, attr: &[u8], value: &Text) -> Result<Option<Ran>, AllocError>
    ensures { IfOk result (λ r. r ≡ ran_with ran attr.now value.now) }
{
    if attr == b"EXE".as_slice() {
        return Ok(Some(Ran {
            program: value.clone()?,
            arguments: None,
        }));
    }
    if attr == b"ARGV".as_slice() {
        return with_arguments(ran, value);
    }
    Ok(ran)
}

fn with_arguments(ran: Option<Ran>, value: &Text) -> Result<Option<Ran>, AllocError>
    ensures { IfOk result (λ r. r ≡ option_map (with_arguments value.now) ran) }
{
    match ran {
        Some(Ran { program, .. }) => Ok(Some(Ran {
            program,
            arguments: Some(value.clone()?),
        })),
        None => Ok(None),
    }
}
