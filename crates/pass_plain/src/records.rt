//! The records of a history, entry by entry.
ghost use Rattle.std.specs.Prelude.{◌≡◌, ◌++◌, ◌∷◌, [], List, IfOk, OnOk, codes, bytes_eq};
ghost use Rattle.pass_entry.specs.Texts.{IsLine};
ghost use Rattle.pass_entry.specs.declared.entry.Entry.{Entry as AnyEntry};
ghost use Rattle.pass_entry.specs.declared.objects.Kind.TheVariants as kind_of;
ghost use Rattle.pass_entry.specs.declared.record.Record.TheVariants as log;
ghost use Rattle.pass_plain.specs.Histories.{is_fault as is_fault_of};
ghost use Rattle.pass_plain.specs.declared.start.Start.{Start as AnyStart};
ghost use Rattle.pass_plain.specs.Legal.{session_of};
ghost use Rattle.pass_plain.specs.Registries.{registry_after};
ghost use Rattle.pass_plain.specs.Records.{file_named as file_named_of, move_records, args_records, entry_records};
ghost use Rattle.pass_plain.specs.Versions.{nodes_of};
ghost use Rattle.pass_plain.specs.Recording.{is_change as is_change_of, version_record, input_record, step_records, plain_records, AreKept, IsVersionStep, IsRecording};

use crate::contents::{Content, change_file};
use crate::names::Names;
use crate::nodes::VersionStep;
use crate::registry::{RegistryState, is_fault};
use crate::start::Start;
use crate::steps::pnode_of;
use pass_entry::{Act, Entry, Kind, Node, Pnode, Record, Text};
use std::alloc::{AllocError, Global};
use std::collections::BTreeMap;

/// The records of the first entries of a history, in order, and what it takes to go on: the registry, and the content of each
/// file that they changed. Whoever knows what each next entry makes of its object's version notes it.
#[derive(Drop)]
pub struct Recording {
    registry: RegistryState,
    /// The changed files by number.
    pub files: BTreeMap<u64, Content>,
    pub list: Vec<Record>,
}

fn line(alloc: Global, bytes: &[u8]) -> Result<Text, AllocError>
    requires { IsLine bytes.now }
    ensures { IfOk result (λ t. t ≡ bytes.now) }
{
    match Text::line(alloc, bytes) {
        Ok(text) => Ok(text),
        Err(_) => Err(AllocError),
    }
}

fn file_named(names: &Names, name: &Text) -> Pnode
    ensures { result ≡ file_named_of names.now name.now }
{
    match names.get(name) {
        Some(file) => file,
        None => Pnode(0),
    }
}

fn is_same_text(a: &Text, b: &Text) -> bool
    ensures { result ≡ bytes_eq a.now b.now }
{
    a.as_bytes() == b.as_bytes()
}

/// A file loses its name.
fn add_no_name(alloc: Global, list: &mut Vec<Record>, pnode: Pnode) -> Result<(), AllocError>
    ensures { OnOk result (list.new.items ≡ list.old.items ++ log.Name pnode [] ∷ []) }
{
    let name = line(alloc, &[])?;
    list.push(Record::Name { pnode, name })?;
    Ok(())
}

/// A file gets a name.
fn add_name(list: &mut Vec<Record>, pnode: Pnode, name: &Text) -> Result<(), AllocError>
    ensures { OnOk result (list.new.items ≡ list.old.items ++ log.Name pnode name.now ∷ []) }
{
    let name = name.clone()?;
    list.push(Record::Name { pnode, name })?;
    Ok(())
}

fn add_object(list: &mut Vec<Record>, pnode: Pnode, kind: Kind) -> Result<(), AllocError>
    ensures { OnOk result (list.new.items ≡ list.old.items ++ log.Object pnode kind ∷ []) }
{
    list.push(Record::Object { pnode, kind })?;
    Ok(())
}

/// A new file and its name.
fn add_file(list: &mut Vec<Record>, pnode: Pnode, name: &Text) -> Result<(), AllocError>
    ensures { OnOk result (list.new.items ≡ list.old.items ++ log.Object pnode kind_of.File ∷ log.Name pnode name.now ∷ []) }
{
    add_object(list, pnode, Kind::File)?;
    add_name(list, pnode, name)
}

fn add_attr(list: &mut Vec<Record>, node: Node, attr: &Text, value: &Text) -> Result<(), AllocError>
    ensures { OnOk result (list.new.items ≡ list.old.items ++ log.Attr node attr.now value.now ∷ []) }
{
    let attr = attr.clone()?;
    let value = value.clone()?;
    list.push(Record::Attr { node, attr, value })?;
    Ok(())
}

/// A file gets another name, which the file that has it loses.
fn add_move(
    alloc: Global,
    list: &mut Vec<Record>,
    names: &Names,
    from: &Text,
    to: &Text,
) -> Result<(), AllocError>
    ensures { OnOk result (list.new.items ≡ list.old.items ++ move_records names.now from.now to.now) }
{
    if is_same_text(from, to) {
        return Ok(());
    }
    if let Some(file) = names.get(to) {
        add_no_name(alloc, list, file)?;
    }
    add_name(list, file_named(names, from), to)
}

/// The new version that an entry begins.
fn add_version(list: &mut Vec<Record>, step: &VersionStep) -> Result<(), AllocError>
    ensures { OnOk result (list.new.items ≡ list.old.items ++ version_record step.now) }
{
    if step.freezes {
        list.push(Record::Version { node: step.node })?;
    }
    Ok(())
}

/// The new edge of an entry.
fn add_input(list: &mut Vec<Record>, step: &VersionStep) -> Result<(), AllocError>
    ensures { OnOk result (list.new.items ≡ list.old.items ++ input_record step.now) }
{
    if let Some(source) = step.source {
        list.push(Record::Input {
            target: step.node,
            source,
        })?;
    }
    Ok(())
}

fn add_versions(list: &mut Vec<Record>, step: &VersionStep) -> Result<(), AllocError>
    ensures { OnOk result (list.new.items ≡ list.old.items ++ step_records step.now) }
{
    add_version(list, step)?;
    add_input(list, step)
}

/// The program that a process runs.
fn add_program(
    alloc: Global,
    list: &mut Vec<Record>,
    node: Node,
    name: &Text,
) -> Result<(), AllocError>
    ensures { OnOk result (list.new.items ≡ list.old.items ++ log.Attr node (codes "EXE") name.now ∷ []) }
{
    let attr = line(alloc, "EXE".as_bytes())?;
    add_attr(list, node, &attr, name)
}

/// The arguments of the program, where there are some.
fn add_args(
    alloc: Global,
    list: &mut Vec<Record>,
    node: Node,
    args: &Text,
) -> Result<(), AllocError>
    ensures { OnOk result (list.new.items ≡ list.old.items ++ args_records node args.now) }
{
    if args.as_bytes().is_empty() {
        return Ok(());
    }
    let attr = line(alloc, "ARGV".as_bytes())?;
    add_attr(list, node, &attr, args)
}

/// The records of an entry that is no fault, but for a file's size and digests.
fn add_records(
    alloc: Global,
    list: &mut Vec<Record>,
    names: &Names,
    step: &VersionStep,
    e: &Entry,
) -> Result<(), AllocError>
    ensures { OnOk result (list.new.items ≡ list.old.items ++ plain_records names.now step.now e.now.reply e.now.act) }
{
    match &e.act {
        Act::Bind { name } => add_file(list, pnode_of(&e.reply), name),
        Act::Mint { kind } => add_object(list, pnode_of(&e.reply), *kind),
        Act::Move { from, to } => add_move(alloc, list, names, from, to),
        Act::Unbind { name } => add_no_name(alloc, list, file_named(names, name)),
        Act::Tag { attr, value } => add_attr(list, step.node, attr, value),
        Act::Exec { name, args, .. } => {
            add_versions(list, step)?;
            add_program(alloc, list, step.node, name)?;
            add_args(alloc, list, step.node, args)
        }
        _ => add_versions(list, step),
    }
}

/// The act changes the content of its file.
pub fn is_change(act: &Act) -> bool
    ensures { result ≡ is_change_of act.now }
{
    matches!(act, Act::Put { .. } | Act::Cut { .. })
}

/// The records of the next entry after a history, which changes the files.
fn add_entry(
    alloc: Global,
    files: &mut BTreeMap<u64, Content>,
    list: &mut Vec<Record>,
    names: &Names,
    step: &VersionStep,
    start: &Start,
    history: &[Entry],
    e: &Entry,
) -> Result<(), AllocError>
    requires names { (registry_after (session_of start.now 0) history.now).names ≡ names.now }
    requires step { IsVersionStep start.now history.now (nodes_of (session_of start.now 0) history.now) e.now step.now }
    requires files { AreKept start.now history.now files.old }
    ensures files { OnOk result (AreKept start.now (history.now ++ e.now ∷ []) files.new) }
    ensures list { OnOk result (list.new.items ≡ list.old.items ++ entry_records (session_of start.now 0) history.now e.now) }
{
    if is_fault(&e.reply) {
        return Ok(());
    }
    add_records(alloc, list, names, step, e)?;
    if is_change(&e.act) {
        change_file(alloc, files, list, start, history, e)?;
    }
    Ok(())
}

impl Recording {
    /// Before the first entry.
    pub fn new(alloc: Global, start: &Start) -> Result<Recording, AllocError>
        ensures { IfOk result (IsRecording start.now []) }
    {
        let registry = RegistryState::opened(alloc, start)?;
        Ok(Recording {
            registry,
            files: BTreeMap::new(alloc),
            list: Vec::new(alloc),
        })
    }

    /// Goes on with the entry behind a history, which makes this step of its object's version.
    pub fn note(
        &mut self,
        alloc: Global,
        start: &Start,
        history: &[Entry],
        e: &Entry,
        step: &VersionStep,
    ) -> Result<(), AllocError>
        requires step { IsVersionStep start.now history.now (nodes_of (session_of start.now 0) history.now) e.now step.now }
        requires recording { IsRecording start.now history.now self.old }
        ensures { OnOk result (IsRecording start.now (history.now ++ e.now ∷ []) self.new) }
    {
        let Recording {
            registry,
            files,
            list,
        } = self;
        add_entry(alloc, files, list, &registry.names, step, start, history, e)?;
        registry.follow(e)?;
        Ok(())
    }

    /// The objects of the opening and those that the entries made, in order, with their kinds.
    pub fn objects(&self) -> &[(Pnode, Kind)]
        ensures { (start : AnyStart) (history : List AnyEntry) → IsRecording start history self.now → result.now ≡ (registry_after (session_of start 0) history).objects }
    {
        &self.registry.objects
    }
}
