//! The act by which a living process runs a program.
ghost use Rattle.std.specs.Prelude.{◌≡◌, ◌+◌, ◌-◌, ◌<◌, ◌≤◌, ◌^◌, [], ◌∷◌, ◌++◌, Some, codes, IfOk, OnOk};
ghost use Rattle.std.specs.FinSet as finite_set;
ghost use Rattle.pass_entry.specs.declared.entry.Act.TheVariants as act;
ghost use Rattle.pass_entry.specs.declared.entry.CallName.TheVariants as calls;
ghost use Rattle.pass_entry.specs.declared.entry.Reply.TheVariants as answer;
ghost use Rattle.pass_entry.specs.declared.record.Record.TheVariants as log;
ghost use Rattle.pass_entry.specs.Texts.{IsLine};
ghost use Rattle.pass_plain.specs.Lineages.{IsAlike, frozen, with_source};
ghost use Rattle.pass_plain.specs.Records.{args_records};
ghost use Rattle.pass_plain.specs.Versions.{nodes_of, source_in};
ghost use Rattle.pass_hold.specs.Entering.{MayEnter, Enters};
ghost use Rattle.pass_proc.specs.Acts.{own_entry};
ghost use Rattle.pass_proc.specs.Execs.{exec_view, program_records};

use crate::desk::ProcessDesk;
use pass_entry::{Act, CallName, Entry, Node, Record, Reply, Text};
use pass_hold::{Caller, Shelf, Whose, slip_of};
use pass_version::{Taken, Versions};
use std::alloc::{AllocError, Global};
use std::marker::Model;

/// What an exec takes before its first entry: the name and the arguments of its program, and the records of these.
#[derive(Drop)]
pub struct ExecRoom {
    name: Text,
    args: Text,
    records: Vec<Record>,
}

impl Model for ExecRoom {
    ghost use Rattle.pass_proc.specs.Execs.{ExecView};

    ghost Value = { ExecView };

    ghost view = { λ r. record { name = r.name; args = r.args; records = r.records.items } };
}

fn line(alloc: Global, bytes: &[u8]) -> Result<Text, AllocError>
    requires { IsLine bytes.now }
    ensures { IfOk result (λ t. t ≡ bytes.now) }
{
    match Text::line(alloc, bytes) {
        Ok(text) => Ok(text),
        Err(_) => Err(AllocError),
    }
}

fn add_attribute(
    list: &mut Vec<Record>,
    node: &Node,
    attr: Text,
    value: &Text,
) -> Result<(), AllocError>
    ensures { OnOk result (list.new.items ≡ list.old.items ++ log.Attr node.now attr value.now ∷ []) }
{
    let value = value.clone()?;
    list.push(Record::Attr {
        node: *node,
        attr,
        value,
    })?;
    Ok(())
}

/// The program that a version runs.
fn add_program(
    alloc: Global,
    list: &mut Vec<Record>,
    node: &Node,
    name: &Text,
) -> Result<(), AllocError>
    ensures { OnOk result (list.new.items ≡ list.old.items ++ log.Attr node.now (codes "EXE") name.now ∷ []) }
{
    let attr = line(alloc, "EXE".as_bytes())?;
    add_attribute(list, node, attr, name)
}

/// The arguments of the program, where there are some.
fn add_args(
    alloc: Global,
    list: &mut Vec<Record>,
    node: &Node,
    args: &Text,
) -> Result<(), AllocError>
    ensures { OnOk result (list.new.items ≡ list.old.items ++ args_records node.now args.now) }
{
    if args.as_bytes().is_empty() {
        return Ok(());
    }
    let attr = line(alloc, "ARGV".as_bytes())?;
    add_attribute(list, node, attr, args)
}

/// A version begins, which takes from a source.
fn begin_version(versions: &mut Versions, source: &Node)
    requires version { versions.old.lineage.node.version < 2 ^ 62 }
    requires room { 1 ≤ versions.old.spare }
    ensures lineage { IsAlike versions.new.lineage (with_source (frozen versions.old.lineage) source.now) }
    ensures spare { versions.new.spare ≡ versions.old.spare - 1 }
{
    versions.freeze();
    let _ = versions.take(*source);
}

impl<J: Whose> ProcessDesk<J> {
    /// What an exec of this program by the process takes before its first entry.
    pub fn exec_room(&self, alloc: Global, name: &Text, args: &Text) -> Result<ExecRoom, AllocError>
        ensures { IfOk result (λ r. r ≡ exec_view (frozen self.now.lineage).node name.now args.now) }
    {
        let node = self.next_node();
        let mut records = Vec::new(alloc);
        add_program(alloc, &mut records, &node, name)?;
        add_args(alloc, &mut records, &node, args)?;
        let name = name.clone()?;
        let args = args.clone()?;
        Ok(ExecRoom {
            name,
            args,
            records,
        })
    }

    /// The version that its next freeze begins.
    fn next_node(&self) -> Node
        ensures { result ≡ (frozen self.now.lineage).node }
    {
        let _ = self.desk.seen();
        let node = self.versions.current();
        Node {
            pnode: node.pnode,
            version: node.version + 1,
        }
    }

    /// Runs a program: begins a version, which takes from the program's file, and has read no bytes. Room for the source was reserved.
    pub fn exec(
        &mut self,
        shelf: &mut Shelf<J>,
        caller: &mut Caller<J>,
        room: ExecRoom,
        number: u64,
        out: u64,
        source: &Node,
    )
        requires records { room.records ≡ program_records (frozen self.old.lineage).node room.name room.args }
        requires room { finite_set.len self.old.state.children < self.old.spare }
        requires place { 0 < caller.old.held }
        requires who { caller.old.who ≡ self.old.who }
        requires entry { MayEnter caller.old.seen (own_entry self.old.who number calls.Exec (act.Exec out room.name room.args) answer.Done) 0 }
        requires source { source_in (nodes_of J.book.session caller.old.seen) (own_entry self.old.who number calls.Exec (act.Exec out room.name room.args) answer.Done) ≡ Some source.now }
        ensures entry { Enters J.book.session caller.old caller.new self.old.seen (own_entry self.old.who number calls.Exec (act.Exec out room.name room.args) answer.Done) 0 }
        ensures lineage { IsAlike self.new.lineage (with_source (frozen self.old.lineage) source.now) }
        ensures state { self.new ≡ record self.old { seen = caller.new.seen; state = record self.old.state { last_read = [] }; lineage = self.new.lineage; spare = self.old.spare - 1 } }
    {
        let _ = self.desk.seen();
        let ExecRoom {
            name,
            args,
            records,
        } = room;
        let entry = Entry {
            who: self.who,
            number,
            call: CallName::Exec,
            what: self.who,
            act: Act::Exec { out, name, args },
            reply: Reply::Done,
        };
        self.holdings.apply(&entry.act, None);
        begin_version(&mut self.versions, source);
        let node = self.versions.current();
        let slip = slip_of(Taken::FrozenAndLinked, &node, source, records);
        caller.enter(shelf, &mut self.desk, slip, entry, 0);
    }
}
