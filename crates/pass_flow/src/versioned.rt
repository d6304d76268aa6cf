//! What files, pipes and app objects have in common.
ghost use Rattle.std.specs.Prelude.{◌≡◌};

use pass_entry::{Entry, Node, Pnode, Record};
use pass_hold::{Caller, Shelf, Whose};
use std::alloc::AllocError;

/// An object with versions that is no process, as it lies under its lock: what it holds and its version are those of the definitions
/// after what was seen of it.
///
/// A kind of object says how an act that leaves its content is entered (`enter_flow`); the acts themselves stand in [`crate::acts`].
/// The trait is small, since each call at a concrete type pays for all of it.
pub trait Versioned<J: Whose> {
    ghost use Rattle.std.specs.Prelude.{◌≡◌, ◌+◌, ◌≤◌, true, is_some, IfSome, OnOk};
    ghost use Rattle.pass_entry.specs.declared.entry.Reply.TheVariants as answer;
    ghost use Rattle.pass_plain.specs.Versions.{is_in, nodes_of, source_in};
    ghost use Rattle.pass_hold.specs.Places.{HasRoom};
    ghost use Rattle.pass_hold.specs.Entering.{MayEnter, Enters, IsAt};
    ghost use Rattle.pass_flow.specs.Entering.{current_node, rest_records, spare_after};
    ghost use Rattle.pass_flow.specs.Flows.{ObjectView, is_flow_act};

    /// What contracts see of it.
    ghost object: { Self → ObjectView };

    /// Its number.
    fn what(&self) -> Pnode
        ensures { result ≡ (object self.now).what };

    /// Its current version.
    fn current(&self) -> Node
        ensures { result ≡ current_node J.book.session (object self.now).seen (object self.now).what };

    /// Makes room for one source.
    fn reserve_source(&mut self) -> Result<(), AllocError>
        ensures room { OnOk result (1 ≤ (object self.new).spare) }
        ensures same { object self.new ≡ record (object self.old) { spare = (object self.new).spare } };

    /// Makes an entry that leaves what the object holds, and answers its place and the object's node there.
    fn enter_flow(
        &mut self,
        shelf: &mut Shelf<J>,
        caller: &mut Caller<J>,
        entry: Entry,
        source: Option<Node>,
        rest: Vec<Record>,
        keep: u32,
    ) -> (u64, Node)
        requires act { is_flow_act entry.act ≡ true }
        requires done { entry.reply ≡ answer.Done }
        requires what { entry.what ≡ (object self.old).what }
        requires who { caller.old.who ≡ entry.who }
        requires place { HasRoom shelf.old caller.old.held (keep + 1) }
        requires entry { MayEnter caller.old.seen entry keep }
        requires source { source_in (nodes_of J.book.session caller.old.seen) entry ≡ source }
        requires given { is_in entry ≡ is_some source }
        requires spare { IfSome source (λ s. 1 ≤ (object self.old).spare) }
        requires rest { rest.items ≡ rest_records J.book.session (object self.old).seen entry }
        ensures entry { Enters J.book.session caller.old caller.new (object self.old).seen entry keep }
        ensures at { IsAt J.book.session caller.new.seen result }
        ensures state { object self.new ≡ record (object self.old) { seen = caller.new.seen; syncs = caller.new.syncs; spare = spare_after source (object self.old).spare } };
}
