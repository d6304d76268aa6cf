//! What a tag needs before its entry is made.
ghost use Rattle.std.specs.Prelude.{◌≡◌, ◌≤◌, [], ◌∷◌, IfOk, length, vec_capacity};
ghost use Rattle.pass_entry.specs.declared.entry.Act.TheVariants as act;
ghost use Rattle.pass_entry.specs.declared.record.Record.TheVariants as log;

use pass_entry::{Act, Node, Record, Text};
use std::alloc::{AllocError, Global};
use std::marker::Model;

/// An attribute and its value, for the entry of a tag and for its record, and room for that record.
#[derive(Drop)]
pub struct TagRoom {
    attr: Text,
    value: Text,
    record_attr: Text,
    record_value: Text,
    list: Vec<Record>,
}

impl Model for TagRoom {
    ghost use Rattle.std.specs.Prelude.{◌≡◌, ◌≤◌, [], vec_capacity};
    ghost use Rattle.pass_flow.specs.Tags.{TagView};

    ghost Value = { TagView };

    ghost view = { λ t. record { attr = t.attr; value = t.value } };

    ghost invariant = { λ t. (t.record_attr ≡ t.attr) × (t.record_value ≡ t.value) × (t.list.items ≡ []) × (1 ≤ vec_capacity t.list) };
}

impl TagRoom {
    /// Room for a tag.
    pub fn of(alloc: Global, attr: &Text, value: &Text) -> Result<TagRoom, AllocError>
        ensures { IfOk result (λ t. t ≡ record { attr = attr.now; value = value.now }) }
    {
        Ok(TagRoom {
            attr: attr.clone()?,
            value: value.clone()?,
            record_attr: attr.clone()?,
            record_value: value.clone()?,
            list: Vec::with_capacity(alloc, 1)?,
        })
    }

    /// The act, and its record at this node.
    pub(crate) fn made(self, node: &Node) -> (Act, Vec<Record>)
        ensures act { result.0 ≡ act.Tag self.attr self.value }
        ensures list { result.1.items ≡ log.Attr node.now self.attr self.value ∷ [] }
    {
        let TagRoom {
            attr,
            value,
            record_attr,
            record_value,
            mut list,
        } = self;
        list.push_reserved(Record::Attr {
            node: *node,
            attr: record_attr,
            value: record_value,
        });
        (Act::Tag { attr, value }, list)
    }
}
