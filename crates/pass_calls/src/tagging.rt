//! The call `pass_tag`.
ghost use Rattle.std.specs.Prelude.{◌≡◌, ◌<◌, None, Some, true};
ghost use Rattle.std.specs.FinMap as finite_map;
ghost use Rattle.pass_entry.specs.Texts.{is_name};
ghost use Rattle.pass_entry.specs.declared.entry.Ask.TheVariants as ask;
ghost use Rattle.pass_entry.specs.declared.objects.Descriptor.{Descriptor as AnyDescriptor};
ghost use Rattle.pass_plain.specs.declared.request.Request.TheVariants as requests;
ghost use Rattle.pass_plain.specs.Processes.{refusal};
ghost use Rattle.pass_answer.specs.Answers.{Answers};

use crate::beginning::begin;
use pass_answer::{CallEnd, Moved};
use pass_entry::Text;
use pass_flow::{TagRoom, Versioned, acts};
use pass_hold::{Shelf, Whose};
use pass_proc::Proc;
use std::alloc::Global;

/// Gives the current version of a held file, pipe or app object an attribute with its value; both are names.
pub fn tag<J: Whose, V: Versioned<J>>(
    alloc: Global,
    object: &mut V,
    shelf: &mut Shelf<J>,
    proc: &mut Proc<J>,
    fd: u8,
    attr: &Text,
    value: &Text,
) -> Result<Moved, CallEnd>
    requires fd { fd < 64 }
    requires names { (is_name attr.now ≡ true) × (is_name value.now ≡ true) }
    requires free { refusal proc.old.state (ask.Held fd) ≡ None }
    requires object { (d : AnyDescriptor) → finite_map.get proc.old.state.descriptors fd ≡ Some d → (V.object object.old).what ≡ d.pnode }
    ensures call { Answers J.book.session J.places proc.old proc.new (requests.TagObj fd attr.now value.now) result }
    ensures what { (V.object object.new).what ≡ (V.object object.old).what }
{
    let number = begin(shelf, proc)?;
    let room = TagRoom::of(alloc, attr, value)?;
    let who = proc.process.pnode();
    let _ = proc.caller.held();
    acts::tag(object, shelf, &mut proc.caller, who, number, room);
    proc.number = number;
    proc.way = None;
    Ok(Moved::Done)
}
