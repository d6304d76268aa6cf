//! The call `disclose`.
ghost use Rattle.std.specs.Prelude.{◌≡◌, ◌<◌, None, Some};
ghost use Rattle.std.specs.FinMap as finite_map;
ghost use Rattle.pass_entry.specs.declared.entry.Ask.TheVariants as ask;
ghost use Rattle.pass_entry.specs.declared.objects.Descriptor.{Descriptor as AnyDescriptor};
ghost use Rattle.pass_plain.specs.declared.request.Request.TheVariants as requests;
ghost use Rattle.pass_plain.specs.Processes.{refusal};
ghost use Rattle.pass_answer.specs.Answers.{Answers};

use crate::beginning::begin;
use pass_answer::{CallEnd, Moved};
use pass_flow::{Versioned, acts};
use pass_hold::{Shelf, Whose};
use pass_proc::Proc;
use std::alloc::Global;

/// Records that one held object's content flowed into another, outside of the store: the target's version takes from the source's.
pub fn disclose<J: Whose, S: Versioned<J>, T: Versioned<J>>(
    alloc: Global,
    source: &mut S,
    target: &mut T,
    shelf: &mut Shelf<J>,
    proc: &mut Proc<J>,
    target_fd: u8,
    source_fd: u8,
) -> Result<Moved, CallEnd>
    requires fds { (target_fd < 64) × (source_fd < 64) }
    requires free { refusal proc.old.state (ask.HeldTwo target_fd source_fd) ≡ None }
    requires source { (d : AnyDescriptor) → finite_map.get proc.old.state.descriptors source_fd ≡ Some d → (S.object source.old).what ≡ d.pnode }
    requires target { (d : AnyDescriptor) → finite_map.get proc.old.state.descriptors target_fd ≡ Some d → (T.object target.old).what ≡ d.pnode }
    ensures call { Answers J.book.session J.places proc.old proc.new (requests.Disclose target_fd source_fd) result }
    ensures what { ((S.object source.new).what ≡ (S.object source.old).what) × ((T.object target.new).what ≡ (T.object target.old).what) }
{
    let number = begin(shelf, proc)?;
    target.reserve_source()?;
    let who = proc.process.pnode();
    let _ = proc.caller.held();
    let caller = &mut proc.caller;
    let (out, node) = acts::cite(source, alloc, shelf, caller, who, number);
    acts::told(target, alloc, shelf, caller, who, number, out, &node);
    proc.number = number;
    proc.way = None;
    Ok(Moved::Done)
}

/// Records that a held object's content flowed into the object itself; both descriptors are of that object.
pub fn disclose_itself<J: Whose, V: Versioned<J>>(
    alloc: Global,
    object: &mut V,
    shelf: &mut Shelf<J>,
    proc: &mut Proc<J>,
    target_fd: u8,
    source_fd: u8,
) -> Result<Moved, CallEnd>
    requires fds { (target_fd < 64) × (source_fd < 64) }
    requires free { refusal proc.old.state (ask.HeldTwo target_fd source_fd) ≡ None }
    requires source { (d : AnyDescriptor) → finite_map.get proc.old.state.descriptors source_fd ≡ Some d → (V.object object.old).what ≡ d.pnode }
    requires target { (d : AnyDescriptor) → finite_map.get proc.old.state.descriptors target_fd ≡ Some d → (V.object object.old).what ≡ d.pnode }
    ensures call { Answers J.book.session J.places proc.old proc.new (requests.Disclose target_fd source_fd) result }
    ensures what { (V.object object.new).what ≡ (V.object object.old).what }
{
    let number = begin(shelf, proc)?;
    object.reserve_source()?;
    let who = proc.process.pnode();
    let _ = proc.caller.held();
    let caller = &mut proc.caller;
    let (out, node) = acts::cite(object, alloc, shelf, caller, who, number);
    acts::told(object, alloc, shelf, caller, who, number, out, &node);
    proc.number = number;
    proc.way = None;
    Ok(Moved::Done)
}
