//! The names and objects of a store after a history, and what may be made of them.
ghost use Rattle.std.specs.Prelude.{◌≡◌, ◌<◌, ◌≤◌, ◌+◌, IfOk, false, ◌==◌, ◌&&◌};
ghost use Rattle.std.specs.List.{list_any};
ghost use Rattle.pass_entry.specs.Limits.{number_limit};
ghost use Rattle.pass_entry.specs.declared.objects.Kind.TheVariants as kind_of;
ghost use Rattle.pass_plain.specs.declared.start.Start.{Start as AnyStart};
ghost use Rattle.pass_plain.specs.Legal.{session_of};
ghost use Rattle.pass_plain.specs.Registries.{same_kind as same_kind_of, count_of_kind, is_full as is_full_of, kind_number as kind_number_of};
ghost use Rattle.pass_plain.specs.Replies.{minted as minted_of, is_app_object as is_app_object_of};
ghost use Rattle.pass_plain.specs.States.{registry_of};
ghost use Rattle.pass_reference.specs.States.{IsRegistry};

use pass_entry::{CallFault, Entry, KIND_LIMIT, Kind, Pnode, Reply};
use pass_plain::Start;
use pass_plain::registry::RegistryState;
use std::alloc::{AllocError, Global};

fn kind_number(kind: Kind) -> u8
    ensures { result ≡ kind_number_of kind }
{
    match kind {
        Kind::Process => 1,
        Kind::File => 2,
        Kind::Pipe => 3,
        Kind::App => 4,
    }
}

fn same_kind(a: Kind, b: Kind) -> bool
    ensures { result ≡ same_kind_of a b }
{
    kind_number(a) == kind_number(b)
}

fn has_app(objects: &[(Pnode, Kind)], pnode: Pnode) -> bool
    ensures { result ≡ list_any (λ o. o.0 == pnode && same_kind_of o.1 kind_of.App) objects.now }
{
    objects
        .iter()
        .any(|o| o.0 == pnode && same_kind(o.1, Kind::App))
}

/// The registry after a history.
pub fn after(alloc: Global, start: &Start, history: &[Entry]) -> Result<RegistryState, AllocError>
    ensures { IfOk result (IsRegistry start.now history.now) }
{
    let mut state = RegistryState::opened(alloc, start)?;
    for i in 0..history.len() {
        state.follow(&history[i])?;
    }
    Ok(state)
}

fn count(registry: &RegistryState, kind: Kind) -> usize
    ensures { result ≡ count_of_kind kind (registry_of registry.now) }
{
    registry
        .objects
        .iter()
        .filter(|o| same_kind(o.1, kind))
        .count()
}

/// No object of this kind may be made any more, in a session that may make so many.
fn is_full(registry: &RegistryState, objects: u32, kind: Kind) -> bool
    ensures full { (start : AnyStart) → result ≡ is_full_of (session_of start objects) (registry_of registry.now) kind }
    ensures room { result ≡ false → registry.now.made < objects }
{
    if registry.made >= u64::from(objects) {
        return true;
    }
    match kind {
        Kind::File | Kind::App => count(registry, kind) >= KIND_LIMIT as usize,
        _ => false,
    }
}

/// The answer to the making of an object: its number, or that there are too many.
pub fn minted(registry: &RegistryState, start: &Start, objects: u32, kind: Kind) -> Reply
    requires { start.now.ceiling + objects < number_limit }
    ensures { result ≡ minted_of (session_of start.now objects) (registry_of registry.now) kind }
{
    if is_full(registry, objects, kind) {
        Reply::Fault(CallFault::TooMany)
    } else {
        Reply::Made(Pnode(start.ceiling + registry.made + 1))
    }
}

/// An app object has this number.
pub fn is_app(registry: &RegistryState, pnode: Pnode) -> bool
    ensures { result ≡ is_app_object_of (registry_of registry.now) pnode }
{
    has_app(&registry.objects, pnode)
}
