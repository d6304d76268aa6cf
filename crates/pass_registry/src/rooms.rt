//! What the entries on a registry need of memory, taken before they are made.
ghost use Rattle.std.specs.Prelude.{◌≡◌, [], IfOk};

use pass_entry::{Record, Text};
use std::alloc::{AllocError, Global};
use std::marker::Model;

/// A name for the names, for an entry and for a record, and room for the records of a new file.
#[derive(Drop)]
pub struct BindRoom {
    pub(crate) name: Text,
    pub(crate) act: Text,
    pub(crate) record: Text,
    pub(crate) list: Vec<Record>,
}

impl Model for BindRoom {
    ghost use Rattle.std.specs.Prelude.{◌≡◌, ◌≤◌, ℕ, List, [], vec_capacity};

    ghost Value = { List ℕ };

    ghost view = { λ r. r.name };

    ghost invariant = { λ r. (r.act ≡ r.name) × (r.record ≡ r.name) × (r.list.items ≡ []) × (2 ≤ vec_capacity r.list) };
}

impl BindRoom {
    /// Room for the making of a file under this name.
    pub fn of(alloc: Global, name: &Text) -> Result<BindRoom, AllocError>
        ensures { IfOk result (λ r. r ≡ name.now) }
    {
        let act = name.clone()?;
        let record = name.clone()?;
        let name = name.clone()?;
        let list = Vec::with_capacity(alloc, 2)?;
        Ok(BindRoom {
            name,
            act,
            record,
            list,
        })
    }
}

/// A name that goes, and room for the record that its file has none any more.
#[derive(Drop)]
pub struct UnbindRoom {
    pub(crate) name: Text,
    pub(crate) empty: Text,
    pub(crate) list: Vec<Record>,
}

impl Model for UnbindRoom {
    ghost use Rattle.std.specs.Prelude.{◌≡◌, ◌≤◌, ℕ, List, [], vec_capacity};

    ghost Value = { List ℕ };

    ghost view = { λ r. r.name };

    ghost invariant = { λ r. (r.empty ≡ []) × (r.list.items ≡ []) × (1 ≤ vec_capacity r.list) };
}

/// A text of no bytes.
fn empty(alloc: Global) -> Result<Text, AllocError>
    ensures { IfOk result (λ t. t ≡ []) }
{
    match Text::line(alloc, &[]) {
        Ok(text) => Ok(text),
        Err(_) => Err(AllocError),
    }
}

impl UnbindRoom {
    /// Room for the going of this name.
    pub fn of(alloc: Global, name: &Text) -> Result<UnbindRoom, AllocError>
        ensures { IfOk result (λ r. r ≡ name.now) }
    {
        let name = name.clone()?;
        let empty = empty(alloc)?;
        let list = Vec::with_capacity(alloc, 1)?;
        Ok(UnbindRoom { name, empty, list })
    }
}

/// The names of a renaming, the new one for the names, for an entry and for a record, and room for the records.
#[derive(Drop)]
pub struct MoveRoom {
    pub(crate) from: Text,
    pub(crate) to: Text,
    pub(crate) act: Text,
    pub(crate) record: Text,
    pub(crate) empty: Text,
    pub(crate) list: Vec<Record>,
}

impl Model for MoveRoom {
    ghost use Rattle.std.specs.Prelude.{◌≡◌, ◌≤◌, [], vec_capacity};
    ghost use Rattle.pass_registry.specs.Desks.{Renaming};

    ghost Value = { Renaming };

    ghost view = { λ r. record { from = r.from; to = r.to } };

    ghost invariant = { λ r. (r.act ≡ r.to) × (r.record ≡ r.to) × (r.empty ≡ []) × (r.list.items ≡ []) × (2 ≤ vec_capacity r.list) };
}

impl MoveRoom {
    /// Room for the renaming of a file.
    pub fn of(alloc: Global, from: &Text, to: &Text) -> Result<MoveRoom, AllocError>
        ensures { IfOk result (λ r. r ≡ record { from = from.now; to = to.now }) }
    {
        let from = from.clone()?;
        let act = to.clone()?;
        let record = to.clone()?;
        let to = to.clone()?;
        let empty = empty(alloc)?;
        let list = Vec::with_capacity(alloc, 2)?;
        Ok(MoveRoom {
            from,
            to,
            act,
            record,
            empty,
            list,
        })
    }
}
