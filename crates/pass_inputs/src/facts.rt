//! What the records tell of files.
ghost use Rattle.std.specs.Prelude.{◌≡◌, ℕ, List, IfOk, OnOk, nat_eq};
ghost use Rattle.std.specs.HashMap.{get};
ghost use Rattle.pass_entry.specs.declared.record.Record.{Record};
ghost use Rattle.pass_entry.specs.declared.record.Record.TheVariants as log;
ghost use Rattle.pass_plain.specs.WellLogged.{kind_look, kind_of};
ghost use Rattle.pass_inputs.specs.Inputs.{given_look, given_to};

use pass_entry::{Kind, Record, Text};
use std::alloc::{AllocError, Global};
use std::collections::HashMap;

/// The kind of each object, and the last name that each file was given.
#[derive(Drop)]
pub(crate) struct Facts {
    kinds: HashMap<u64, Kind>,
    pub(crate) names: HashMap<u64, Text>,
}

impl Facts {
    ghost use Rattle.std.specs.Prelude.{◌≡◌, List, IfOk};
    ghost use Rattle.pass_entry.specs.declared.record.Record.{Record};
    ghost use Rattle.pass_plain.specs.WellLogged.{is_file_of};
    ghost use Rattle.pass_inputs.specs.Plans.{AreFacts};

    pub(crate) fn of(alloc: Global, records: &[Record]) -> Result<Facts, AllocError>
        ensures { IfOk result (AreFacts records.now) }
    {
        Ok(Facts {
            kinds: kinds_of(alloc, records)?,
            names: names_of(alloc, records)?,
        })
    }

    /// Whether the object is a file.
    pub(crate) fn is_file(&self, pnode: u64) -> bool
        ensures { (list : List Record) → AreFacts list self.now → result ≡ is_file_of list pnode }
    {
        match self.kinds.get(&pnode) {
            Some(kind) => *kind == Kind::File,
            None => false,
        }
    }
}

// The kind of each object.
fn kinds_of(alloc: Global, records: &[Record]) -> Result<HashMap<u64, Kind>, AllocError>
    ensures { IfOk result (λ kinds. (o : ℕ) → get nat_eq kinds o ≡ kind_of records.now o) }
{
    let mut kinds = HashMap::new(alloc);
    for one in records {
        note_kind(&mut kinds, one)?;
    }
    Ok(kinds)
}

#[tactic(auto, using(crate::proofs::Rows::no_kind))]
fn note_kind(kinds: &mut HashMap<u64, Kind>, one: &Record) -> Result<(), AllocError>
    ensures { OnOk result ((o : ℕ) → get nat_eq kinds.new o ≡ kind_look o (get nat_eq kinds.old o) one.now) }
{
    if let Record::Object { pnode, kind } = one {
        kinds.insert(pnode.0, *kind)?;
    }
    Ok(())
}

// The last name that each file was given.
fn names_of(alloc: Global, records: &[Record]) -> Result<HashMap<u64, Text>, AllocError>
    ensures { IfOk result (λ names. (o : ℕ) → get nat_eq names o ≡ given_to records.now o) }
{
    let mut names = HashMap::new(alloc);
    for one in records {
        note_name(&mut names, one)?;
    }
    Ok(names)
}

#[tactic(auto, using(crate::proofs::Rows::no_name))]
fn note_name(names: &mut HashMap<u64, Text>, one: &Record) -> Result<(), AllocError>
    ensures { OnOk result ((o : ℕ) → get nat_eq names.new o ≡ given_look o (get nat_eq names.old o) one.now) }
{
    if let Record::Name { pnode, name } = one {
        put_name(names, pnode.0, name)?;
    }
    Ok(())
}

// One name more, unless it is empty.
fn put_name(names: &mut HashMap<u64, Text>, pnode: u64, name: &Text) -> Result<(), AllocError>
    ensures { OnOk result ((o : ℕ) → get nat_eq names.new o ≡ given_look o (get nat_eq names.old o) (log.Name pnode name.now)) }
{
    if 0 < name.as_bytes().len() {
        names.insert(pnode, name.clone()?)?;
    }
    Ok(())
}
