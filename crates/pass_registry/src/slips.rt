//! The records of the entries on a registry. They take no memory.
ghost use Rattle.std.specs.Prelude.{◌≡◌, ◌≤◌, [], ◌∷◌, ◌++◌, vec_capacity};
ghost use Rattle.std.specs.Option.{option_map_or};
ghost use Rattle.pass_entry.specs.declared.record.Record.TheVariants as log;
ghost use Rattle.pass_registry.specs.Listed.{bind_records, mint_records, move_records, unbind_records};

use pass_book::Slip;
use pass_entry::{CallFault, Kind, Pnode, Record, Text};

/// A slip without a version and without an edge.
fn slip_of(list: Vec<Record>) -> Slip
    ensures { result ≡ list.items }
{
    Slip {
        version: None,
        input: None,
        rest: list,
    }
}

/// The records of a `Mint`.
pub fn mint_slip(answer: &Result<Pnode, CallFault>, kind: Kind, list: Vec<Record>) -> Slip
    requires { (list.items ≡ []) × (1 ≤ vec_capacity list) }
    ensures { result ≡ mint_records answer.now kind }
{
    let mut list = list;
    if let Ok(pnode) = answer {
        list.push_reserved(Record::Object {
            pnode: *pnode,
            kind,
        });
    }
    slip_of(list)
}

/// The records of a `Bind`.
pub fn bind_slip(answer: &Result<Pnode, CallFault>, name: Text, list: Vec<Record>) -> Slip
    requires { (list.items ≡ []) × (2 ≤ vec_capacity list) }
    ensures { result ≡ bind_records answer.now name }
{
    let mut list = list;
    if let Ok(file) = answer {
        list.push_reserved(Record::Object {
            pnode: *file,
            kind: Kind::File,
        });
        list.push_reserved(Record::Name { pnode: *file, name });
    }
    slip_of(list)
}

/// The records of an `Unbind`.
pub fn unbind_slip(answer: &Result<Pnode, CallFault>, empty: Text, list: Vec<Record>) -> Slip
    requires list { (list.items ≡ []) × (1 ≤ vec_capacity list) }
    requires empty { empty ≡ [] }
    ensures { result ≡ unbind_records answer.now }
{
    let mut list = list;
    if let Ok(file) = answer {
        list.push_reserved(Record::Name {
            pnode: *file,
            name: empty,
        });
    }
    slip_of(list)
}

/// A file gets the name, before which another one loses it.
fn name_records(
    list: Vec<Record>,
    file: Pnode,
    lost: Option<Pnode>,
    name: Text,
    empty: Text,
) -> Slip
    requires list { (list.items ≡ []) × (2 ≤ vec_capacity list) }
    requires empty { empty ≡ [] }
    ensures { result ≡ option_map_or (λ other. log.Name other [] ∷ []) lost [] ++ log.Name file name ∷ [] }
{
    let mut list = list;
    if let Some(other) = lost {
        list.push_reserved(Record::Name {
            pnode: other,
            name: empty,
        });
    }
    list.push_reserved(Record::Name { pnode: file, name });
    slip_of(list)
}

/// The records of a `Move`: a file gets the second name in place of the first, and another one may lose it.
pub fn move_slip(
    file: &Result<Pnode, CallFault>,
    lost: Option<Pnode>,
    from: &Text,
    name: Text,
    empty: Text,
    list: Vec<Record>,
) -> Slip
    requires list { (list.items ≡ []) × (2 ≤ vec_capacity list) }
    requires empty { empty ≡ [] }
    ensures { result ≡ move_records file.now lost from.now name }
{
    match file {
        Ok(file) => {
            if *from == name {
                slip_of(list)
            } else {
                name_records(list, *file, lost, name, empty)
            }
        }
        Err(_) => slip_of(list),
    }
}
