//! The records of entries, gathered into parts.
ghost use Rattle.std.specs.Prelude.{◌≡◌, ◌≤◌, [], ◌∷◌, ◌++◌, All, length, List, IfOk, OnOk};
ghost use Rattle.pass_entry.specs.Lengths.{record_length};
ghost use Rattle.pass_entry.specs.declared.record.Record as records;
ghost use Rattle.pass_book.specs.Records.{byte_length, IsCrowded, IsPart};
ghost use Rattle.pass_book.specs.Parting.{IsParted, lists_of};

use crate::claim::Slip;
use pass_entry::Record;
use std::alloc::{AllocError, Global};
use std::marker::Model;
use std::mem;

// The greatest number of bytes of a part.
const PART_BYTES: u64 = 1 << 30;

/// The number of bytes of a record in the log.
pub(crate) fn record_bytes(row: &Record) -> u64
    ensures bytes { result ≡ record_length row.now }
    ensures within { result ≤ 2068 }
{
    match row {
        Record::Name { name, .. } => 10 + name.as_bytes().len() as u64,
        Record::Attr { attr, value, .. } => {
            20 + attr.as_bytes().len() as u64 + value.as_bytes().len() as u64
        }
        _ => row.length(),
    }
}

/// The number of bytes of an entry's records in the log.
pub(crate) fn slip_bytes(slip: &Slip) -> u64
    requires { length slip.now ≤ 1027 }
    ensures bytes { result ≡ byte_length slip.now }
    ensures within { result ≤ 4194304 }
{
    let mut bytes = 0;
    if let Some(node) = slip.version {
        bytes += record_bytes(&Record::Version { node });
    }
    if let Some((target, source)) = slip.input {
        bytes += record_bytes(&Record::Input { target, source });
    }
    for row in &slip.rest {
        bytes += record_bytes(row);
    }
    bytes
}

// Puts an entry's records behind others.
fn append(part: &mut Vec<Record>, slip: &Slip) -> Result<(), AllocError>
    ensures { OnOk result (part.new.items ≡ part.old.items ++ slip.now) }
{
    if let Some(node) = slip.version {
        part.push(Record::Version { node })?;
    }
    if let Some((target, source)) = slip.input {
        part.push(Record::Input { target, source })?;
    }
    part.extend_from_slice(&slip.rest)
}

/// The parts that are full, and the one that grows.
#[derive(Drop)]
pub struct Parts {
    full: Vec<Vec<Record>>,
    part: Vec<Record>,
    bytes: u64,
}

impl Model for Parts {
    ghost use Rattle.pass_book.specs.Parting.{PartsState, IsGrowing, lists_of};

    ghost Value = { PartsState };

    ghost view = { λ p. record { full = lists_of p.full.items; part = p.part.items } };

    ghost invariant = { λ p. IsGrowing (record { full = lists_of p.full.items; part = p.part.items }) p.bytes };
}

impl Parts {
    /// No records.
    pub(crate) fn new(alloc: Global) -> Parts
        ensures { IsParted [] result }
    {
        Parts {
            full: Vec::new(alloc),
            part: Vec::new(alloc),
            bytes: 0,
        }
    }

    /// One more entry's records. Where they don't fit, the part that grew is full.
    pub(crate) fn with(self, slip: &Slip) -> Result<Parts, AllocError>
        requires { length slip.now ≤ 1027 }
        ensures { IfOk result (λ more. (lists : List (List records.Record)) → IsParted lists self → IsParted (lists ++ slip.now ∷ []) more) }
    {
        let more = slip_bytes(slip);
        let Parts {
            mut full,
            mut part,
            mut bytes,
        } = self;
        if PART_BYTES - bytes < more {
            let empty = Vec::new(*full.allocator());
            full.push(mem::replace(&mut part, empty))?;
            bytes = 0;
        }
        append(&mut part, slip)?;
        bytes += more;
        Ok(Parts { full, part, bytes })
    }

    /// All parts.
    pub(crate) fn finish(self) -> Result<Vec<Vec<Record>>, AllocError>
        ensures parted { IfOk result (λ parts. (lists : List (List records.Record)) → IsParted lists self → IsParted lists (record { full = lists_of parts.items; part = [] })) }
        ensures each { IfOk result (λ parts. All IsPart (lists_of parts.items)) }
        ensures crowded { IfOk result (λ parts. IsCrowded (lists_of parts.items)) }
    {
        let Parts {
            mut full,
            part,
            bytes: _,
        } = self;
        if !part.is_empty() {
            full.push(part)?;
        }
        Ok(full)
    }
}
