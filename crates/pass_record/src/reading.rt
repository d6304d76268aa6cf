//! Records read from bytes.
ghost use Rattle.std.specs.Prelude.{◌≡◌, ◌<◌, ◌≤◌, List, ℕ, length, drop, IfOk, Ok};
ghost use Rattle.pass_entry.specs.Lengths.{record_length};
ghost use Rattle.pass_record.specs.Faults.{Gives};
ghost use Rattle.pass_record.specs.Reading.{attribute_at, ceiling_at, digest_at, fields_at, file_size_at, input_at, named_at, object_at, record_at, version_at};
ghost use Rattle.pass_record.specs.Spelling.{StandsAtFront};

use crate::fault::RecordFault;
use crate::fields::{
    take_attr, take_block, take_kind, take_md5, take_name, take_node, take_pnode, take_size,
    take_value,
};
use pass_entry::Record;
use pass_num::Cursor;
use std::alloc::Global;

#[tactic(auto, unfolding(crate::specs::Reading::object_at))]
fn object(cursor: &mut Cursor) -> Result<Record, RecordFault>
    ensures { Gives (λ one. (one, cursor.new)) result (object_at cursor.old) }
{
    let pnode = take_pnode(cursor)?;
    let kind = take_kind(cursor)?;
    Ok(Record::Object { pnode, kind })
}

#[tactic(auto, unfolding(crate::specs::Reading::named_at))]
fn name(alloc: Global, cursor: &mut Cursor) -> Result<Record, RecordFault>
    ensures { Gives (λ one. (one, cursor.new)) result (named_at cursor.old) }
{
    let pnode = take_pnode(cursor)?;
    let name = take_name(alloc, cursor)?;
    Ok(Record::Name { pnode, name })
}

#[tactic(auto, unfolding(crate::specs::Reading::attribute_at))]
fn attribute(alloc: Global, cursor: &mut Cursor) -> Result<Record, RecordFault>
    ensures { Gives (λ one. (one, cursor.new)) result (attribute_at cursor.old) }
{
    let node = take_node(cursor)?;
    let attr = take_attr(alloc, cursor)?;
    let value = take_value(alloc, cursor)?;
    Ok(Record::Attr { node, attr, value })
}

#[tactic(auto, unfolding(crate::specs::Reading::input_at))]
fn input(cursor: &mut Cursor) -> Result<Record, RecordFault>
    ensures { Gives (λ one. (one, cursor.new)) result (input_at cursor.old) }
{
    let target = take_node(cursor)?;
    let source = take_node(cursor)?;
    Ok(Record::Input { target, source })
}

#[tactic(auto, unfolding(crate::specs::Reading::version_at))]
fn version(cursor: &mut Cursor) -> Result<Record, RecordFault>
    ensures { Gives (λ one. (one, cursor.new)) result (version_at cursor.old) }
{
    let node = take_node(cursor)?;
    Ok(Record::Version { node })
}

#[tactic(auto, unfolding(crate::specs::Reading::file_size_at))]
fn size(cursor: &mut Cursor) -> Result<Record, RecordFault>
    ensures { Gives (λ one. (one, cursor.new)) result (file_size_at cursor.old) }
{
    let pnode = take_pnode(cursor)?;
    let size = take_size(cursor)?;
    Ok(Record::Size { pnode, size })
}

#[tactic(auto, unfolding(crate::specs::Reading::digest_at))]
fn digest(cursor: &mut Cursor) -> Result<Record, RecordFault>
    ensures { Gives (λ one. (one, cursor.new)) result (digest_at cursor.old) }
{
    let pnode = take_pnode(cursor)?;
    let block = take_block(cursor)?;
    let md5 = take_md5(cursor)?;
    Ok(Record::Digest { pnode, block, md5 })
}

#[tactic(auto, unfolding(crate::specs::Reading::ceiling_at))]
fn ceiling(cursor: &mut Cursor) -> Result<Record, RecordFault>
    ensures { Gives (λ one. (one, cursor.new)) result (ceiling_at cursor.old) }
{
    let pnode = take_pnode(cursor)?;
    Ok(Record::Ceiling { pnode })
}

#[tactic(auto, unfolding(crate::specs::Reading::record_at))]
fn record_of(alloc: Global, cursor: &mut Cursor) -> Result<Record, RecordFault>
    ensures { Gives (λ one. (one, cursor.new)) result (record_at cursor.old) }
{
    match cursor.take_u8()? {
        1 => object(cursor),
        2 => name(alloc, cursor),
        3 => attribute(alloc, cursor),
        4 => input(cursor),
        5 => version(cursor),
        6 => size(cursor),
        7 => digest(cursor),
        8 => ceiling(cursor),
        _ => Err(RecordFault::Tag),
    }
}

/// The record at the front of the bytes, and how many bytes its spelling has. Any bytes may follow it.
pub fn decode(alloc: Global, bytes: &[u8]) -> Result<(Record, usize), RecordFault>
    // What is read stands at the front, and this is its length.
    ensures found { IfOk result (λ read. StandsAtFront read.0 bytes.now × (read.1 ≡ record_length read.0)) }
    ensures within { IfOk result (λ read. (0 < read.1) × (read.1 ≤ length bytes.now)) }
    // What stands at the front is read, unless memory runs out.
    ensures only { (one : Record) → StandsAtFront one bytes.now → Gives (λ read. read) result (Ok (one, record_length one)) }
    // Which fault it is.
    ensures exact { Gives (λ read. (read.0, drop read.1 bytes.now)) result (record_at bytes.now) }
{
    let mut cursor = Cursor::new(bytes);
    let one = record_of(alloc, &mut cursor)?;
    let len = one.length() as usize;
    Ok((one, len))
}
