//! The fields of records, taken off the front of bytes.
ghost use Rattle.std.specs.Prelude.{◌≡◌, ◌≤◌, ◌<◌, length, Ok, Err, if◌then◌else◌};
ghost use Rattle.std.specs.List.{list_all};
ghost use Rattle.pass_entry.specs.Texts.{is_line_byte, is_name_byte};
ghost use Rattle.pass_record.specs.Faults.{Gives};
ghost use Rattle.pass_record.specs.Fields.{block_at, kind_at, md5_at, name_at, attr_at, node_at, object_number_at, size_at, value_at};
ghost use Rattle.pass_record.specs.declared.fault.RecordFault.TheVariants as fault;

use crate::fault::RecordFault;
use pass_entry::{
    BLOCK_COUNT, FILE_LIMIT, Kind, LINE_LIMIT, NUMBER_LIMIT, Node, Pnode, Text, TextFault,
};
use pass_num::Cursor;
use std::alloc::Global;

// A number of an object or a version, 8 bytes: from 1, in 48 bits.
fn take_number(cursor: &mut Cursor) -> Result<u64, RecordFault>
    ensures { Gives (λ number. (number, cursor.new)) result (object_number_at cursor.old) }
{
    let number = cursor.take_u64()?;
    if number == 0 || number >= NUMBER_LIMIT {
        return Err(RecordFault::Value);
    }
    Ok(number)
}

/// The number of an object, 8 bytes.
pub fn take_pnode(cursor: &mut Cursor) -> Result<Pnode, RecordFault>
    ensures { Gives (λ pnode. (pnode, cursor.new)) result (object_number_at cursor.old) }
{
    Ok(Pnode(take_number(cursor)?))
}

/// An object and a version, 16 bytes.
#[tactic(auto, unfolding(crate::specs::Fields::node_at))]
pub fn take_node(cursor: &mut Cursor) -> Result<Node, RecordFault>
    ensures { Gives (λ node. (node, cursor.new)) result (node_at cursor.old) }
{
    let pnode = take_pnode(cursor)?;
    let version = take_number(cursor)?;
    Ok(Node { pnode, version })
}

/// The kind of an object, 1 byte.
#[tactic(auto, unfolding(crate::specs::Fields::kind_at))]
pub fn take_kind(cursor: &mut Cursor) -> Result<Kind, RecordFault>
    ensures { Gives (λ kind. (kind, cursor.new)) result (kind_at cursor.old) }
{
    match cursor.take_u8()? {
        1 => Ok(Kind::Process),
        2 => Ok(Kind::File),
        3 => Ok(Kind::Pipe),
        4 => Ok(Kind::App),
        _ => Err(RecordFault::Value),
    }
}

/// A file's size in bytes, 8 bytes.
pub fn take_size(cursor: &mut Cursor) -> Result<u64, RecordFault>
    ensures { Gives (λ size. (size, cursor.new)) result (size_at cursor.old) }
{
    let size = cursor.take_u64()?;
    if size > FILE_LIMIT {
        return Err(RecordFault::Value);
    }
    Ok(size)
}

/// The number of a file's block, 4 bytes.
pub fn take_block(cursor: &mut Cursor) -> Result<u32, RecordFault>
    ensures { Gives (λ block. (block, cursor.new)) result (block_at cursor.old) }
{
    let block = cursor.take_u32()?;
    if block >= BLOCK_COUNT {
        return Err(RecordFault::Value);
    }
    Ok(block)
}

/// An MD5 (RFC 1321), 16 bytes.
pub fn take_md5(cursor: &mut Cursor) -> Result<[u8; 16], RecordFault>
    ensures { Gives (λ md5. (md5, cursor.new)) result (md5_at cursor.old) }
{
    let bytes = cursor.take_bytes(16)?;
    let mut md5 = [0; 16];
    md5.copy_from_slice(bytes);
    Ok(md5)
}

// The bytes were taken before they are copied, so no room is made for bytes that aren't there.
fn name_of(alloc: Global, bytes: &[u8]) -> Result<Text, RecordFault>
    requires some { 1 ≤ length bytes.now }
    requires few { length bytes.now ≤ 255 }
    ensures { Gives (λ text. text) result (if list_all is_name_byte bytes.now then Ok bytes.now else Err fault.Value) }
{
    match Text::name(alloc, bytes) {
        Ok(text) => Ok(text),
        Err(TextFault::NoMemory) => Err(RecordFault::NoMemory),
        Err(_) => Err(RecordFault::Value),
    }
}

fn line_of(alloc: Global, bytes: &[u8]) -> Result<Text, RecordFault>
    requires { length bytes.now ≤ 1024 }
    ensures { Gives (λ text. text) result (if list_all is_line_byte bytes.now then Ok bytes.now else Err fault.Value) }
{
    match Text::line(alloc, bytes) {
        Ok(text) => Ok(text),
        Err(TextFault::NoMemory) => Err(RecordFault::NoMemory),
        Err(_) => Err(RecordFault::Value),
    }
}

/// A name of 0 to 255 bytes behind its length of 1 byte; an object that lost its name has none.
#[tactic(auto, unfolding(crate::specs::Fields::name_at))]
pub fn take_name(alloc: Global, cursor: &mut Cursor) -> Result<Text, RecordFault>
    ensures { Gives (λ name. (name, cursor.new)) result (name_at cursor.old) }
{
    let len = cursor.take_u8()?;
    let bytes = cursor.take_bytes(len as usize)?;
    if bytes.is_empty() {
        line_of(alloc, bytes)
    } else {
        name_of(alloc, bytes)
    }
}

/// The name of an attribute, 1 to 255 bytes behind its length of 1 byte.
#[tactic(auto, unfolding(crate::specs::Fields::attr_at))]
pub fn take_attr(alloc: Global, cursor: &mut Cursor) -> Result<Text, RecordFault>
    ensures { Gives (λ attr. (attr, cursor.new)) result (attr_at cursor.old) }
{
    let len = cursor.take_u8()?;
    if len == 0 {
        return Err(RecordFault::Value);
    }
    name_of(alloc, cursor.take_bytes(len as usize)?)
}

/// The value of an attribute, 1 to 1,024 bytes behind its length of 2 bytes.
#[tactic(auto, unfolding(crate::specs::Fields::value_at))]
pub fn take_value(alloc: Global, cursor: &mut Cursor) -> Result<Text, RecordFault>
    ensures { Gives (λ value. (value, cursor.new)) result (value_at cursor.old) }
{
    let len = cursor.take_u16()?;
    if len == 0 || len as usize > LINE_LIMIT {
        return Err(RecordFault::Value);
    }
    line_of(alloc, cursor.take_bytes(len as usize)?)
}
