//! Records written as bytes.
ghost use Rattle.std.specs.Prelude.{◌≡◌, ◌≤◌, ◌++◌, ◌∷◌, take, length, OnOk, OnErr};
ghost use Rattle.std.specs.Int.{w32, w64, to_be_bytes};
ghost use Rattle.pass_entry.specs.Ranges.{IsInRange};
ghost use Rattle.pass_record.specs.Spelling.{kind_byte, line_bytes, name_bytes, node_bytes, spelling};

use pass_entry::{Kind, Node, Pnode, Record, Text};
use pass_num::{put_u8, put_u16, put_u32, put_u64};
use std::alloc::AllocError;

fn byte_of(kind: Kind) -> u8
    ensures { result ≡ kind_byte kind }
{
    match kind {
        Kind::Process => 1,
        Kind::File => 2,
        Kind::Pipe => 3,
        Kind::App => 4,
    }
}

fn put_node(out: &mut Vec<u8>, node: &Node) -> Result<(), AllocError>
    ensures ok { OnOk result (out.new.items ≡ out.old.items ++ node_bytes node.now) }
    ensures err { OnErr result (take (length out.old.items) out.new.items ≡ out.old.items) }
{
    put_u64(out, node.pnode.0)?;
    put_u64(out, node.version)
}

// A tag and the number of an object.
fn put_head(out: &mut Vec<u8>, tag: u8, pnode: Pnode) -> Result<(), AllocError>
    ensures ok { OnOk result (out.new.items ≡ out.old.items ++ tag ∷ to_be_bytes w64 pnode) }
    ensures err { OnErr result (take (length out.old.items) out.new.items ≡ out.old.items) }
{
    put_u8(out, tag)?;
    put_u64(out, pnode.0)
}

// A tag, and a version of an object.
fn put_node_head(out: &mut Vec<u8>, tag: u8, node: &Node) -> Result<(), AllocError>
    ensures ok { OnOk result (out.new.items ≡ out.old.items ++ tag ∷ node_bytes node.now) }
    ensures err { OnErr result (take (length out.old.items) out.new.items ≡ out.old.items) }
{
    put_u8(out, tag)?;
    put_node(out, node)
}

fn put_name(out: &mut Vec<u8>, name: &Text) -> Result<(), AllocError>
    requires { length name.now ≤ 255 }
    ensures ok { OnOk result (out.new.items ≡ out.old.items ++ name_bytes name.now) }
    ensures err { OnErr result (take (length out.old.items) out.new.items ≡ out.old.items) }
{
    put_u8(out, name.as_bytes().len() as u8)?;
    out.extend_from_slice(name.as_bytes())
}

fn put_line(out: &mut Vec<u8>, line: &Text) -> Result<(), AllocError>
    ensures ok { OnOk result (out.new.items ≡ out.old.items ++ line_bytes line.now) }
    ensures err { OnErr result (take (length out.old.items) out.new.items ≡ out.old.items) }
{
    put_u16(out, line.as_bytes().len() as u16)?;
    out.extend_from_slice(line.as_bytes())
}

fn put_size(out: &mut Vec<u8>, pnode: Pnode, size: u64) -> Result<(), AllocError>
    ensures ok { OnOk result (out.new.items ≡ out.old.items ++ 6 ∷ (to_be_bytes w64 pnode ++ to_be_bytes w64 size)) }
    ensures err { OnErr result (take (length out.old.items) out.new.items ≡ out.old.items) }
{
    put_head(out, 6, pnode)?;
    put_u64(out, size)
}

fn put_digest(out: &mut Vec<u8>, pnode: Pnode, block: u32, md5: &[u8; 16]) -> Result<(), AllocError>
    ensures ok { OnOk result (out.new.items ≡ out.old.items ++ 7 ∷ (to_be_bytes w64 pnode ++ to_be_bytes w32 block ++ md5.now)) }
    ensures err { OnErr result (take (length out.old.items) out.new.items ≡ out.old.items) }
{
    put_head(out, 7, pnode)?;
    put_u32(out, block)?;
    out.extend_from_slice(md5)
}

#[tactic(auto, unfolding(crate::specs::Spelling::spelling))]
fn put_record(one: &Record, out: &mut Vec<u8>) -> Result<(), AllocError>
    requires { IsInRange one.now }
    ensures ok { OnOk result (out.new.items ≡ out.old.items ++ spelling one.now) }
    ensures err { OnErr result (take (length out.old.items) out.new.items ≡ out.old.items) }
{
    match one {
        Record::Object { pnode, kind } => {
            put_head(out, 1, *pnode)?;
            put_u8(out, byte_of(*kind))
        }
        Record::Name { pnode, name } => {
            put_head(out, 2, *pnode)?;
            put_name(out, name)
        }
        Record::Attr { node, attr, value } => {
            put_node_head(out, 3, node)?;
            put_name(out, attr)?;
            put_line(out, value)
        }
        Record::Input { target, source } => {
            put_node_head(out, 4, target)?;
            put_node(out, source)
        }
        Record::Version { node } => put_node_head(out, 5, node),
        Record::Size { pnode, size } => put_size(out, *pnode, *size),
        Record::Digest { pnode, block, md5 } => put_digest(out, *pnode, *block, md5),
        Record::Ceiling { pnode } => put_head(out, 8, *pnode),
    }
}

/// Appends the one spelling of a record within its ranges. An `Err` leaves the bytes as they were.
pub fn encode(one: &Record, out: &mut Vec<u8>) -> Result<(), AllocError>
    requires { IsInRange one.now }
    ensures ok { OnOk result (out.new.items ≡ out.old.items ++ spelling one.now) }
    ensures err { OnErr result (out.new.items ≡ out.old.items) }
{
    let before = out.len();
    if let Err(refused) = put_record(one, out) {
        out.truncate(before);
        return Err(refused);
    }
    Ok(())
}
