//! The spelling of a record of each tag.
use crate::had;
use pass_entry::{Kind, Node, Pnode, Record, Text};
use pass_record::{RecordFault, decode, encode};
use std::alloc::Global;
use std::test::Fail;

/// A record of each tag.
const EACH: [&[u8]; 8] = [
    b"\x01\0\0\0\0\0\0\0\x05\x03",
    b"\x02\0\0\0\0\0\0\0\x05\x02ab",
    b"\x03\0\0\0\0\0\0\0\x05\0\0\0\0\0\0\0\x07\x03EXE\0\x04a b~",
    b"\x04\0\0\0\0\0\0\0\x05\0\0\0\0\0\0\0\x07\0\0\0\0\0\0\0\x06\0\0\0\0\0\0\0\x09",
    b"\x05\0\0\0\0\0\0\0\x05\0\0\0\0\0\0\0\x07",
    b"\x06\0\0\0\0\0\0\0\x05\0\0\0\0\0\0\x01\0",
    b"\x07\0\0\0\0\0\0\0\x05\0\0\x01\x02ABCDEFGHIJKLMNOP",
    b"\x08\0\0\0\0\0\0\0\x05",
];

fn node(pnode: u64, version: u64) -> Node {
    Node {
        pnode: Pnode(pnode),
        version,
    }
}

fn records(alloc: Global) -> Result<[Record; 8], Fail> {
    Ok([
        Record::Object {
            pnode: Pnode(5),
            kind: Kind::Pipe,
        },
        Record::Name {
            pnode: Pnode(5),
            name: had(Text::name(alloc, b"ab"))?,
        },
        Record::Attr {
            node: node(5, 7),
            attr: had(Text::name(alloc, b"EXE"))?,
            value: had(Text::line(alloc, b"a b~"))?,
        },
        Record::Input {
            target: node(5, 7),
            source: node(6, 9),
        },
        Record::Version { node: node(5, 7) },
        Record::Size {
            pnode: Pnode(5),
            size: 256,
        },
        Record::Digest {
            pnode: Pnode(5),
            block: 258,
            md5: *b"ABCDEFGHIJKLMNOP",
        },
        Record::Ceiling { pnode: Pnode(5) },
    ])
}

// Whether the record is in range, and these are its bytes.
fn are_bytes_of(alloc: Global, bytes: &[u8], record: &Record) -> Result<bool, RecordFault> {
    if !record.is_in_range() {
        return Ok(false);
    }
    let mut out = Vec::new(alloc);
    encode(record, &mut out)?;
    Ok(out.as_slice() == bytes)
}

// Whether the bytes are the record's, are read as a record, whole, and are that one's too: so the two are the same.
fn agrees(alloc: Global, bytes: &[u8], record: &Record) -> Result<bool, RecordFault> {
    let (found, len) = decode(alloc, bytes)?;
    Ok(
        len == bytes.len()
            && are_bytes_of(alloc, bytes, &found)?
            && are_bytes_of(alloc, bytes, record)?,
    )
}

#[test]
fn a_record_of_each_tag(rt: HostRuntime) -> Result<(), Fail> {
    let records = records(rt.alloc())?;
    for (bytes, record) in EACH.iter().zip(records.iter()) {
        assert!(rt; had(agrees(rt.alloc(), bytes, record))?);
    }
    Ok(())
}
