//! Files in blocks that are written and cut. The digests are those of the bytes that stand beside them.
ghost use Rattle.std.specs.Prelude.{◌+◌, ◌≤◌, length};

use pass_entry::{Act, Bytes, Node, Pnode, Record};
use pass_file::FileState;
use std::alloc::Global;
use std::test::Fail;

const FILE: Pnode = Pnode(2);

const ABC: &[u8; 16] = b"\x90\x01\x50\x98\x3c\xd2\x4f\xb0\xd6\x96\x3f\x7d\x28\xe1\x7f\x72";
/// `abc` and 4,093 zeros.
const ABC_GAP: &[u8; 16] = b"\x5b\x5b\x78\xe3\xd3\x37\x48\x0e\xad\x93\x44\x2b\x25\xce\x13\xfd";
/// 904 zeros and `x`.
const GAP_X: &[u8; 16] = b"\x88\x6a\xa3\x1c\x93\x1a\x6a\xe7\x42\xec\xcb\xbc\xb9\x14\x74\xaa";
/// `abc` and a zero.
const ABC_ZERO: &[u8; 16] = b"\x14\x7a\x66\x4a\x2c\xa9\x41\x09\x11\xe6\x19\x86\xd3\xf0\xd5\x2a";
/// 4,095 zeros and `x`.
const BLOCK_X: &[u8; 16] = b"\xd2\x04\xe6\xeb\xa7\x52\xc8\x24\xec\xad\x26\x7f\x8d\x79\x2a\xf4";

const ABCDEF: &[u8; 16] = b"\xe8\x0b\x50\x17\x09\x89\x50\xfc\x58\xaa\xd8\x3c\x8c\x14\x97\x8e";
/// `abc` and three zeros.
const ABC_ZEROS: &[u8; 16] = b"\x5c\xa0\xf0\xa3\x77\xa0\x1d\xb4\xd9\x28\xc1\x1c\xde\xf7\xf4\x70";

fn new_file(alloc: Global) -> FileState {
    FileState::made(
        alloc,
        Node {
            pnode: FILE,
            version: 1,
        },
    )
}

/// The records of a write.
fn put(alloc: Global, file: &mut FileState, at: u32, bytes: &[u8]) -> Result<Vec<Record>, Fail>
    requires { at + length bytes.now ≤ 4194304 }
{
    let Ok(bytes) = Bytes::of(alloc, bytes) else {
        return Err(Fail::new("the bytes are too many"));
    };
    let at = u64::from(at);
    file.reserve(at + bytes.as_bytes().len() as u64)?;
    let act = Act::Put { out: 0, at, bytes };
    let list = file.records(alloc, &act)?;
    file.change(&act);
    Ok(list)
}

/// The records of a cut.
fn cut(alloc: Global, file: &mut FileState, size: u32) -> Result<Vec<Record>, Fail>
    requires { size ≤ 4194304 }
{
    let size = u64::from(size);
    file.reserve(size)?;
    let act = Act::Cut { out: 0, size };
    let list = file.records(alloc, &act)?;
    file.change(&act);
    Ok(list)
}

fn is_digest(record: &Record, block: u32, md5: &[u8; 16]) -> bool {
    match record {
        Record::Digest {
            pnode,
            block: place,
            md5: sum,
        } => *pnode == FILE && *place == block && sum == md5,
        _ => false,
    }
}

fn are_digests(records: &[Record], digests: &[(u32, &[u8; 16])]) -> bool {
    records.len() == digests.len()
        && records
            .iter()
            .zip(digests.iter())
            .all(|(record, (block, md5))| is_digest(record, *block, md5))
}

/// Whether the records are the file's size, and the digests of these blocks.
fn tells(records: &[Record], size: u64, digests: &[(u32, &[u8; 16])]) -> bool {
    match records {
        [Record::Size { pnode, size: found }, rest @ ..] => {
            *pnode == FILE && *found == size && are_digests(rest, digests)
        }
        _ => false,
    }
}

/// Whether a file has this size, these blocks with a digest, and these dirty ones.
fn has(file: &FileState, size: u64, rows: &[u32], dirty: &[u32]) -> bool {
    file.size() == size && file.rows() == rows && file.dirty() == dirty
}

/// Whether a read of eight bytes at a place gives these.
fn reads(file: &FileState, at: u64, wanted: &[u8]) -> bool {
    let mut bytes = [1; 8];
    let count = file.read_into(at, &mut bytes);
    &bytes[..count] == wanted
}

#[test]
fn a_gap_is_zeros(rt: HostRuntime) -> Result<(), Fail> {
    let alloc = rt.alloc();
    let mut file = new_file(alloc);
    put(alloc, &mut file, 0, b"abc")?;
    let made = put(alloc, &mut file, 5000, b"x")?;
    assert!(rt; tells(&made, 5001, &[(0, ABC_GAP), (1, GAP_X)]));
    assert!(rt; has(&file, 5001, &[0, 1], &[0, 1]));
    assert!(rt; reads(&file, 4998, b"\0\0x"));
    Ok(())
}

#[test]
fn a_cut_ends_within_a_block(rt: HostRuntime) -> Result<(), Fail> {
    let alloc = rt.alloc();
    let mut file = new_file(alloc);
    put(alloc, &mut file, 0, b"abc")?;
    put(alloc, &mut file, 5000, b"x")?;
    let made = cut(alloc, &mut file, 4)?;
    assert!(rt; tells(&made, 4, &[(0, ABC_ZERO)]));
    assert!(rt; has(&file, 4, &[0], &[0]));
    assert!(rt; reads(&file, 0, b"abc\0"));
    Ok(())
}

#[test]
fn a_file_has_1024_blocks(rt: HostRuntime) -> Result<(), Fail> {
    let alloc = rt.alloc();
    let mut file = new_file(alloc);
    let made = put(alloc, &mut file, 4_194_303, b"x")?;
    assert!(rt; tells(&made, 4_194_304, &[(1023, BLOCK_X)]));
    assert!(rt; has(&file, 4_194_304, &[1023], &[1023]));
    let made = cut(alloc, &mut file, 0)?;
    assert!(rt; tells(&made, 0, &[]));
    assert!(rt; has(&file, 0, &[], &[]));
    Ok(())
}

#[test]
fn a_file_shrinks_and_grows_within_a_block(rt: HostRuntime) -> Result<(), Fail> {
    let alloc = rt.alloc();
    let mut file = new_file(alloc);
    let made = put(alloc, &mut file, 0, b"abcdef")?;
    assert!(rt; tells(&made, 6, &[(0, ABCDEF)]));
    file.clean(0);
    let made = cut(alloc, &mut file, 3)?;
    assert!(rt; tells(&made, 3, &[(0, ABC)]));
    assert!(rt; has(&file, 3, &[0], &[0]));
    let made = cut(alloc, &mut file, 6)?;
    assert!(rt; tells(&made, 6, &[(0, ABC_ZEROS)]));
    let block = file.block_bytes(alloc, 0)?;
    assert!(rt; block.as_bytes() == b"abc\0\0\0".as_slice());
    Ok(())
}

#[test]
fn a_cut_keeps_what_is_dirty_before_it(rt: HostRuntime) -> Result<(), Fail> {
    let alloc = rt.alloc();
    let mut file = new_file(alloc);
    for block in 0..4 {
        put(alloc, &mut file, block * 4096 + 4095, b"x")?;
    }
    file.clean(1);
    assert!(rt; has(&file, 16384, &[0, 1, 2, 3], &[0, 2, 3]));
    let made = cut(alloc, &mut file, 12288)?;
    assert!(rt; tells(&made, 12288, &[]));
    assert!(rt; has(&file, 12288, &[0, 1, 2], &[0, 2]));
    Ok(())
}
