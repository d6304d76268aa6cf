//! The content of a file, and the digests of its blocks.
ghost use Rattle.std.specs.Prelude.{◌≡◌, ◌≢◌, ◌<◌, ◌*◌, ◌^◌, ◌++◌, ◌∷◌, [], Bool, false, ℕ, IfOk, OnOk, length, take, drop, option_copied, ◌==◌};
ghost use Rattle.std.specs.List.{list_any, range_with_len};
ghost use Rattle.std.specs.Option.{option_map_or};
ghost use Rattle.pass_plain.specs.Files.{file_act};
ghost use Rattle.pass_plain.specs.Histories.{is_fault};
ghost use Rattle.pass_plain.specs.Sessions.{opening_bytes, opening_rows};
ghost use Rattle.pass_plain.specs.Records.{block_size, touches as touches_of, range_len as range_len_of, row_act, is_written as is_written_of, digest_of as digest_of_block};
ghost use Rattle.pass_plain.specs.Recording.{is_resized as is_resized_of, is_digested_by, digests_by, content_by, flags, block_count as block_count_of, opened_row as opened_row_of, bytes_after, row_after as row_after_of, IsContent, IsKept, AreKept};

use crate::file::{apply, opened_file, opening_content};
use crate::start::{Start, StartFile};
use md5::{Digest, Md5};
use pass_entry::{Act, BLOCK_COUNT, BLOCK_SIZE, Entry, Pnode, Record};
use std::alloc::{AllocError, Global};
use std::collections::BTreeMap;

/// How many blocks a file has at most.
fn block_count() -> u32
    ensures { result ≡ block_count_of }
{
    BLOCK_COUNT
}

/// The content of a file, and for each of its blocks, from the first on, whether it has a digest.
#[derive(Drop)]
pub struct Content {
    pub bytes: Vec<u8>,
    pub rows: Vec<bool>,
}

/// A write of so many bytes at a place writes a byte of the block.
fn touches(at: u64, len: usize, block: u32) -> bool
    ensures { result ≡ touches_of at len block }
{
    let begin = u64::from(block) * BLOCK_SIZE;
    len > 0 && begin < at.saturating_add(len as u64) && at < begin + BLOCK_SIZE
}

fn is_written(act: &Act, block: u32) -> bool
    ensures { result ≡ is_written_of act.now block }
{
    match act {
        Act::Put { at, bytes, .. } => touches(*at, bytes.as_bytes().len(), block),
        _ => false,
    }
}

/// How many bytes of a block lie within a size.
fn range_len(size: usize, block: u32) -> u64
    ensures { result ≡ range_len_of size block }
{
    let begin = u64::from(block) * BLOCK_SIZE;
    (size as u64).min(begin + BLOCK_SIZE).saturating_sub(begin)
}

/// A block that had a digest gets a new one, by the file's sizes before and after: its part of the file has another length.
fn is_resized(old: usize, new: usize, had: bool, block: u32) -> bool
    ensures { result ≡ is_resized_of old new had block }
{
    had && u64::from(block) * BLOCK_SIZE < new as u64
        && range_len(old, block) != range_len(new, block)
}

/// The block gets a digest at an act.
fn is_digested(old: usize, new: usize, had: bool, act: &Act, block: u32) -> bool
    ensures { result ≡ is_digested_by old new had act.now block }
{
    is_written(act, block) || is_resized(old, new, had, block)
}

/// The bytes of a content from a place, at most so many.
fn part(content: &[u8], at: usize, len: usize) -> &[u8]
    ensures { result.now ≡ take len (drop at content.now) }
{
    if at >= content.len() {
        return &[];
    }
    let rest = &content[at..];
    if len < rest.len() { &rest[..len] } else { rest }
}

/// The bytes of a content that lie in a block.
pub fn bytes_in(content: &[u8], block: u32) -> &[u8]
    ensures { result.now ≡ take block_size (drop (block * block_size) content.now) }
{
    part(
        content,
        block as usize * BLOCK_SIZE as usize,
        BLOCK_SIZE as usize,
    )
}

fn digest_of(file: Pnode, content: &[u8], block: u32) -> Record
    ensures { result ≡ digest_of_block file content.now block }
{
    Record::Digest {
        pnode: file,
        block,
        md5: Md5::digest(bytes_in(content, block)),
    }
}

/// Adds the digests of a file after an act on it, by its size before and which of its first blocks had one.
fn add_digests(
    list: &mut Vec<Record>,
    file: Pnode,
    old: usize,
    content: &[u8],
    rows: &[bool],
    act: &Act,
) -> Result<(), AllocError>
    requires { length rows.now < 2 ^ 32 }
    ensures { OnOk result ((had : ℕ → Bool) → rows.now ≡ flags had (length rows.now) → list.new.items ≡ list.old.items ++ digests_by file old content.now had act.now (length rows.now)) }
{
    for block in 0..rows.len() {
        if is_digested(old, content.len(), rows[block], act, block as u32) {
            list.push(digest_of(file, content, block as u32))?;
        }
    }
    Ok(())
}

/// Whether a block has a digest after an act, by whether it had one.
fn row_after(block: u32, had: bool, act: &Act) -> bool
    ensures { result ≡ row_act block had act.now }
{
    match act {
        Act::Put { at, bytes, .. } => had || touches(*at, bytes.as_bytes().len(), block),
        Act::Cut { size, .. } => had && u64::from(block) * BLOCK_SIZE < *size,
        _ => had,
    }
}

fn turn_rows(rows: &mut [bool], act: &Act)
    requires { length rows.old < 2 ^ 32 }
    ensures { (had : ℕ → Bool) → rows.old ≡ flags had (length rows.old) → rows.new ≡ flags (λ block. row_act block (had block) act.now) (length rows.old) }
{
    for block in 0..rows.len() {
        rows[block] = row_after(block as u32, rows[block], act);
    }
}

/// Whether a file, if there is one, has a digest of the block.
fn has_row(file: Option<&StartFile>, block: u32) -> bool
    ensures { result ≡ list_any (λ b. b == block) (option_map_or (λ f. f.rows.items) (option_copied file.entry) []) }
{
    match file {
        Some(file) => file.rows.iter().any(|row| *row == block),
        None => false,
    }
}

/// Whether a file was opened with digests of its first blocks.
fn opened_rows(
    alloc: Global,
    start: &Start,
    object: Pnode,
    count: u32,
) -> Result<Vec<bool>, AllocError>
    ensures { IfOk result (λ v. v.items ≡ flags (opened_row_of start.now object) count) }
{
    let file = opened_file(start, object);
    let mut rows = Vec::new(alloc);
    for block in 0..count {
        rows.push(has_row(file, block))?;
    }
    Ok(rows)
}

impl Content {
    /// The content with which a file was opened.
    fn opened(alloc: Global, start: &Start, object: Pnode) -> Result<Content, AllocError>
        ensures bytes { IfOk result (λ c. c.bytes.items ≡ opening_bytes start.now object) }
        ensures rows { IfOk result (λ c. c.rows.items ≡ flags (opened_row_of start.now object) block_count_of) }
    {
        let bytes = opening_content(alloc, start, object)?;
        let rows = opened_rows(alloc, start, object, block_count())?;
        Ok(Content { bytes, rows })
    }

    /// Does an act on the file, and adds its size and its digests.
    fn change(
        &mut self,
        alloc: Global,
        list: &mut Vec<Record>,
        file: Pnode,
        act: &Act,
    ) -> Result<(), AllocError>
        requires { length self.old.rows.items ≡ block_count_of }
        ensures list { OnOk result ((had : ℕ → Bool) → self.old.rows.items ≡ flags had block_count_of → list.new.items ≡ list.old.items ++ content_by file self.old.bytes.items had act.now block_count_of) }
        ensures bytes { OnOk result (self.new.bytes.items ≡ file_act self.old.bytes.items act.now) }
        ensures rows { OnOk result ((had : ℕ → Bool) → self.old.rows.items ≡ flags had block_count_of → self.new.rows.items ≡ flags (λ block. row_act block (had block) act.now) block_count_of) }
    {
        let old = self.bytes.len();
        apply(&mut self.bytes, act)?;
        list.push(Record::Size {
            pnode: file,
            size: self.bytes.len() as u64,
        })?;
        add_digests(list, file, old, &self.bytes, &self.rows, act)?;
        turn_rows(&mut self.rows, act);
        Ok(())
    }
}

/// The content of a file after a history, taken out of those that are kept.
fn take_content(
    alloc: Global,
    kept: &mut BTreeMap<u64, Content>,
    start: &Start,
    history: &[Entry],
    object: Pnode,
) -> Result<Content, AllocError>
    requires { AreKept start.now history.now kept.old }
    ensures content { IfOk result (IsContent start.now history.now object) }
    ensures others { (file : ℕ) → object ≢ file → IsKept start.now history.now kept.new file }
{
    match kept.remove(&object.0) {
        Some(content) => Ok(content),
        None => Content::opened(alloc, start, object),
    }
}

/// Does an entry on a file, and adds the file's size and digests.
pub fn change_file(
    alloc: Global,
    kept: &mut BTreeMap<u64, Content>,
    list: &mut Vec<Record>,
    start: &Start,
    history: &[Entry],
    e: &Entry,
) -> Result<(), AllocError>
    requires done { is_fault e.now.reply ≡ false }
    requires kept { AreKept start.now history.now kept.old }
    ensures kept { OnOk result (AreKept start.now (history.now ++ e.now ∷ []) kept.new) }
    ensures list { OnOk result (list.new.items ≡ list.old.items ++ content_by e.now.what (bytes_after start.now history.now e.now.what) (row_after_of start.now history.now e.now.what) e.now.act block_count_of) }
{
    let mut content = take_content(alloc, kept, start, history, e.what)?;
    content.change(alloc, list, e.what, &e.act)?;
    kept.insert(e.what.0, content)?;
    Ok(())
}
