//! The state of a file.
ghost use Rattle.std.specs.Prelude.{ℕ, ◌≡◌, ◌+◌, ◌-◌, ◌*◌, ◌≤◌, ◌<◌, ◌^◌, ◌==◌, ◌&&◌, ◌++◌, ◌∷◌, [], Bool, true, false, not, length, take, drop, min, OnOk, OnErr, IfOk, if◌then◌else◌};
ghost use Rattle.pass_entry.specs.Limits.{block_size, file_limit, transfer_limit};
ghost use Rattle.pass_entry.specs.declared.entry.Act.TheVariants as act;
ghost use Rattle.pass_plain.specs.Files.{written, resized, file_act};
ghost use Rattle.pass_plain.specs.Lineages.{IsAlike, linked, used, frozen, has};
ghost use Rattle.pass_plain.specs.Records.{row_act};
ghost use Rattle.pass_plain.specs.Recording.{block_count as block_count_of, flags, content_by, is_change};
ghost use Rattle.pass_plain.specs.Sound.{IsSoundFile};
ghost use Rattle.pass_version.specs.declared.versions.Taken.TheVariants as taken;
ghost use Rattle.pass_range.specs.Rows.{range};
ghost use Rattle.pass_clean.specs.Blocks.{AreListed};
ghost use Rattle.pass_file.specs.FileViews.{end_of, clean_file, opened, dirty_by, AreSet};

use crate::digests::{add_digests, copies};
use crate::set::BlockSet;
use crate::touched::{touched_by, touched_by_cut, touched_by_write, turn_dirty, turn_rows};
use pass_entry::{Act, Bytes, Node, Record};
use pass_plain::StartFile;
use pass_table::Blocks;
use pass_version::{Taken, Versions};
use std::alloc::{AllocError, Global};
use std::marker::Model;

/// How many records a change has at most.
const CHANGE_RECORDS: usize = 4;

/// A file's bytes, which of its blocks have a digest, which of them are dirty, and its version.
#[derive(Drop)]
pub struct FileState {
    content: Blocks,
    rows: BlockSet,
    dirty: BlockSet,
    pub(crate) versions: Versions,
    room: u64,
}

impl Model for FileState {
    ghost use Rattle.std.specs.Coded.{codes};
    ghost use Rattle.pass_entry.specs.contracts.objects.Node as node_type;
    ghost use Rattle.pass_plain.specs.Recording.{block_count, flags};
    ghost use Rattle.pass_file.specs.BlockSets.{is_among};
    ghost use Rattle.pass_file.specs.FileViews.{FileView, IsFileState};

    ghost Value = { FileView };

    ghost coded = { Prim.hlevel (codes, node_type.the_row.coded) };

    ghost view = { λ f. record { bytes = f.content.bytes; rows = flags (is_among f.rows.blocks) block_count; dirty = flags (is_among f.dirty.blocks) block_count; lineage = f.versions.lineage; spare = f.versions.spare; room = f.room } };

    ghost invariant = { λ f. IsFileState f.content f.rows f.dirty f.room };
}

/// Does an act on a content.
fn apply(content: &mut Blocks, act: &Act)
    requires { end_of act.now ≤ content.old.room }
    ensures { content.new.bytes ≡ file_act content.old.bytes act.now }
{
    match act {
        Act::Put { out: _, at, bytes } => content.write(*at as usize, bytes.as_bytes()),
        Act::Cut { out: _, size } => content.truncate(*size as usize),
        _ => {}
    }
}

impl FileState {
    /// A file of the opening, marked or not.
    pub fn new(alloc: Global, file: &StartFile, marked: bool) -> Result<FileState, AllocError>
        requires { IsSoundFile file.now }
        ensures { IfOk result (λ f. f ≡ opened file.now marked) }
    {
        let content = Blocks::from_slice(alloc, &file.bytes)?;
        let rows = BlockSet::from_slice(alloc, &file.rows)?;
        Ok(FileState {
            content,
            rows,
            dirty: BlockSet::new(alloc),
            versions: Versions::new(alloc, file.node.pnode, file.node.version, marked),
            room: 0,
        })
    }

    /// A file that was just made. It takes no memory before `reserve`.
    pub fn made(alloc: Global, node: Node) -> FileState
        ensures { result ≡ clean_file [] (λ _. false) (record { node = node; marked = false; sources = [] }) }
    {
        FileState {
            content: Blocks::new(alloc),
            rows: BlockSet::new(alloc),
            dirty: BlockSet::new(alloc),
            versions: Versions::new(alloc, node.pnode, node.version, false),
            room: 0,
        }
    }

    /// How many bytes it has.
    pub fn size(&self) -> u64
        ensures { result ≡ length self.now.bytes }
    {
        self.content.size() as u64
    }

    /// Its blocks with a digest, in ascending order.
    pub fn rows(&self) -> &[u32]
        ensures { AreSet self.now.rows result.now }
    {
        self.rows.as_slice()
    }

    /// Its dirty blocks, in ascending order.
    pub fn dirty(&self) -> &[u32]
        ensures { AreSet self.now.dirty result.now }
    {
        self.dirty.as_slice()
    }

    /// Its version.
    pub fn versions(&self) -> &Versions
        ensures { result.now ≡ record { lineage = self.now.lineage; spare = self.now.spare } }
    {
        &self.versions
    }

    /// The current version.
    pub fn current(&self) -> Node
        ensures { result ≡ self.now.lineage.node }
    {
        self.versions.current()
    }

    /// The current version is used as a source.
    pub fn mark(&mut self) -> Node
        ensures answer { result ≡ self.old.lineage.node }
        ensures state { self.new ≡ record self.old { lineage = used self.old.lineage } }
    {
        self.versions.mark()
    }

    /// A new version is begun.
    pub fn freeze(&mut self) -> Node
        requires { self.old.lineage.node.version < 2 ^ 63 }
        ensures answer { result ≡ self.new.lineage.node }
        ensures state { self.new ≡ record self.old { lineage = frozen self.old.lineage } }
    {
        self.versions.freeze()
    }

    /// The version takes from a node.
    pub fn take(&mut self, source: Node) -> Taken
        requires version { self.old.lineage.node.version < 2 ^ 63 }
        requires room { 1 ≤ self.old.spare }
        ensures answer { result ≡ (if has self.old.lineage source then taken.Dropped else if self.old.lineage.marked then taken.FrozenAndLinked else taken.Linked) }
        ensures linked { IsAlike self.new.lineage (linked self.old.lineage source) }
        ensures same { self.new ≡ record self.old { lineage = self.new.lineage; spare = self.old.spare - 1 } }
    {
        self.versions.take(source)
    }

    /// Makes room up to this end for one change, and for one more source of the version.
    pub fn reserve(&mut self, end: u64) -> Result<(), AllocError>
        requires { end ≤ file_limit }
        ensures room { OnOk result (end ≤ self.new.room) }
        ensures spare { OnOk result (1 ≤ self.new.spare) }
        ensures same { (self.new.bytes ≡ self.old.bytes) × (self.new.rows ≡ self.old.rows) × (self.new.dirty ≡ self.old.dirty) × IsAlike self.new.lineage self.old.lineage }
        ensures grows { self.old.room ≤ self.new.room }
        ensures err { OnErr result (self.new ≡ self.old) }
    {
        self.rows.reserve(2)?;
        self.dirty.reserve(3)?;
        self.content.reserve(end as usize)?;
        self.versions.reserve(1)?;
        self.room = self.room.max(end);
        Ok(())
    }

    /// Copies bytes from a place on to the front of a slice, as many as there are and it holds, and returns their number.
    pub fn read_into(&self, at: u64, into: &mut [u8]) -> usize
        ensures count { result ≡ min (length into.old) (length self.now.bytes - at) }
        ensures slice { into.new ≡ take result (drop at self.now.bytes) ++ drop result into.old }
    {
        self.content.read_into(at as usize, into)
    }

    /// The bytes of a block, up to the file's end.
    pub fn block_bytes(&self, alloc: Global, block: u32) -> Result<Bytes, AllocError>
        ensures { IfOk result (λ b. b ≡ range block self.now.bytes) }
    {
        self.content.block_bytes(alloc, block)
    }

    /// Writes at most 4,096 bytes at a place, with zeros in a gap before it. It may use up the room.
    pub fn write(&mut self, at: u64, bytes: &[u8])
        requires room { at + length bytes.now ≤ self.old.room }
        requires few { length bytes.now ≤ transfer_limit }
        ensures rows { (had : ℕ → Bool) → self.old.rows ≡ flags had block_count_of → self.new.rows ≡ flags (λ block. row_act block (had block) (act.Put 0 at bytes.now)) block_count_of }
        ensures dirty { (had was : ℕ → Bool) → self.old.rows ≡ flags had block_count_of → self.old.dirty ≡ flags was block_count_of
            → self.new.dirty ≡ flags (λ block. dirty_by (length self.old.bytes) (length self.new.bytes) (had block) (act.Put 0 at bytes.now) block (was block)) block_count_of }
        ensures state { self.new ≡ record self.old { bytes = written self.old.bytes at bytes.now; rows = self.new.rows; dirty = self.new.dirty; room = self.new.room } }
        ensures room { self.new.room ≤ self.old.room }
        ensures nothing { bytes.now ≡ [] → self.new ≡ self.old }
    {
        let _room = self.room;
        if bytes.is_empty() {
            return;
        }
        let touched = touched_by_write(&self.rows, &self.content, at as usize, bytes);
        self.content.write(at as usize, bytes);
        turn_rows(&mut self.rows, &touched);
        turn_dirty(&mut self.dirty, &touched);
        self.room = 0;
    }

    /// Cuts at a size, or extends to it with zeros. It may use up the room.
    pub fn truncate(&mut self, size: u64)
        requires { size ≤ self.old.room }
        ensures rows { (had : ℕ → Bool) → self.old.rows ≡ flags had block_count_of → self.new.rows ≡ flags (λ block. row_act block (had block) (act.Cut 0 size)) block_count_of }
        ensures dirty { (had was : ℕ → Bool) → self.old.rows ≡ flags had block_count_of → self.old.dirty ≡ flags was block_count_of
            → self.new.dirty ≡ flags (λ block. dirty_by (length self.old.bytes) (length self.new.bytes) (had block) (act.Cut 0 size) block (was block)) block_count_of }
        ensures state { self.new ≡ record self.old { bytes = resized self.old.bytes size; rows = self.new.rows; dirty = self.new.dirty; room = self.new.room } }
        ensures room { self.new.room ≤ self.old.room }
    {
        let touched = touched_by_cut(&self.rows, &self.content, size as usize);
        self.content.truncate(size as usize);
        turn_rows(&mut self.rows, &touched);
        turn_dirty(&mut self.dirty, &touched);
        self.room = 0;
    }

    /// The records of a write or a cut: the file's size and the digests of what it touches, as they are after it.
    pub fn records(&self, alloc: Global, act: &Act) -> Result<Vec<Record>, AllocError>
        requires act { is_change act.now ≡ true }
        requires limit { end_of act.now ≤ file_limit }
        ensures { (had : ℕ → Bool) → self.now.rows ≡ flags had block_count_of → IfOk result (λ list. list.items ≡ content_by self.now.lineage.node.pnode self.now.bytes had act.now block_count_of) }
    {
        let pnode = self.versions.current().pnode;
        let touched = touched_by(&self.rows, &self.content, act);
        let mut list = Vec::with_capacity(alloc, CHANGE_RECORDS)?;
        list.push_reserved(Record::Size {
            pnode,
            size: touched.size as u64,
        });
        add_digests(&mut list, pnode, &self.content, act, &touched);
        Ok(list)
    }

    /// Does a write or a cut. It may use up the room.
    pub fn change(&mut self, act: &Act)
        requires act { is_change act.now ≡ true }
        requires room { end_of act.now ≤ self.old.room }
        ensures rows { (had : ℕ → Bool) → self.old.rows ≡ flags had block_count_of → self.new.rows ≡ flags (λ block. row_act block (had block) act.now) block_count_of }
        ensures dirty { (had was : ℕ → Bool) → self.old.rows ≡ flags had block_count_of → self.old.dirty ≡ flags was block_count_of
            → self.new.dirty ≡ flags (λ block. dirty_by (length self.old.bytes) (length (file_act self.old.bytes act.now)) (had block) act.now block (was block)) block_count_of }
        ensures state { self.new ≡ record self.old { bytes = file_act self.old.bytes act.now; rows = self.new.rows; dirty = self.new.dirty; room = self.new.room } }
        ensures room { self.new.room ≤ self.old.room }
    {
        let touched = touched_by(&self.rows, &self.content, act);
        apply(&mut self.content, act);
        turn_rows(&mut self.rows, &touched);
        turn_dirty(&mut self.dirty, &touched);
        self.room = 0;
    }

    /// The dirty blocks in ascending order, with their bytes.
    pub fn dirty_bytes(&self, alloc: Global) -> Result<Vec<(u32, Bytes)>, AllocError>
        ensures { (was : ℕ → Bool) → self.now.dirty ≡ flags was block_count_of → IfOk result (λ blocks. AreListed was self.now.bytes block_count_of blocks.items) }
    {
        copies(alloc, self.dirty.as_slice(), &self.content)
    }

    /// The block is clean.
    pub fn clean(&mut self, block: u32)
        ensures dirty { (was : ℕ → Bool) → self.old.dirty ≡ flags was block_count_of → self.new.dirty ≡ flags (λ b. was b && not (block == b)) block_count_of }
        ensures state { self.new ≡ record self.old { dirty = self.new.dirty } }
    {
        self.dirty.remove(block);
    }

    /// No block is dirty any more.
    pub fn clean_all(&mut self)
        ensures { self.new ≡ record self.old { dirty = flags (λ _. false) block_count_of } }
    {
        self.dirty.clear();
    }
}
