//! The leaves of an archive, read of its disk.
ghost use Rattle.std.specs.Prelude.{◌≡◌, ◌⊎◌, ◌↔◌, ◌<◌, ◌≤◌, ◌^◌, ◌++◌, ◌∷◌, [], ℕ, List, length, Some, None, slice_get, IsTrue, IfOk, OnOk, OnErr, IfErr, IsErrOf};
ghost use Rattle.std.specs.Option.{option_map_or};
ghost use Rattle.pass_outside.specs.Areas.{Image};
ghost use Rattle.pass_outside.specs.Moments.{Adds, IsDeviceWork};
ghost use Rattle.pass_leaf.specs.Leaves.{IsFormed};
ghost use Rattle.pass_leaf.specs.Contents.{last_content as last_content_of, last_version as last_version_of, content_of, AreLeaves};
ghost use Rattle.pass_leaf.specs.Places.{places_of, ArePlaces};
ghost use Rattle.pass_leaf.specs.Archives.{IsArchiveOn, IsUnread, IsUnopened};
ghost use Rattle.pass_leaf.specs.Reads.{IsFoundOn};

use crate::content::{content_at, has_leaf, lay_all};
use crate::places::{note, places_in};
use crate::walk::{Found, found_in};
use crate::{Leaf, OldFault};
use pass_entry::{Node, Pnode};
use pass_log::{LogFault, read_bytes};
use pass_outside::{Area, Disk};
use std::alloc::{AllocError, Global};
use std::collections::BTreeMap;
use std::marker::Model;

/// The leaves of an archive, in the order in which they were kept, with the places of each file's.
#[derive(Drop)]
pub struct Leaves {
    list: Vec<Leaf>,
    places: BTreeMap<u64, Vec<usize>>,
}

impl Model for Leaves {
    ghost use Rattle.std.specs.Prelude.{List};
    ghost use Rattle.std.specs.Coded.{codes};
    ghost use Rattle.pass_entry.specs.contracts.objects.Node as node_type;
    ghost use Rattle.pass_leaf.specs.contracts.leaf.LeafBlock as block_type;
    ghost use Rattle.pass_leaf.specs.Leaves.{Leaf as AnyLeaf};
    ghost use Rattle.pass_leaf.specs.Contents.{AreLeaves};
    ghost use Rattle.pass_leaf.specs.Places.{ArePlaces};

    ghost Value = { List AnyLeaf };

    ghost coded = { Prim.hlevel (codes, node_type.the_row.coded, block_type.the_row.coded) };

    ghost view = { λ l. l.list.items };

    ghost invariant = { λ l. AreLeaves l.list.items × ArePlaces l.list.items l.places };
}

impl Leaves {
    /// No leaves.
    pub(crate) fn new(alloc: Global) -> Leaves
        ensures { result ≡ [] }
    {
        Leaves {
            list: Vec::new(alloc),
            places: BTreeMap::new(alloc),
        }
    }

    /// One leaf more, above its file's last one. Without memory for it the leaves stay.
    pub(crate) fn push(&mut self, alloc: Global, leaf: Leaf) -> Result<(), AllocError>
        requires formed { IsFormed leaf }
        requires above { last_version_of self.old leaf.node.pnode < leaf.node.version }
        ensures ok { OnOk result (self.new ≡ self.old ++ leaf ∷ []) }
        ensures err { OnErr result (self.new ≡ self.old) }
    {
        add(alloc, &mut self.list, &mut self.places, leaf)
    }

    /// The version of a file's last leaf; 0 where it has no leaf.
    pub fn last_version(&self, pnode: Pnode) -> u64
        ensures { result ≡ last_version_of self.now pnode }
    {
        version_of(&self.list, &self.places, pnode)
    }

    /// The content of a file's last leaf; no bytes where it has no leaf.
    pub(crate) fn last_content(&self, alloc: Global, pnode: Pnode) -> Result<Vec<u8>, AllocError>
        ensures { IfOk result (λ v. v.items ≡ last_content_of self.now pnode) }
    {
        lay_all(alloc, &self.list, places_in(&self.places, pnode))
    }

    /// The leaves, in order.
    pub fn list(&self) -> &[Leaf]
        ensures list { result.now ≡ self.now }
        ensures are { AreLeaves self.now }
    {
        &self.list
    }

    /// The places of a file's leaves in the list, ascending.
    pub fn places(&self, pnode: Pnode) -> &[usize]
        ensures { result.now ≡ places_of self.now pnode }
    {
        places_in(&self.places, pnode)
    }

    /// The whole content of a version that was kept.
    pub fn bytes_of(&self, alloc: Global, node: Node) -> Result<Vec<u8>, OldFault>
        ensures bytes { IfOk result (λ v. content_of self.now node ≡ Some v.items) }
        // Exactly where no leaf has the node.
        ensures none { IsErrOf result OldFault.NoVersion ↔ (content_of self.now node ≡ None) }
        ensures fault { IfErr result (λ e. (e ≡ OldFault.NoVersion) ⊎ (e ≡ OldFault.NoMemory)) }
    {
        bytes_in(alloc, &self.list, &node)
    }
}

// One leaf more, with its place.
fn add(
    alloc: Global,
    list: &mut Vec<Leaf>,
    places: &mut BTreeMap<u64, Vec<usize>>,
    leaf: Leaf,
) -> Result<(), AllocError>
    requires { ArePlaces list.old.items places.old }
    ensures places { ArePlaces list.new.items places.new }
    ensures ok { OnOk result (list.new.items ≡ list.old.items ++ leaf ∷ []) }
    ensures err { OnErr result (list.new.items ≡ list.old.items) }
{
    let pnode = leaf.node().pnode;
    let place = list.len();
    list.reserve(1)?;
    note(alloc, places, pnode, place)?;
    list.push_reserved(leaf);
    Ok(())
}

// The version of the leaf at a place.
fn version_at(list: &[Leaf], place: usize) -> u64
    ensures { result ≡ option_map_or (λ l. l.node.version) (slice_get list.now place) 0 }
{
    match list.get(place) {
        Some(leaf) => leaf.node().version,
        None => 0,
    }
}

// The version of a file's last leaf.
fn version_of(list: &[Leaf], places: &BTreeMap<u64, Vec<usize>>, pnode: Pnode) -> u64
    requires { ArePlaces list.now places.now }
    ensures { result ≡ last_version_of list.now pnode }
{
    match places_in(places, pnode).last() {
        Some(place) => version_at(list, *place),
        None => 0,
    }
}

// The whole content of a node's leaf.
fn bytes_in(alloc: Global, leaves: &[Leaf], node: &Node) -> Result<Vec<u8>, OldFault>
    ensures bytes { IfOk result (λ v. content_of leaves.now node.now ≡ Some v.items) }
    ensures none { IsErrOf result OldFault.NoVersion ↔ (content_of leaves.now node.now ≡ None) }
    ensures fault { IfErr result (λ e. (e ≡ OldFault.NoVersion) ⊎ (e ≡ OldFault.NoMemory)) }
{
    if !has_leaf(leaves, node) {
        return Err(OldFault::NoVersion);
    }
    match content_at(alloc, leaves, node) {
        Ok(Some(bytes)) => Ok(bytes),
        Ok(None) => Err(OldFault::NoVersion),
        Err(_refused) => Err(OldFault::NoMemory),
    }
}

// The fault of reading the bytes of a log area, by which no record is read and no log is open.
fn unread(fault: LogFault) -> OldFault
    ensures device { fault ≡ LogFault.DiskFault → result ≡ OldFault.DiskFault }
    ensures device_alone { result ≡ OldFault.DiskFault → fault ≡ LogFault.DiskFault }
    ensures frame { (at : ℕ) → fault ≡ LogFault.BadFrame at → result ≡ OldFault.BadFrame at }
    ensures memory { fault ≡ LogFault.NoMemory → result ≡ OldFault.NoMemory }
{
    match fault {
        LogFault::DiskFault => OldFault::DiskFault,
        LogFault::BadFrame { at } => OldFault::BadFrame { at },
        LogFault::BadRecord { .. } | LogFault::Broken { .. } | LogFault::NoMemory => {
            OldFault::NoMemory
        }
    }
}

// The bytes of the log area.
fn read_log<D: Disk>(alloc: Global, disk: &mut D) -> Result<Vec<u8>, OldFault>
    ensures bytes { IfOk result (λ v. IsTrue (D.view disk.old).tells → v.items ≡ (D.view disk.old).seen.log) }
    ensures length { IfOk result (λ v. length v.items ≤ 2 ^ 39) }
    ensures fault { IfErr result (IsUnread (D.view disk.old)) }
    ensures work { IsDeviceWork (D.view disk.old) (D.view disk.new) (IsErrOf result OldFault.DiskFault) }
    ensures content { (D.view disk.new).seen ≡ (D.view disk.old).seen }
    ensures crash { (c : Image) → (D.view disk.new).may_leave c → (D.view disk.old).may_leave c }
    ensures run { Adds (D.view disk.old) (D.view disk.new) (D.view disk.old).may_leave }
{
    match read_bytes(alloc, disk) {
        Ok(bytes) => Ok(bytes),
        Err(fault) => Err(unread(fault)),
    }
}

// Syncs the log area and reads what it holds.
pub(crate) fn find<D: Disk>(alloc: Global, disk: &mut D) -> Result<Found, OldFault>
    ensures found { IfOk result (λ f. IsFoundOn (D.view disk.old) f) }
    ensures cause { IfErr result (IsUnopened (D.view disk.old)) }
    ensures synced { OnOk result ((c : Image) → (D.view disk.new).may_leave c → c.log ≡ (D.view disk.new).seen.log) }
    ensures content { OnOk result ((D.view disk.new).seen ≡ (D.view disk.old).seen) }
    ensures store { IsTrue (D.view disk.old).tells → (D.view disk.new).seen.store ≡ (D.view disk.old).seen.store }
    ensures work { IsDeviceWork (D.view disk.old) (D.view disk.new) (IsErrOf result OldFault.DiskFault) }
    ensures crash { (c : Image) → (D.view disk.new).may_leave c → (D.view disk.old).may_leave c }
    ensures run { Adds (D.view disk.old) (D.view disk.new) (D.view disk.old).may_leave }
    ensures refused { IfErr result (λ e. (e ≡ OldFault.DiskFault) ⊎ ((D.view disk.new).seen ≡ (D.view disk.old).seen)) }
{
    disk.sync(Area::Log)?;
    let bytes = read_log(alloc, disk)?;
    found_in(alloc, &bytes)
}

/// Reads the leaves of an archive: syncs its log area and reads it. Nothing is written.
pub fn read_leaves<D: Disk>(alloc: Global, disk: &mut D) -> Result<Leaves, OldFault>
    ensures leaves { IfOk result (λ l. (end : ℕ) × IsArchiveOn (D.view disk.old) l end) }
    // A device call failed; or the archive has a bad frame, and this is the first one; or memory was refused.
    ensures cause { IfErr result (IsUnopened (D.view disk.old)) }
    ensures content { OnOk result ((D.view disk.new).seen ≡ (D.view disk.old).seen) }
    ensures refused { IfErr result (λ e. (e ≡ OldFault.DiskFault) ⊎ ((D.view disk.new).seen ≡ (D.view disk.old).seen)) }
    ensures work { IsDeviceWork (D.view disk.old) (D.view disk.new) (IsErrOf result OldFault.DiskFault) }
    ensures crash { (c : Image) → (D.view disk.new).may_leave c → (D.view disk.old).may_leave c }
    ensures run { Adds (D.view disk.old) (D.view disk.new) (D.view disk.old).may_leave }
{
    let found = find(alloc, disk)?;
    Ok(found.leaves)
}
