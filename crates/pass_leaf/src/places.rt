//! The places of each file's leaves among all.
ghost use Rattle.std.specs.Prelude.{◌≡◌, ◌++◌, ◌∷◌, [], ◌==◌, ℕ, true, is_some, OnOk, OnErr, if◌then◌else◌};
ghost use Rattle.std.specs.Ordering.{nat_cmp};
ghost use Rattle.std.specs.BTreeMap.{get};
ghost use Rattle.pass_leaf.specs.Places.{places_at};

use pass_entry::Pnode;
use std::alloc::{AllocError, Global};
use std::collections::BTreeMap;

/// The places that a table has of a file's leaves.
pub(crate) fn places_in(table: &BTreeMap<u64, Vec<usize>>, pnode: Pnode) -> &[usize]
    ensures { result.now ≡ places_at table.now pnode }
{
    match table.get(&pnode.0) {
        Some(places) => places,
        None => &[],
    }
}

// The table has the file.
fn meet(
    alloc: Global,
    table: &mut BTreeMap<u64, Vec<usize>>,
    pnode: Pnode,
) -> Result<(), AllocError>
    ensures met { OnOk result (is_some (get nat_cmp table.new pnode) ≡ true) }
    ensures same { (p : ℕ) → places_at table.new p ≡ places_at table.old p }
{
    if table.contains_key(&pnode.0) {
        return Ok(());
    }
    table.insert(pnode.0, Vec::new(alloc))?;
    Ok(())
}

/// One leaf more of a file. Without memory for it the places stay.
pub(crate) fn note(
    alloc: Global,
    table: &mut BTreeMap<u64, Vec<usize>>,
    pnode: Pnode,
    place: usize,
) -> Result<(), AllocError>
    ensures noted { OnOk result ((p : ℕ) → places_at table.new p ≡ (if pnode == p then places_at table.old p ++ place ∷ [] else places_at table.old p)) }
    ensures err { OnErr result ((p : ℕ) → places_at table.new p ≡ places_at table.old p) }
{
    meet(alloc, table, pnode)?;
    match table.get_mut(&pnode.0) {
        Some(places) => {
            places.push(place)?;
            Ok(())
        }
        None => Ok(()),
    }
}
