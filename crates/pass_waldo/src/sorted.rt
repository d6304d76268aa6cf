//! Rows of values in ascending order, without repeats.
ghost use Rattle.std.specs.Prelude.{◌≡◌, ◌<◌, OnOk, OnErr, IfOk, IsOk, vec_len, vec_capacity, length};
ghost use Rattle.std.specs.BTreeSet.{insert_key};
ghost use Rattle.std.specs.List.{HoldsAt};
ghost use Rattle.std.specs.List.Sorted.{IsStrictlySortedBy, IsBinarySearchResult, IsSearchInRange};
ghost use Rattle.std.specs.declared.cmp.Ordering.TheVariants.{Equal};

use std::alloc::AllocError;

// Where the value is, or belongs. Most values come in ascending order, and a search through a long row misses the cache at each half.
fn place_of<T: Ord>(row: &[T], value: &T) -> Result<usize, usize>
    ensures bound { IsSearchInRange result (length row.now) }
    ensures ok { IfOk result (HoldsAt (λ y. T.cmp y value.now ≡ Equal) row.now) }
    ensures position { IsBinarySearchResult (λ y. T.cmp y value.now) row.now result }
{
    match row.last() {
        Some(last) if last.cmp(value).is_lt() => Err(row.len()),
        _ => row.binary_search(value),
    }
}

/// Puts a value at its place, unless it is there. It costs a search by halves, and a move of the values above the place.
pub(crate) fn put<T: Ord + Drop>(row: &mut Vec<T>, value: T) -> Result<(), AllocError>
    requires { IsStrictlySortedBy T.cmp row.old.items }
    ensures ok { OnOk result (row.new.items ≡ insert_key T.cmp row.old.items value) }
    ensures err { OnErr result (row.new.items ≡ row.old.items) }
    ensures room { vec_len row.old < vec_capacity row.old → IsOk result }
{
    match place_of(row.as_slice(), &value) {
        Ok(_) => Ok(()),
        Err(place) => {
            row.insert(place, value)?;
            Ok(())
        }
    }
}
