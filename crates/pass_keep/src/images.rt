//! What stands on every image that a crash leaves of a keeper's disk.
use crate::Keeper;
use pass_outside::Disk;

impl<D: Disk> Keeper<D> {
    ghost use Rattle.std.specs.Prelude.{◌≡◌, ◌⊎◌, ◌++◌, ◌∷◌, ◌<◌, ◌≤◌, ℕ, List, [], length, slice_get, true, Some, IsTrue};
    ghost use Rattle.pass_entry.specs.declared.entry.Entry.{Entry};
    ghost use Rattle.pass_outside.specs.Areas.{Image};
    ghost use Rattle.pass_range.specs.Places.{place, Holds};
    ghost use Rattle.pass_range.specs.Rows.{number_of, IsUnmatched};
    ghost use Rattle.pass_keep.specs.Kept.{IsStory, Noted, HasRecords, IsLeft, IsBegun, AreTimed, bound_of, covered, list_to, source_to, range_to};
    ghost use Rattle.pass_keep.specs.Keepers.{disk_of, syncs_of, Past, IsKeeper};
    ghost use Rattle.pass_keep.specs.Longer.{with_entries, past_with};

    /// What follows for each image from what it keeps. It does nothing.
    pub fn images(&self)
        ghost past: { Past }
        requires keeper { IsKeeper D.view past self.now }
        // Since the session began a crash leaves what was there before it, or the session's records with some of its entries.
        ensures begun { IsBegun past.story (D.view (disk_of self.now)) }
        // Since each sync it leaves at least the entries that were durable then.
        ensures since { IsTrue (D.view (disk_of self.now)).tells → (i : ℕ) (x : Noted) → slice_get past.noted i ≡ Some x
            → (c : Image) → (D.view (disk_of self.now)).left_since x.calls c → IsLeft past.story x.entries (bound_of x) c }
        // Each range of its files whose row comes from an entry below it is matched, and has the bytes of the image's entries.
        ensures matched { IsTrue (D.view (disk_of self.now)).tells → (i : ℕ) (x : Noted) → slice_get past.noted i ≡ Some x
            → (c : Image) → (D.view (disk_of self.now)).left_since x.calls c → (n : ℕ) → n ≤ length past.story.history → HasRecords (list_to past.story n) c.log
            → (pnode block number at : ℕ) → x.files number ≡ true → number_of (list_to past.story n) pnode ≡ Some number → source_to past.story n pnode block ≡ Some at → at < x.entries
            → Holds (place number block) (range_to past.story n pnode block) c.store × (IsUnmatched (list_to past.story n) c.store pnode block → ⊥) }
        // Where the last sync has all entries, and each block that is dirty behind it has its bytes on each image since then, no range of
        // this history is unmatched since then.
        ensures settled { IsTrue (D.view (disk_of self.now)).tells → (front : List Noted) (last : Noted) → past.noted ≡ front ++ last ∷ [] → last.entries ≡ length past.story.history
            → ((i : ℕ) (x : Noted) → slice_get past.noted i ≡ Some x → x.calls ≤ last.calls)
            → ((pnode block number at : ℕ) → source_to past.story (length past.story.history) pnode block ≡ Some at → number_of (list_to past.story (length past.story.history)) pnode ≡ Some number
            → (at < covered past.noted number) ⊎ ((c : Image) → (D.view (disk_of self.now)).left_since last.calls c → Holds (place number block) (range_to past.story (length past.story.history) pnode block) c.store))
            → (c : Image) → (D.view (disk_of self.now)).left_since last.calls c
            → HasRecords (list_to past.story (length past.story.history)) c.log
            × ((pnode block at : ℕ) → source_to past.story (length past.story.history) pnode block ≡ Some at → IsUnmatched (list_to past.story (length past.story.history)) c.store pnode block → ⊥) }
        // The syncs that it hands out are of their moment.
        ensures timed { AreTimed (D.view (disk_of self.now)) (length past.story.history) (syncs_of self.now) }
        // It keeps as much of a longer history.
        ensures longer { (more : List Entry) → IsStory (with_entries past.story more) → IsKeeper D.view (past_with past more) self.now }
    {}
}
