//! What stands on every image that a crash leaves of a vault's disk.
use crate::Vault;
use pass_outside::Disk;

impl<D: Disk> Vault<D> {
    ghost use Rattle.std.specs.Prelude.{◌≡◌, ◌++◌, ◌∷◌, ◌<◌, ◌≤◌, ℕ, List, [], length, map, take, slice_get, Some, None, IsTrue, false};
    ghost use Rattle.pass_entry.specs.Limits.{block_count};
    ghost use Rattle.pass_outside.specs.Areas.{Image};
    ghost use Rattle.pass_range.specs.Places.{place, Holds};
    ghost use Rattle.pass_range.specs.Rows.{IsUnmatched};
    ghost use Rattle.pass_book.specs.declared.view.FileMark.{FileMark};
    ghost use Rattle.pass_book.specs.declared.view.VaultSync.{VaultSync};
    ghost use Rattle.pass_keep.specs.Kept.{HasRecords, IsLeft, IsBegun, AreTimed, bound_of, list_to, source_to, range_to};
    ghost use Rattle.pass_book.specs.Numbers.{IsFileNumber};
    ghost use Rattle.pass_book.specs.Syncs.{called, durable};
    ghost use Rattle.pass_vault.specs.Pooled.{staged_in};
    ghost use Rattle.pass_vault.specs.Vaulted.{story_of, noted_of, real_syncs, data_syncs};
    ghost use Rattle.pass_vault.specs.Vaults.{handed_of};
    ghost use Rattle.pass_clean.specs.Cleaned.{is_dirty};

    /// What follows for each image from the type alone. It does nothing.
    pub fn images(&self)
        // Since the session began a crash leaves what was there before it, or the session's records with some of its entries.
        ensures begun { IsBegun (story_of self.now) (D.view self.now.disk) }
        // Since the vault was opened it leaves the ceiling, and the records of some entries.
        ensures opened { IsTrue (D.view self.now.disk).tells → (c : Image) → (D.view self.now.disk).left_since self.now.ready c → IsLeft (story_of self.now) 0 (λ _. 0) c }
        // That count has been reached, and no sync came before it.
        ensures ready { self.now.ready ≤ (D.view self.now.disk).calls }
        ensures late { (i : ℕ) (x : VaultSync) → slice_get (real_syncs self.now.syncs) i ≡ Some x → self.now.ready ≤ x.calls }
        // Since each sync it leaves at least the entries that were durable then.
        ensures since { IsTrue (D.view self.now.disk).tells → (i : ℕ) (x : VaultSync) → slice_get (real_syncs self.now.syncs) i ≡ Some x
            → (c : Image) → (D.view self.now.disk).left_since x.calls c → IsLeft (story_of self.now) x.entries (bound_of (noted_of x)) c }
        // The syncs that it hands out are of their moment.
        ensures timed { AreTimed (D.view self.now.disk) (length self.now.seen) (map handed_of (real_syncs self.now.syncs)) }
        // Each range of its file whose row comes from an entry below it is matched, and has the bytes of the image's entries.
        ensures matched { IsTrue (D.view self.now.disk).tells → (i : ℕ) (x : VaultSync) (f : FileMark) → slice_get (real_syncs self.now.syncs) i ≡ Some x → x.file ≡ Some f
            → (c : Image) → (D.view self.now.disk).left_since x.calls c → (n : ℕ) → n ≤ length self.now.seen → HasRecords (list_to (story_of self.now) n) c.log
            → (block at : ℕ) → source_to (story_of self.now) n f.pnode block ≡ Some at → at < x.entries
            → Holds (place f.number block) (range_to (story_of self.now) n f.pnode block) c.store × (IsUnmatched (list_to (story_of self.now) n) c.store f.pnode block → ⊥) }
        // A block of its file has the bytes that it had at the sync, until a later row of it is in the image, or its row is gone.
        ensures written { IsTrue (D.view self.now.disk).tells → (i : ℕ) (x : VaultSync) (f : FileMark) → slice_get (real_syncs self.now.syncs) i ≡ Some x → x.file ≡ Some f
            → (c : Image) → (D.view self.now.disk).left_since x.calls c → (n : ℕ) → n ≤ length self.now.seen → HasRecords (list_to (story_of self.now) n) c.log
            → (block at : ℕ) → source_to (story_of self.now) x.entries f.pnode block ≡ Some at → source_to (story_of self.now) n f.pnode block ≡ Some at
            → Holds (place f.number block) (range_to (story_of self.now) x.entries f.pnode block) c.store × (IsUnmatched (list_to (story_of self.now) n) c.store f.pnode block → ⊥) }
        // Where the last sync has all entries, no block is dirty, none waits, and nothing is unsynced, no range of this history is
        // unmatched since then.
        ensures settled { IsTrue (D.view self.now.disk).tells → (front : List VaultSync) (last : VaultSync) → real_syncs self.now.syncs ≡ front ++ last ∷ [] → last.entries ≡ length self.now.seen
            → ((file block : ℕ) → block < block_count → is_dirty self.now.book.session self.now.seen self.now.syncs file block ≡ false)
            → self.now.pool.entries ≡ [] → self.now.unsynced ≡ false
            → (c : Image) → (D.view self.now.disk).left_since last.calls c
            → HasRecords (list_to (story_of self.now) (length self.now.seen)) c.log
            × ((file block at : ℕ) → source_to (story_of self.now) (length self.now.seen) file block ≡ Some at → IsUnmatched (list_to (story_of self.now) (length self.now.seen)) c.store file block → ⊥) }
        // While nothing is unsynced, a block that is clean after the durable entries and doesn't wait has the bytes that it had then
        // since the last sync of a file's data, until a later row of it is in the image, or its row is gone.
        ensures landed { IsTrue (D.view self.now.disk).tells → self.now.unsynced ≡ false → (file number block at : ℕ) → IsFileNumber self.now.book.session self.now.seen file number
            → is_dirty self.now.book.session (take (durable self.now.syncs) self.now.seen) self.now.syncs file block ≡ false → staged_in self.now.pool number block ≡ None
            → source_to (story_of self.now) (durable self.now.syncs) file block ≡ Some at
            → (c : Image) → (D.view self.now.disk).left_since (called (data_syncs self.now.syncs)) c → (n : ℕ) → n ≤ length self.now.seen → HasRecords (list_to (story_of self.now) n) c.log
            → source_to (story_of self.now) n file block ≡ Some at
            → Holds (place number block) (range_to (story_of self.now) (durable self.now.syncs) file block) c.store × (IsUnmatched (list_to (story_of self.now) n) c.store file block → ⊥) }
    {
        let _seen = self.seat.seen();
    }
}
