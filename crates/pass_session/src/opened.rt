//! A session that was opened, before its locks.
ghost use Rattle.std.specs.Prelude.{◌≡◌, ◌+◌};
ghost use Rattle.pass_session.specs.Sessions.{OpenedView, IsReady};

use crate::ground::Ground;
use crate::held::{Begun, Held, set_up};
use crate::objects::Laid;
use pass_entry::Record;
use pass_hold::Whose;
use pass_log::LogImage;
use pass_outside::Disk;
use pass_plain::Start;
use pass_vault::Vault;
use std::alloc::Global;
use std::marker::Model;

/// A session that was opened over a disk: its ceiling is written, and it has no entry yet. Which book it is, isn't named yet: a
/// caller picks that by `with`.
#[derive(Drop)]
pub struct Opened<D: Disk> {
    ground: Ground,
    vault: Vault<D>,
    list: Vec<Record>,
    start: Start,
    opened: u64,
}

impl<D: Disk> Model for Opened<D> {
    ghost use Rattle.std.specs.Coded.{codes, coded_ℕ, coded_list};
    ghost use Rattle.lru.specs.LruCache.{lru_cache_code};
    ghost use Rattle.pass_pool.specs.contracts.pool.FileBlock as block_type;
    ghost use Rattle.pass_entry.specs.contracts.entry.Entry as entry_type;
    ghost use Rattle.pass_entry.specs.contracts.record.Record as record_type;
    ghost use Rattle.pass_plain.specs.contracts.start.Start as start_type;
    ghost use Rattle.pass_session.specs.Sessions.{OpenedView, IsReady};

    ghost Value = { OpenedView D };

    ghost coded = { Prim.hlevel (codes, entry_type.the_row.coded, record_type.the_row.coded, start_type.the_row.coded, lru_cache_code block_type.the_row.coded (coded_list coded_ℕ)) };

    ghost view = { λ o. record { vault = o.vault; places = o.ground.book.places } };

    ghost invariant = { λ o. IsReady D.view o.ground o.vault o.start o.list.items o.opened };
}

impl<D: Disk> Opened<D> {
    ghost use Rattle.std.specs.Prelude.{◌≡◌, ℕ, ◌+◌, ◌-◌, ◌≤◌, ◌^◌, [], map, None, IfOk, IfErr, OnOk};
    ghost use Rattle.std.specs.List.{range_with_len};
    ghost use Rattle.pass_plain.specs.Processes.{new_process};
    ghost use Rattle.pass_plain.specs.Outlines.{SameButBytes};
    ghost use Rattle.pass_plain.specs.Sessions.{opening_version};
    ghost use Rattle.pass_session.specs.Layouts.{first_process, first_entries, file_views, app_view};
    ghost use Rattle.pass_session.specs.Openings.{IsBare};

    /// A session whose ceiling was just written.
    pub(crate) fn new(
        ground: Ground,
        vault: Vault<D>,
        image: LogImage,
        start: Start,
        opened: u64,
    ) -> Opened<D>
        requires { IsReady D.view ground vault start image.list.items opened }
        ensures { result ≡ record { vault = vault; places = ground.book.places } }
    {
        let LogImage { list, .. } = image;
        Opened {
            ground,
            vault,
            list,
            start,
            opened,
        }
    }

    /// Gives the disk back, where no store is made of the session. Its ceiling stands there.
    pub fn into_disk(self) -> D
        ensures { result ≡ self.vault.disk }
    {
        let Opened { vault, .. } = self;
        let (disk, _syncs) = vault.into_disk();
        disk
    }

    /// Lays out what is to lie under the locks of a store, which has the book's name, and makes the first entry. It is refused for
    /// want of memory alone, before that entry, and the disk comes back.
    pub fn with<J: Whose>(self, alloc: Global) -> Result<Held<J, D>, D>
        requires book { self.vault.book ≡ J.book }
        requires places { self.places ≡ J.places }
        ensures shelf { IfOk result (λ h. h.shelf ≡ record { book = J.book; history = first_entries J.book.session.start; syncs = h.shelf.syncs; places = J.places; claimed = 65; kept = 0 }) }
        ensures vault { IfOk result (λ h. h.vault ≡ self.vault) }
        // The vault has seen nothing yet, and no device call has failed since it was opened.
        ensures fresh { IfOk result (λ h. (h.vault.seen ≡ []) × (h.vault.syncs ≡ [])) }
        ensures healthy { IfOk result (λ h. (D.view h.vault.disk).faults ≡ h.vault.opened) }
        ensures low { OnOk result ((object : ℕ) → opening_version J.book.session.start object ≤ 2 ^ 35) }
        ensures registry { IfOk result (λ h. h.registry ≡ record { seen = first_entries J.book.session.start; room = 0 }) }
        ensures files { IfOk result (λ h. h.files.items ≡ file_views 0 J.book.session.start.files.items) }
        ensures apps { IfOk result (λ h. h.apps.items ≡ map app_view J.book.session.start.apps.items) }
        ensures blanks { IfOk result (λ h. h.blanks.items ≡ range_with_len (first_process J.book.session.start + 1) (J.book.session.objects - 1)) }
        // The first process has begun, and has made no call.
        ensures first { IfOk result (λ h. (h.first.who ≡ first_process J.book.session.start) × (h.first.number ≡ 0) × (h.first.way ≡ None)) }
        ensures first_seen { IfOk result (λ h. h.first.seen ≡ first_entries J.book.session.start) }
        ensures first_state { IfOk result (λ h. h.first.state ≡ new_process) }
        ensures living { IfOk result (λ h. h.living.who ≡ first_process J.book.session.start) }
        ensures list { IfOk result (λ h. h.list.items ≡ self.vault.before) }
        ensures start { IfOk result (λ h. SameButBytes h.start J.book.session.start × IsBare h.start) }
        ensures opened { IfOk result (λ h. h.opened ≡ self.vault.opened) }
        ensures disk { IfErr result (λ disk. disk ≡ self.vault.disk) }
    {
        let Opened {
            ground,
            vault,
            list,
            start,
            opened,
        } = self;
        let Ok((laid, begun)) = set_up::<J>(alloc, ground, start) else {
            let (disk, _syncs) = vault.into_disk();
            return Err(disk);
        };
        let Laid {
            start,
            files,
            apps,
            blanks,
        } = laid;
        let Begun {
            shelf,
            registry,
            first,
            living,
        } = begun;
        Ok(Held {
            shelf,
            vault,
            registry,
            files,
            apps,
            blanks,
            first,
            living,
            list,
            start,
            opened,
        })
    }
}
