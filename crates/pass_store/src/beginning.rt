//! A store begins, over what a session lays out.
ghost use Rattle.std.specs.Prelude.{◌≡◌, IfOk, IfErr, None};
ghost use Rattle.pass_plain.specs.Processes.{new_process};
ghost use Rattle.pass_plain.specs.Outlines.{SameButBytes};
ghost use Rattle.pass_session.specs.Layouts.{first_process, first_entries};
ghost use Rattle.pass_session.specs.Openings.{IsBare};
ghost use Rattle.pass_safe.specs.Grounds.{HasGoneOn, ground_of};

use crate::store::Store;
use pass_entry::Pnode;
use pass_file::FileDesk;
use pass_flow::{AppDesk, Versioned};
use pass_hold::{Blank, Whose};
use pass_outside::{Disk, Gate};
use pass_proc::{Living, Proc};
use pass_safe::{Opening, Safe};
use pass_session::{Held, Opened};
use pass_slots::{Locks, Slot};
use pass_vault::Vault;
use std::alloc::{AllocError, Global};
use std::collections::{BTreeSet, HashMap};
use std::sync::Mutex;

/// Where the objects of a session lie, each in a lock of its own.
#[derive(Drop)]
struct Layout<J: Whose> {
    slots: Vec<Mutex<Slot<J>>>,
    opened: HashMap<Pnode, usize>,
}

impl<J: Whose> Layout<J> {
    /// Lays an object of the opening into a lock.
    fn lay(&mut self, what: Pnode, object: Slot<J>) -> Result<(), AllocError> {
        let place = self.slots.len();
        self.slots.push(Mutex::new(object))?;
        self.opened.insert(what, place)?;
        Ok(())
    }

    /// Lays the files of the opening into locks.
    fn files(&mut self, files: Vec<FileDesk<J>>) -> Result<(), AllocError> {
        for file in files {
            let what = file.what();
            self.lay(what, Slot::File(file))?;
        }
        Ok(())
    }

    /// Lays its app objects into locks.
    fn apps(&mut self, apps: Vec<AppDesk<J>>) -> Result<(), AllocError> {
        for app in apps {
            let what = app.what();
            self.lay(what, Slot::App(app))?;
        }
        Ok(())
    }

    /// Lays the first process and the objects that may be made into locks.
    fn others(&mut self, first: Living<J>, blanks: Vec<Blank<J>>) -> Result<(), AllocError> {
        self.slots.push(Mutex::new(Slot::Living(first)))?;
        for blank in blanks {
            self.slots.push(Mutex::new(Slot::Blank(blank)))?;
        }
        Ok(())
    }
}

/// A lock for each object of a session.
fn laid<J: Whose>(
    alloc: Global,
    files: Vec<FileDesk<J>>,
    apps: Vec<AppDesk<J>>,
    first: Living<J>,
    blanks: Vec<Blank<J>>,
) -> Result<Layout<J>, AllocError> {
    let mut layout = Layout {
        slots: Vec::new(alloc),
        opened: HashMap::new(alloc),
    };
    layout.files(files)?;
    layout.apps(apps)?;
    layout.others(first, blanks)?;
    Ok(layout)
}

/// The disk of a vault that is used no more.
fn given_back<D: Disk>(vault: Vault<D>) -> D
    ensures { result ≡ vault.disk }
{
    let (disk, syncs) = vault.into_disk();
    drop(syncs);
    disk
}

impl<'g, J: Opening, D: Disk, G: Gate> Store<'g, J, D, G> {
    /// Lays an opened session under locks, and gives its first process. Where memory is refused it gives the disk back, and no entry
    /// was made.
    pub fn begin(
        alloc: Global,
        opened: Opened<D>,
        gate: &'g G,
    ) -> Result<(Store<'g, J, D, G>, Proc<J>), D>
        requires book { opened.vault.book ≡ J.book }
        requires places { opened.places ≡ J.places }
        requires ground { ground_of opened.vault ≡ J.ground }
        requires gone_on { HasGoneOn J.tells J.ground.opened (D.view opened.vault.disk) }
        ensures first { IfOk result (λ r. (r.1.who ≡ first_process J.book.session.start) × (r.1.number ≡ 0) × (r.1.way ≡ None)) }
        ensures seen { IfOk result (λ r. r.1.seen ≡ first_entries J.book.session.start) }
        ensures state { IfOk result (λ r. r.1.state ≡ new_process) }
        ensures list { IfOk result (λ r. r.0.list.items ≡ J.ground.before) }
        ensures start { IfOk result (λ r. SameButBytes r.0.start J.book.session.start × IsBare r.0.start) }
        ensures opened { IfOk result (λ r. r.0.opened ≡ J.ground.opened) }
        ensures disk { IfErr result (λ disk. disk ≡ opened.vault.disk) }
    {
        let Held {
            shelf,
            vault,
            registry,
            files,
            apps,
            blanks,
            first,
            living,
            list,
            start,
            opened,
        } = match opened.with::<J>(alloc) {
            Ok(held) => held,
            Err(disk) => return Err(disk),
        };
        let Ok(layout) = laid(alloc, files, apps, living, blanks) else {
            drop(shelf);
            drop(registry);
            drop(first);
            drop(list);
            drop(start);
            return Err(given_back(vault));
        };
        let Layout {
            slots,
            opened: places,
        } = layout;
        let ceiling = Pnode(start.ceiling);
        let locks = Locks {
            slots,
            opened: places,
            ceiling,
            registry: Mutex::new(registry),
            book: Mutex::new(shelf),
            changed: Mutex::new(BTreeSet::new(alloc)),
            gate,
        };
        let store = Store {
            start,
            list,
            opened,
            locks,
            vault: Mutex::new(Safe::opened(vault)),
        };
        Ok((store, first))
    }
}
