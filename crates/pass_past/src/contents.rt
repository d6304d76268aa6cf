//! What a walk over a history knows of a file.
ghost use Rattle.std.specs.Prelude.{◌≡◌, [], List, fold, flat_map, IfOk, OnOk};
ghost use Rattle.std.specs.Ordering.{nat_cmp};
ghost use Rattle.std.specs.BTreeSet.{insert_key};
ghost use Rattle.pass_entry.specs.declared.entry.Entry.{Entry as AnyEntry};
ghost use Rattle.pass_plain.specs.declared.start.Start.{Start as AnyStart};
ghost use Rattle.pass_plain.specs.Legal.{session_of};
ghost use Rattle.pass_plain.specs.Recording.{bytes_after, IsRecording};
ghost use Rattle.pass_plain.specs.Registries.{registry_after, same_kind};
ghost use Rattle.pass_entry.specs.declared.objects.Kind.TheVariants as kinds;
ghost use Rattle.pass_past.specs.Pasts.{is_file_in, file_number, file_numbers};
ghost use Rattle.pass_past.specs.Walks.{AreFiles};

use pass_entry::{Kind, Pnode};
use pass_plain::file::opened_bytes;
use pass_plain::{Recording, Start};
use std::alloc::{AllocError, Global};
use std::collections::BTreeSet;

/// The kind is that of a file.
pub(crate) fn is_file_kind(kind: Kind) -> bool
    ensures { result ≡ same_kind kind kinds.File }
{
    match kind {
        Kind::File => true,
        _ => false,
    }
}

// Puts the number of an object into a set, where it is a file.
fn add_file(files: &mut BTreeSet<Pnode>, pnode: Pnode, kind: Kind) -> Result<(), AllocError>
    ensures { OnOk result (files.new.keys ≡ fold (insert_key nat_cmp) files.old.keys (file_number (pnode, kind))) }
{
    if is_file_kind(kind) {
        files.insert(pnode)?;
    }
    Ok(())
}

/// Puts the numbers of the files among objects into a set.
pub(crate) fn add_files(
    files: &mut BTreeSet<Pnode>,
    objects: &[(Pnode, Kind)],
) -> Result<(), AllocError>
    ensures { OnOk result (files.new.keys ≡ fold (insert_key nat_cmp) files.old.keys (flat_map file_number objects.now)) }
{
    for object in objects {
        add_file(files, object.0, object.1)?;
    }
    Ok(())
}

/// The numbers of the files with which a session opens.
pub(crate) fn opened_files(
    alloc: Global,
    recording: &Recording,
) -> Result<BTreeSet<Pnode>, AllocError>
    ensures { IfOk result (λ files. (start : AnyStart) → IsRecording start [] recording.now → AreFiles start [] files) }
{
    let mut files = BTreeSet::new(alloc);
    add_files(&mut files, recording.objects())?;
    Ok(files)
}

/// The numbers of a set, ascending.
pub(crate) fn listed(alloc: Global, files: &BTreeSet<Pnode>) -> Result<Vec<Pnode>, AllocError>
    ensures { IfOk result (λ list. list.items ≡ files.now.keys) }
{
    let mut list = Vec::new(alloc);
    for file in files {
        list.push(*file)?;
    }
    Ok(list)
}

/// The object is a file.
pub(crate) fn is_file(files: &BTreeSet<Pnode>, pnode: Pnode) -> bool
    ensures { (start : AnyStart) (history : List AnyEntry) → AreFiles start history files.now → result ≡ is_file_in (registry_after (session_of start 0) history) pnode }
{
    files.contains(&pnode)
}

/// The content of a file.
pub(crate) fn content<'a>(recording: &'a Recording, start: &'a Start, file: Pnode) -> &'a [u8]
    ensures { (history : List AnyEntry) → IsRecording start.now history recording.now → result.now ≡ bytes_after start.now history file }
{
    match recording.files.get(&file.0) {
        Some(content) => content.bytes.as_slice(),
        None => opened_bytes(start, file),
    }
}
