//! A content in room that was taken before.
ghost use Rattle.std.specs.Prelude.{◌≡◌, ◌≤◌, ◌<◌, ◌+◌, ◌^◌, true, false, List, length, take, fold, get_or, IfOk};
ghost use Rattle.pass_plain.specs.Files.{resized};
ghost use Rattle.pass_leaf.specs.Contents.{laid, with_block};
ghost use Rattle.pass_leaf.specs.Leaves.{Leaf as AnyLeaf};
ghost use Rattle.pass_inputs.specs.Plans.{HasRoom, IsCut, IsShown, IsUpTo, content_at};

use pass_entry::Pnode;
use pass_leaf::{Leaf, Leaves, put_blocks};
use std::alloc::{AllocError, Global};

/// The content of a file with so many of its leaves, the first ones: as many bytes of the room.
#[derive(Drop)]
pub(crate) struct Shown {
    pub(crate) file: Pnode,
    pub(crate) count: usize,
    pub(crate) size: usize,
    pub(crate) room: Vec<u8>,
}

/// Room of that size, which shows the content of no file's leaf.
pub(crate) fn shown_none(alloc: Global, room: usize) -> Result<Shown, AllocError>
    ensures none { IfOk result (λ s. (s.count ≡ 0) × (s.size ≡ 0)) }
    ensures room { IfOk result (λ s. length s.room.items ≡ room) }
{
    Ok(Shown {
        file: Pnode(0),
        count: 0,
        size: 0,
        room: vec![in alloc; 0; room]?,
    })
}

/// Shows the content of a file with its leaves up to that place. From one version of a file to a later one it goes on where it is.
pub(crate) fn show(shown: &mut Shown, leaves: &Leaves, file: Pnode, place: usize)
    requires within { place < length leaves.now }
    requires room { HasRoom leaves.now (length shown.old.room.items) file }
    requires shows { IsShown leaves.now shown.old }
    ensures shows { IsShown leaves.now shown.new }
    ensures content { take shown.new.size shown.new.room.items ≡ content_at leaves.now file place }
    ensures room { length shown.new.room.items ≡ length shown.old.room.items }
{
    let list = leaves.list();
    let places = leaves.places(file);
    begin(shown, places, file, place);
    'walk: while comes(places, shown.count, place) {
        follow(shown, &list[places[shown.count]]);
    }
}

// Begins with no leaf, unless some of the file's leaves up to that place are shown.
fn begin(shown: &mut Shown, places: &[usize], file: Pnode, place: usize)
    requires count { shown.old.file ≡ file → shown.old.count ≤ length places.now }
    ensures file { shown.new.file ≡ file }
    ensures up_to { IsUpTo places.now shown.new.count place }
    ensures room { shown.new.room.items ≡ shown.old.room.items }
    ensures shows { (leaves : List AnyLeaf) → IsShown leaves shown.old → IsShown leaves shown.new }
{
    if shown.file != file || is_past(places, shown.count, place) {
        shown.file = file;
        shown.count = 0;
        shown.size = 0;
    }
}

// The last of so many places is behind that place.
fn is_past(places: &[usize], count: usize, place: usize) -> bool
    requires { count ≤ length places.now }
    ensures { result ≡ false → IsUpTo places.now count place }
{
    count > 0 && place < places[count - 1]
}

// The place behind so many is that place or before it.
fn comes(places: &[usize], count: usize, place: usize) -> bool
    ensures comes { result ≡ true → (count < length places.now) × (get_or places.now count 0 ≤ place) }
    ensures cut { result ≡ false → IsCut places.now count place }
{
    match places.get(count) {
        Some(at) => *at <= place,
        None => false,
    }
}

// Shows the content with the file's next leaf.
fn follow(shown: &mut Shown, leaf: &Leaf)
    requires count { shown.old.count < 2 ^ 63 }
    requires size { shown.old.size ≤ length shown.old.room.items }
    requires fits { leaf.now.size ≤ length shown.old.room.items }
    ensures file { shown.new.file ≡ shown.old.file }
    ensures count { shown.new.count ≡ shown.old.count + 1 }
    ensures size { shown.new.size ≤ length shown.old.room.items }
    ensures content { take shown.new.size shown.new.room.items ≡ laid (take shown.old.size shown.old.room.items) leaf.now }
    ensures room { length shown.new.room.items ≡ length shown.old.room.items }
{
    shown.count += 1;
    shown.size = lay_over(&mut shown.room, shown.size, leaf);
}

// Makes of the content that has so many of these bytes that of the file's next leaf, and answers how many it has.
fn lay_over(room: &mut [u8], size: usize, leaf: &Leaf) -> usize
    requires size { size ≤ length room.old }
    requires fits { leaf.now.size ≤ length room.old }
    ensures size { result ≡ leaf.now.size }
    ensures content { take result room.new ≡ laid (take size room.old) leaf.now }
    ensures room { length room.new ≡ length room.old }
{
    let new = leaf.size() as usize;
    resize_over(room, size, new);
    put_over(room, new, leaf);
    new
}

// Cuts the content that has so many of these bytes, or fills it with zeros.
fn resize_over(room: &mut [u8], size: usize, new: usize)
    requires size { size ≤ length room.old }
    requires fits { new ≤ length room.old }
    ensures content { take new room.new ≡ resized (take size room.old) new }
    ensures room { length room.new ≡ length room.old }
{
    if size < new {
        room[size..new].fill(0);
    }
}

// Puts the leaf's blocks over the content that has so many of these bytes.
fn put_over(room: &mut [u8], size: usize, leaf: &Leaf)
    requires size { size ≡ leaf.now.size }
    requires fits { size ≤ length room.old }
    ensures content { take size room.new ≡ fold with_block (take size room.old) leaf.now.blocks }
    ensures room { length room.new ≡ length room.old }
{
    put_blocks(&mut room[..size], leaf);
}
