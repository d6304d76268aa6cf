//! The names of files, seen as the map from each name to its file.
ghost use Rattle.std.specs.Prelude.{◌≡◌, ◌≤◌, ◌<◌, ◌+◌, ◌-◌, IfOk, OnOk, OnErr, Some, None, length, filter_map, vec_len, vec_capacity};
ghost use Rattle.std.specs.FinMap as finite_map;
ghost use Rattle.std.specs.List.Sorted.{IsSearchInRange};
ghost use Rattle.std.specs.Ordering.{nat_cmp};
ghost use Rattle.std.specs.Cmp.Lexicographic.{slice_cmp};
ghost use Rattle.pass_plain.specs.Registries.{named_file, renamed};
ghost use Rattle.pass_registry.specs.Outcomes.{displaced};
ghost use Rattle.pass_registry.specs.Places.{IsAscending, IsPlaceOf, IsNamedOnce, without};

use pass_entry::{Pnode, Text};
use pass_plain::StartFile;
use std::alloc::{AllocError, Global};
use std::cmp::Ordering;
use std::marker::Model;

/// Entries in the order of their names' bytes. A name that goes frees its place at once, so that a renaming takes no memory.
#[derive(Drop)]
pub struct Names {
    entries: Vec<(Text, Pnode)>,
    room: u32,
}

impl Model for Names {
    ghost use Rattle.std.specs.Prelude.{◌≤◌, ◌+◌, length, vec_capacity};
    ghost use Rattle.std.specs.FinMap as finite_map;
    ghost use Rattle.pass_registry.specs.Places.{NameState, IsAscending, map_of};
    ghost use Rattle.std.specs.Coded.{codes, coded_ℕ, coded_list};
    ghost use Rattle.std.specs.Ordering.{nat_cmp};
    ghost use Rattle.std.specs.Cmp.Lexicographic.{slice_cmp};

    ghost Value = { NameState };

    ghost coded = { Prim.hlevel (codes, finite_map.code {R = slice_cmp nat_cmp} (coded_list coded_ℕ) coded_ℕ) };

    ghost view = { λ n. record { names = map_of n.entries.items; room = n.room } };

    ghost invariant = { λ n. IsAscending n.entries.items × (length n.entries.items + n.room ≤ vec_capacity n.entries) };
}

fn order(a: &Text, b: &Text) -> Ordering
    ensures { result ≡ slice_cmp nat_cmp a.now b.now }
{
    a.as_bytes().cmp(b.as_bytes())
}

/// Where the name stands among entries in order, or where it would.
fn place_of(entries: &[(Text, Pnode)], name: &Text) -> Result<usize, usize>
    requires { IsAscending entries.now }
    ensures within { IsSearchInRange result (length entries.now) }
    ensures place { IsPlaceOf name.now entries.now result }
{
    entries.binary_search_by(|entry| order(&entry.0, name))
}

/// Puts a name that isn't there in its place, within the vector's capacity.
fn put_in(entries: &mut Vec<(Text, Pnode)>, name: Text, file: Pnode)
    requires ascending { IsAscending entries.old.items }
    requires room { vec_len entries.old < vec_capacity entries.old }
    requires free { finite_map.find (slice_cmp nat_cmp) name entries.old.items ≡ None }
    ensures items { entries.new.items ≡ finite_map.put (slice_cmp nat_cmp) name file entries.old.items }
    ensures capacity { vec_capacity entries.old ≤ vec_capacity entries.new }
{
    if let Err(place) = place_of(entries, &name) {
        let _ = entries.insert(place, (name, file));
    }
}

/// Takes a name out, and answers its file.
fn take_out(entries: &mut Vec<(Text, Pnode)>, name: &Text) -> Option<Pnode>
    requires { IsAscending entries.old.items }
    ensures answer { result ≡ finite_map.find (slice_cmp nat_cmp) name.now entries.old.items }
    ensures items { entries.new.items ≡ without name.now entries.old.items }
    ensures capacity { vec_capacity entries.new ≡ vec_capacity entries.old }
{
    match place_of(entries, name) {
        Ok(place) => {
            let (name, file) = entries.remove(place);
            drop(name);
            Some(file)
        }
        Err(_) => None,
    }
}

impl Names {
    /// The names of the files that an opening gives, of which no two are the same.
    pub fn of_files(alloc: Global, files: &[StartFile]) -> Result<Names, AllocError>
        requires { IsNamedOnce files.now }
        ensures { IfOk result (λ n. n ≡ record { names = finite_map.from_entries (filter_map named_file files.now); room = 0 }) }
    {
        let mut entries = Vec::with_capacity(alloc, files.len())?;
        for file in files {
            if let Some(name) = &file.name {
                put_in(&mut entries, name.clone()?, file.node.pnode);
            }
        }
        Ok(Names { entries, room: 0 })
    }

    /// Makes room for a name.
    pub fn reserve(&mut self) -> Result<(), AllocError>
        ensures room { OnOk result (1 ≤ self.new.room) }
        ensures same { self.new ≡ record self.old { room = self.new.room } }
        ensures grows { self.old.room ≤ self.new.room }
        ensures err { OnErr result (self.new ≡ self.old) }
    {
        if self.room == 0 {
            self.entries.reserve(1)?;
            self.room = 1;
        }
        Ok(())
    }

    /// The file of a name.
    pub fn find(&self, name: &Text) -> Option<Pnode>
        ensures { result ≡ finite_map.get self.now.names name.now }
    {
        match place_of(&self.entries, name) {
            Ok(place) => Some(self.entries[place].1),
            Err(_) => None,
        }
    }

    /// Gives a name that no file has to a file.
    pub fn insert(&mut self, name: Text, file: Pnode)
        requires room { 1 ≤ self.old.room }
        requires free { finite_map.get self.old.names name ≡ None }
        ensures { self.new ≡ record { names = finite_map.insert self.old.names name file; room = self.old.room - 1 } }
    {
        self.room -= 1;
        put_in(&mut self.entries, name, file);
    }

    /// Takes a name from its file, which is answered.
    pub fn remove(&mut self, name: &Text) -> Option<Pnode>
        ensures answer { result ≡ finite_map.get self.old.names name.now }
        ensures names { self.new ≡ record self.old { names = finite_map.remove self.old.names name.now } }
    {
        take_out(&mut self.entries, name)
    }

    /// The file that has the first name gets the second in its place. The answer is another file that had that one.
    pub fn rename(&mut self, from: &Text, to: Text, file: Pnode) -> Option<Pnode>
        requires { finite_map.get self.old.names from.now ≡ Some file }
        ensures answer { result ≡ displaced self.old.names from.now to }
        ensures names { self.new ≡ record self.old { names = renamed self.old.names from.now to } }
    {
        take_out(&mut self.entries, from);
        let lost = take_out(&mut self.entries, &to);
        put_in(&mut self.entries, to, file);
        lost
    }
}
