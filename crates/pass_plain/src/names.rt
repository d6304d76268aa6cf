//! The names of files, seen as the map from each name to its file.
ghost use Rattle.std.specs.Prelude.{◌≡◌, OnOk, OnErr, IfOk, filter_map};
ghost use Rattle.std.specs.FinMap as finite_map;
ghost use Rattle.std.specs.Ordering.{nat_cmp, eq_by_cmp};
ghost use Rattle.std.specs.Cmp.Lexicographic.{slice_cmp};
ghost use Rattle.pass_plain.specs.Registries.{named_file, renamed};

use crate::start::StartFile;
use pass_entry::{Pnode, Text};
use std::alloc::{AllocError, Global};
use std::collections::VecDeque;
use std::marker::Model;

/// The newest name stands first.
#[derive(Drop)]
pub struct Names {
    log: VecDeque<(Text, Pnode)>,
}

impl Model for Names {
    ghost use Rattle.std.specs.Prelude.{ℕ};
    ghost use Rattle.std.specs.Ordering.{nat_cmp};
    ghost use Rattle.std.specs.Cmp.Lexicographic.{slice_cmp};
    ghost use Rattle.std.specs.FinMap as finite_map;
    ghost use Rattle.std.specs.Coded.{coded_ℕ, coded_list};

    ghost Value = { finite_map.FinMap (slice_cmp nat_cmp) ℕ };

    ghost coded = { finite_map.code (coded_list coded_ℕ) coded_ℕ };

    ghost view = { λ n. finite_map.from_entries n.log.items };
}

fn same_text(a: &Text, b: &Text) -> bool
    ensures { result ≡ eq_by_cmp (slice_cmp nat_cmp) a.now b.now }
{
    a.as_bytes() == b.as_bytes()
}

impl Names {
    /// The names of the files that an opening gives.
    pub fn of_files(alloc: Global, files: &[StartFile]) -> Result<Names, AllocError>
        ensures { IfOk result (λ n. n ≡ finite_map.from_entries (filter_map named_file files.now)) }
    {
        let mut log = VecDeque::new(alloc);
        for file in files {
            match &file.name {
                Some(name) => log.push_back((name.clone()?, file.node.pnode))?,
                None => {}
            }
        }
        Ok(Names { log })
    }

    /// The file of this name.
    pub fn get(&self, name: &Text) -> Option<Pnode>
        ensures { result ≡ finite_map.get self.now name.now }
    {
        for (key, file) in &self.log {
            if same_text(name, key) {
                return Some(*file);
            }
        }
        None
    }

    /// No file has the name any more.
    pub fn remove(&mut self, name: &Text)
        ensures { self.new ≡ finite_map.remove self.old name.now }
    {
        self.log.retain(|entry| !same_text(name, &entry.0));
    }

    /// The name gets the file.
    pub fn insert(&mut self, name: Text, file: Pnode) -> Result<(), AllocError>
        ensures { OnOk result (self.new ≡ finite_map.insert self.old name file) }
    {
        self.log.push_front((name, file))?;
        Ok(())
    }

    /// The file that has the first name, if there is one, gets the second in its place.
    pub fn rename(&mut self, from: &Text, to: &Text) -> Result<(), AllocError>
        ensures { OnOk result (self.new ≡ renamed self.old from.now to.now) }
    {
        if let Some(file) = self.get(from) {
            let name = to.clone()?;
            self.remove(from);
            self.remove(to);
            self.insert(name, file)?;
        }
        Ok(())
    }
}
