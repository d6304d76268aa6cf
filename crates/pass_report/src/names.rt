//! The names that files have.
ghost use Rattle.std.specs.Prelude.{ℕ, List, [], ◌∷◌, ◌++◌, ◌≡◌, ◌&&◌, ◌||◌, false, not, IfOk, OnOk, if◌then◌else◌};
ghost use Rattle.std.specs.Ordering.{nat_cmp, eq_by_cmp};
ghost use Rattle.std.specs.Cmp.Lexicographic.{slice_cmp};
ghost use Rattle.pass_entry.specs.declared.entry.Entry.{Entry as AnyEntry};
ghost use Rattle.pass_plain.specs.Histories.{is_fault as is_fault_of};
ghost use Rattle.pass_plain.specs.Sessions.{Session};
ghost use Rattle.pass_plain.specs.Legal.{IsLegal, MayFollow};
ghost use Rattle.pass_plain.specs.Outlines.{SameButBytes};
ghost use Rattle.pass_report.specs.Names.{holds, AreNames};

use pass_entry::{Act, Entry, Text};
use pass_plain::Start;
use std::alloc::{AllocError, Global};
use std::collections::BTreeSet;

/// The names that some file has.
#[derive(Drop)]
pub struct Names {
    set: BTreeSet<Text>,
}

impl Names {
    /// Before the first entry.
    pub fn opened(alloc: Global, start: &Start) -> Result<Names, AllocError>
        ensures { IfOk result (λ n. (session : Session) → SameButBytes start.now session.start → AreNames session [] n) }
    {
        let mut names = Names {
            set: BTreeSet::new(alloc),
        };
        for file in &start.files {
            match &file.name {
                Some(name) => names.add(name)?,
                None => {}
            }
        }
        Ok(names)
    }

    /// Some file has the name.
    pub fn contains(&self, name: &Text) -> bool
        ensures { result ≡ holds self.now name.now }
    {
        self.set.contains(name)
    }

    fn add(&mut self, name: &Text) -> Result<(), AllocError>
        ensures { OnOk result ((q : List ℕ) → holds self.new q ≡ (eq_by_cmp (slice_cmp nat_cmp) name.now q || holds self.old q)) }
    {
        let name = name.clone()?;
        self.set.insert(name)?;
        Ok(())
    }

    fn remove(&mut self, name: &Text)
        ensures { (q : List ℕ) → holds self.new q ≡ (not (eq_by_cmp (slice_cmp nat_cmp) name.now q) && holds self.old q) }
    {
        self.set.remove(name);
    }

    // The file of one name gets another, which any other file loses.
    fn rename(&mut self, from: &Text, to: &Text) -> Result<(), AllocError>
        ensures { OnOk result ((q : List ℕ) → holds self.new q ≡ (if holds self.old from.now
            then eq_by_cmp (slice_cmp nat_cmp) to.now q || not (eq_by_cmp (slice_cmp nat_cmp) from.now q) && holds self.old q else holds self.old q)) }
    {
        if self.contains(from) {
            self.remove(from);
            self.add(to)?;
        }
        Ok(())
    }

    /// One more entry that is no fault.
    pub fn note(&mut self, entry: &Entry) -> Result<(), AllocError>
        requires { is_fault_of entry.now.reply ≡ false }
        ensures { OnOk result ((session : Session) (past : List AnyEntry) → IsLegal session past → MayFollow session past entry.now → AreNames session past self.old
            → AreNames session (past ++ entry.now ∷ []) self.new) }
    {
        match &entry.act {
            Act::Bind { name } => self.add(name),
            Act::Move { from, to } => self.rename(from, to),
            Act::Unbind { name } => {
                self.remove(name);
                Ok(())
            }
            _ => Ok(()),
        }
    }
}
