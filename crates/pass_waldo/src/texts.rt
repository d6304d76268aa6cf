//! What a text names: the files that got it as a name, and the attributes of that name.
ghost use Rattle.std.specs.Prelude.{◌≡◌, ℕ, List, [], ◌∷◌, ◌++◌, OnOk, IfOk, IsSome, bytes_eq, if◌then◌else◌};
ghost use Rattle.std.specs.BTreeSet.{insert_key};
ghost use Rattle.std.specs.HashMap.{get_by};
ghost use Rattle.std.specs.List.Sorted.{IsStrictlySortedBy};
ghost use Rattle.std.specs.Ordering.{nat_cmp};
ghost use Rattle.pass_entry.specs.declared.record.Record.{Record};

use crate::sorted::put;
use pass_entry::{Node, Pnode, Record, Text};
use std::alloc::{AllocError, Global};
use std::collections::HashMap;

// The files that got the text as a name, in ascending order, and the values of the attributes of that name, in the order
// in which they were given.
#[derive(Drop)]
struct Row {
    files: Vec<Pnode>,
    values: Vec<(Node, Text)>,
}

#[derive(Drop)]
pub(crate) struct Texts {
    alloc: Global,
    rows: HashMap<Vec<u8>, Row>,
}

impl Texts {
    ghost use Rattle.pass_waldo.specs.Texts.{is_text, files_named, values_of, NameTheSame, HaveSortedFiles, HasFileRoom, HasValueRoom};
    ghost use Rattle.pass_waldo.specs.Index.{AreTexts};

    pub(crate) fn new(alloc: Global) -> Texts
        ensures files { (n : List ℕ) → files_named result n ≡ [] }
        ensures values { (n : List ℕ) → values_of result n ≡ [] }
    {
        Texts {
            alloc,
            rows: HashMap::new(alloc),
        }
    }

    /// What the texts of records name.
    pub(crate) fn of(alloc: Global, records: &[Record]) -> Result<Texts, AllocError>
        ensures { IfOk result (λ texts. AreTexts records.now texts) }
    {
        let mut texts = Texts::new(alloc);
        for one in records {
            texts.note(one)?;
        }
        Ok(texts)
    }

    // Adds what the record says of a text.
    fn note(&mut self, one: &Record) -> Result<(), AllocError>
        requires { HaveSortedFiles self.old }
        ensures { OnOk result ((list : List Record) → AreTexts list self.old → AreTexts (list ++ one.now ∷ []) self.new) }
    {
        match one {
            Record::Name { pnode, name } => self.add_file(name.as_bytes(), *pnode),
            Record::Attr { node, attr, value } => self.add_value(attr.as_bytes(), *node, value),
            _ => Ok(()),
        }
    }

    // Adds the file that got the name.
    fn add_file(&mut self, name: &[u8], file: Pnode) -> Result<(), AllocError>
        requires { HaveSortedFiles self.old }
        ensures files { OnOk result ((n : List ℕ) → files_named self.new n
            ≡ (if bytes_eq name.now n then insert_key nat_cmp (files_named self.old n) file else files_named self.old n)) }
        ensures values { (n : List ℕ) → values_of self.new n ≡ values_of self.old n }
    {
        self.make_file_room(name)?;
        self.put_file(name, file);
        Ok(())
    }

    // Adds a copy of the node's value of the attribute.
    fn add_value(&mut self, attr: &[u8], node: Node, value: &Text) -> Result<(), AllocError>
        ensures values { OnOk result ((n : List ℕ) → values_of self.new n
            ≡ (if bytes_eq attr.now n then values_of self.old n ++ (node, value.now) ∷ [] else values_of self.old n)) }
        ensures files { (n : List ℕ) → files_named self.new n ≡ files_named self.old n }
    {
        let value = value.clone()?;
        self.make_value_room(attr)?;
        self.put_value(attr, node, value);
        Ok(())
    }

    pub(crate) fn files(&self, name: &[u8]) -> &[Pnode]
        ensures { result.now ≡ files_named self.now name.now }
    {
        match self.rows.get(name) {
            Some(row) => row.files.as_slice(),
            None => &[],
        }
    }

    pub(crate) fn values(&self, attr: &[u8]) -> &[(Node, Text)]
        ensures { result.now ≡ values_of self.now attr.now }
    {
        match self.rows.get(attr) {
            Some(row) => row.values.as_slice(),
            None => &[],
        }
    }

    /// Makes room for one more file of the name.
    pub(crate) fn make_file_room(&mut self, name: &[u8]) -> Result<(), AllocError>
        ensures same { NameTheSame self.old self.new }
        ensures room { OnOk result (HasFileRoom self.new name.now) }
    {
        self.make_row(name)?;
        self.widen_files(name)
    }

    /// Makes room for one more value of the attribute.
    pub(crate) fn make_value_room(&mut self, attr: &[u8]) -> Result<(), AllocError>
        ensures same { NameTheSame self.old self.new }
        ensures room { OnOk result (HasValueRoom self.new attr.now) }
    {
        self.make_row(attr)?;
        self.widen_values(attr)
    }

    // The text has a row.
    fn make_row(&mut self, name: &[u8]) -> Result<(), AllocError>
        ensures same { NameTheSame self.old self.new }
        ensures made { OnOk result (IsSome (get_by (is_text name.now) self.new.rows)) }
    {
        if !self.rows.contains_key(name) {
            let key = Vec::from_slice(self.alloc, name)?;
            let row = Row {
                files: Vec::new(self.alloc),
                values: Vec::new(self.alloc),
            };
            self.rows.insert(key, row)?;
        }
        Ok(())
    }

    fn widen_files(&mut self, name: &[u8]) -> Result<(), AllocError>
        requires { IsSome (get_by (is_text name.now) self.old.rows) }
        ensures same { NameTheSame self.old self.new }
        ensures room { OnOk result (HasFileRoom self.new name.now) }
    {
        match self.rows.get_mut(name) {
            Some(row) => row.files.reserve(1),
            None => Ok(()),
        }
    }

    fn widen_values(&mut self, attr: &[u8]) -> Result<(), AllocError>
        requires { IsSome (get_by (is_text attr.now) self.old.rows) }
        ensures same { NameTheSame self.old self.new }
        ensures room { OnOk result (HasValueRoom self.new attr.now) }
    {
        match self.rows.get_mut(attr) {
            Some(row) => row.values.reserve(1),
            None => Ok(()),
        }
    }

    /// The file got the name.
    pub(crate) fn put_file(&mut self, name: &[u8], file: Pnode)
        requires room { HasFileRoom self.old name.now }
        requires sorted { IsStrictlySortedBy nat_cmp (files_named self.old name.now) }
        ensures files { (n : List ℕ) → files_named self.new n
            ≡ (if bytes_eq name.now n then insert_key nat_cmp (files_named self.old n) file else files_named self.old n) }
        ensures values { (n : List ℕ) → values_of self.new n ≡ values_of self.old n }
    {
        if let Some(row) = self.rows.get_mut(name) {
            let _ = put(&mut row.files, file);
        }
    }

    /// The node got the value of the attribute.
    pub(crate) fn put_value(&mut self, attr: &[u8], node: Node, value: Text)
        requires { HasValueRoom self.old attr.now }
        ensures values { (n : List ℕ) → values_of self.new n
            ≡ (if bytes_eq attr.now n then values_of self.old n ++ (node, value) ∷ [] else values_of self.old n) }
        ensures files { (n : List ℕ) → files_named self.new n ≡ files_named self.old n }
    {
        if let Some(row) = self.rows.get_mut(attr) {
            let _ = row.values.push((node, value));
        }
    }
}
