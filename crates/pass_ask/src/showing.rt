//! The call of the program that shows graphs.
ghost use Rattle.std.specs.Prelude.{◌&&◌, ◌≡◌, ◌≢◌, ◌↔◌, None, Option, Some, if◌then◌else◌, map, string_bytes};
ghost use Rattle.pass_outside.specs.Faults.{HasRisen};
ghost use Rattle.pass_recover.specs.Later.{IsLater, IsLeftAlone};
ghost use Rattle.pass_ask.specs.Asked.{IsAsked, IsPut};
ghost use Rattle.pass_files.specs.declared.spelled.Spelled.{Spelled};
ghost use Rattle.pass_ask.specs.Shown.{form_in, is_csv, is_flag, is_store_flag, part_of, picture_in, plain_in, shown_in, table_in, table_of, whole_of};
ghost use Rattle.pass_ask.specs.Telling.{spelled_in};
ghost use Rattle.pass_ask.specs.Words.{Reads};

use crate::asking::{Asked, ask_for};
use crate::store_name::StoreName;
use crate::telling::spelled_in;
use crate::words::{GraphQuestion, Question};
use pass_files::Spelled;
use pass_outside::{Disk, Sink};
use pass_status::Status;
use pass_view::{Form, Table};
use std::alloc::{AllocError, Global};

/// Shows the graph of a store, or what a node came from, and writes nothing to its disk. `folder` is the word that gives the
/// store's folder, and `words` are the words of passview behind it.
pub fn show<K: Sink, D: Disk>(
    alloc: Global,
    folder: &str,
    words: &[String],
    sink: &mut K,
    disk: D,
) -> Asked<D>
    ensures answer { result.status ≢ Status.NoMemory → IsAsked (shown_in folder.now (map string_bytes words.now)) (D.view disk) (D.view result.disk)
        (record { tells = K.tells; before = K.taken sink.old; after = K.taken sink.new }) result.status }
    ensures write_fault { result.status ≢ Status.NoMemory → (result.status ≡ Status.WriteFault
        ↔ HasRisen (K.fault_count sink.old) (K.fault_count sink.new)) }
    ensures unwritten { result.status ≡ Status.NoMemory → sink.new ≡ sink.old }
    ensures unopened { ¬ IsPut (shown_in folder.now (map string_bytes words.now)) → result.disk ≡ disk }
    // Nothing is written to the disk.
    ensures alone { IsLeftAlone (D.view disk) (D.view result.disk) }
    ensures later { IsLater (D.view disk) (D.view result.disk) }
{
    let question = shown_in(alloc, folder.as_bytes(), words);
    ask_for(alloc, question, sink, disk)
}

// What the words ask to be shown.
#[tactic(auto, using(crate::proofs::Shown::none_shown, crate::proofs::Shown::too_many_shown))]
fn shown_in(alloc: Global, folder: &[u8], words: &[String]) -> Result<Question, Status>
    ensures { Reads result (shown_in folder.now (map string_bytes words.now)) }
{
    match words {
        [] => Err(Status::BadWords),
        [form] => whole_of(form_in(form.as_str().as_bytes())),
        [form, word] => shown_by(
            alloc,
            folder,
            form.as_str().as_bytes(),
            word.as_str().as_bytes(),
        ),
        [form, node, word] => plain_part(
            alloc,
            form.as_str().as_bytes(),
            node.as_str().as_bytes(),
            word.as_str().as_bytes(),
        ),
        [form, table, flag, name] => named_table(
            alloc,
            form.as_str().as_bytes(),
            table.as_str().as_bytes(),
            flag.as_str().as_bytes(),
            name.as_str().as_bytes(),
        ),
        [_, _, _, _, _, ..] => Err(Status::BadWords),
    }
}

// A table of the store in the folder, or a picture.
fn shown_by(alloc: Global, folder: &[u8], form: &[u8], word: &[u8]) -> Result<Question, Status>
    ensures { Reads result (if is_csv form.now then table_of (table_in word.now) folder.now else picture_in form.now word.now) }
{
    if is_csv(form) {
        table_of(alloc, table_in(word), folder)
    } else {
        picture_in(alloc, form, word)
    }
}

// Behind the form a flag, or the node.
fn picture_in(alloc: Global, form: &[u8], word: &[u8]) -> Result<Question, Status>
    ensures { Reads result (picture_in form.now word.now) }
{
    if is_flag(word) {
        whole_of(plain_in(form))
    } else {
        part_of(form_in(form), spelled_in(alloc, word))
    }
}

// Behind the form the node, and then the flag.
fn plain_part(alloc: Global, form: &[u8], node: &[u8], word: &[u8]) -> Result<Question, Status>
    ensures { Reads result (if is_flag word.now then part_of (plain_in form.now) (spelled_in node.now) else None) }
{
    if is_flag(word) {
        part_of(plain_in(form), spelled_in(alloc, node))
    } else {
        Err(Status::BadWords)
    }
}

fn is_flag(word: &[u8]) -> bool
    ensures { result ≡ is_flag word.now }
{
    word == b"--plain".as_slice()
}

// The form that the flag behind the word makes of it.
fn plain_in(word: &[u8]) -> Option<Form>
    ensures { result ≡ plain_in word.now }
{
    if word == b"dot".as_slice() {
        Some(Form::Plain)
    } else {
        None
    }
}

// The form that the word names.
fn form_in(word: &[u8]) -> Option<Form>
    ensures { result ≡ form_in word.now }
{
    if word == b"dot".as_slice() {
        Some(Form::Dot)
    } else if word == b"prov".as_slice() {
        Some(Form::Prov)
    } else {
        None
    }
}

// The whole graph.
fn whole_of(form: Option<Form>) -> Result<Question, Status>
    ensures { Reads result (whole_of form) }
{
    match form {
        Some(form) => Ok(Question::Graph(GraphQuestion::View { form, node: None })),
        None => Err(Status::BadWords),
    }
}

// What the node came from.
fn part_of(form: Option<Form>, node: Result<Spelled, Status>) -> Result<Question, Status>
    ensures { (read : Option Spelled) → Reads node read → Reads result (part_of form read) }
{
    match form {
        Some(form) => view_of(form, node),
        None => Err(Status::BadWords),
    }
}

fn view_of(form: Form, node: Result<Spelled, Status>) -> Result<Question, Status>
    ensures { (read : Option Spelled) → Reads node read → Reads result (part_of (Some form) read) }
{
    match node {
        Ok(node) => Ok(Question::Graph(GraphQuestion::View {
            form,
            node: Some(node),
        })),
        Err(status) => Err(status),
    }
}

// Tables

// A table of the store with this name.
fn named_table(
    alloc: Global,
    form: &[u8],
    table: &[u8],
    flag: &[u8],
    name: &[u8],
) -> Result<Question, Status>
    ensures { Reads result (if is_csv form.now && is_store_flag flag.now then table_of (table_in table.now) name.now else None) }
{
    if is_csv(form) && is_store_flag(flag) {
        table_of(alloc, table_in(table), name)
    } else {
        Err(Status::BadWords)
    }
}

fn is_csv(word: &[u8]) -> bool
    ensures { result ≡ is_csv word.now }
{
    word == b"csv".as_slice()
}

fn is_store_flag(word: &[u8]) -> bool
    ensures { result ≡ is_store_flag word.now }
{
    word == b"--store".as_slice()
}

// The table that the word names.
fn table_in(word: &[u8]) -> Option<Table>
    ensures { result ≡ table_in word.now }
{
    if word == b"nodes".as_slice() {
        Some(Table::Nodes)
    } else if word == b"edges".as_slice() {
        Some(Table::Edges)
    } else {
        None
    }
}

fn table_of(alloc: Global, table: Option<Table>, store: &[u8]) -> Result<Question, Status>
    ensures { Reads result (table_of table store.now) }
{
    let Some(table) = table else {
        return Err(Status::BadWords);
    };
    match StoreName::of(alloc, store) {
        Ok(store) => Ok(Question::Graph(GraphQuestion::Csv { table, store })),
        Err(AllocError) => Err(Status::NoMemory),
    }
}
