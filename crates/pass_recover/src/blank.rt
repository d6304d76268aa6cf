//! The files and app objects of a list, before any bytes are read.
ghost use Rattle.std.specs.Prelude.{◌≡◌, ◌+◌, ◌<◌, ◌^◌, IfOk, [], map, replicate};
ghost use Rattle.std.specs.Option.{option_map_or};
ghost use Rattle.pass_graph.specs.Logged.{Summarizes, name_in};
ghost use Rattle.pass_range.specs.Rows.{file_made};
ghost use Rattle.pass_range.specs.Tables.{IsTableOf, file_in};
ghost use Rattle.pass_recover.specs.Starts.{app_made, apps_of, current_node};
ghost use Rattle.pass_recover.specs.Fills.{AreFilled};

use pass_entry::{Kind, Node, Pnode, Record};
use pass_graph::Logged;
use pass_plain::StartFile;
use pass_range::Table;
use std::alloc::{AllocError, Global};

// The file that a record makes.
fn made_file(one: &Record) -> Option<Pnode>
    ensures { result ≡ file_made one.now }
{
    match one {
        Record::Object {
            pnode,
            kind: Kind::File,
        } => Some(*pnode),
        _ => None,
    }
}

// The app object that a record makes.
fn made_app(one: &Record) -> Option<Pnode>
    ensures { result ≡ app_made one.now }
{
    match one {
        Record::Object {
            pnode,
            kind: Kind::App,
        } => Some(*pnode),
        _ => None,
    }
}

/// The files of a list in the order in which they were made, with zero bytes and no rows.
pub fn blank_files(
    alloc: Global,
    list: &[Record],
    logged: &Logged,
    table: &Table,
) -> Result<Vec<StartFile>, AllocError>
    requires says { Summarizes logged.now list.now }
    requires table { IsTableOf list.now table.now }
    ensures { IfOk result (λ files. AreFilled list.now [] files.items) }
{
    let mut files = Vec::new(alloc);
    for one in list {
        if let Some(pnode) = made_file(one) {
            let mut file = blank_file(alloc, pnode, table)?;
            file.node.version = logged.version(pnode);
            file.name = logged.name(pnode)?;
            files.push(file)?;
        }
    }
    Ok(files)
}

// A new file with as many zero bytes as the table says.
fn blank_file(alloc: Global, pnode: Pnode, table: &Table) -> Result<StartFile, AllocError>
    ensures node { IfOk result (λ file. file.node ≡ record { pnode = pnode; version = 1 }) }
    ensures name { IfOk result (λ file. file.name ≡ name_in []) }
    ensures size { IfOk result (λ file. file.size ≡ option_map_or (λ f. f.size) (file_in table.now pnode) 0) }
    ensures rows { IfOk result (λ file. file.rows.items ≡ []) }
    ensures bytes { IfOk result (λ file. file.bytes.items ≡ replicate file.size 0) }
{
    let size = table.file(pnode).map_or(0, |file| file.size);
    let mut bytes = Vec::new(alloc);
    bytes.resize(size as usize, 0)?;
    Ok(StartFile {
        node: Node { pnode, version: 1 },
        name: None,
        size,
        rows: Vec::new(alloc),
        bytes,
    })
}

/// The app objects of a list in the order in which they were made, with their current versions.
pub fn current_apps(
    alloc: Global,
    list: &[Record],
    logged: &Logged,
) -> Result<Vec<Node>, AllocError>
    requires { Summarizes logged.now list.now }
    ensures { IfOk result (λ apps. apps.items ≡ map (current_node list.now) (apps_of list.now)) }
{
    let mut apps = Vec::new(alloc);
    for one in list {
        if let Some(pnode) = made_app(one) {
            apps.push(Node {
                pnode,
                version: logged.version(pnode),
            })?;
        }
    }
    Ok(apps)
}
