//! What an opening says of one object.
ghost use Rattle.std.specs.Prelude.{◌≡◌};
ghost use Rattle.std.specs.Option.{option_copied};
ghost use Rattle.pass_plain.specs.Sessions.{opened_file as opened_file_of, opened_app as opened_app_of, opening_version as opening_version_of, is_opened as is_opened_of, opening_size as opening_size_of, opening_rows as opening_rows_of};
ghost use Rattle.pass_report.specs.Kinds.{opening_kind as opening_kind_of};

use pass_entry::{Kind, Node, Pnode};
use pass_plain::{Start, StartFile};

fn opened_file(start: &Start, pnode: Pnode) -> Option<&StartFile>
    ensures { option_copied result ≡ opened_file_of start.now pnode }
{
    start.files.iter().find(|file| file.node.pnode == pnode)
}

fn opened_app(start: &Start, pnode: Pnode) -> Option<&Node>
    ensures { option_copied result ≡ opened_app_of start.now pnode }
{
    start.apps.iter().find(|app| app.pnode == pnode)
}

/// The version with which an object begins in the session: 1 for a new one.
pub fn opening_version(start: &Start, pnode: Pnode) -> u64
    ensures { result ≡ opening_version_of start.now pnode }
{
    match opened_file(start, pnode) {
        Some(file) => file.node.version,
        None => match opened_app(start, pnode) {
            Some(app) => app.version,
            None => 1,
        },
    }
}

/// The object is of the opening.
pub fn is_opened(start: &Start, pnode: Pnode) -> bool
    ensures { result ≡ is_opened_of start.now pnode }
{
    opened_file(start, pnode).is_some() || opened_app(start, pnode).is_some()
}

/// The size of a file in the opening, 0 for a new one.
pub fn opening_size(start: &Start, pnode: Pnode) -> u64
    ensures { result ≡ opening_size_of start.now pnode }
{
    match opened_file(start, pnode) {
        Some(file) => file.size,
        None => 0,
    }
}

/// The blocks of a file that have a digest in the opening, none for a new one.
pub fn opening_rows(start: &Start, pnode: Pnode) -> &[u32]
    ensures { result.now ≡ opening_rows_of start.now pnode }
{
    match opened_file(start, pnode) {
        Some(file) => file.rows.as_slice(),
        None => &[],
    }
}

/// The kind of an object of the opening.
pub fn opening_kind(start: &Start, pnode: Pnode) -> Option<Kind>
    ensures { result ≡ opening_kind_of start.now pnode }
{
    if opened_file(start, pnode).is_some() {
        Some(Kind::File)
    } else if opened_app(start, pnode).is_some() {
        Some(Kind::App)
    } else {
        None
    }
}
