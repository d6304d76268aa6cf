//! What the user of a folder should know of it.
ghost use Rattle.std.specs.Prelude.{◌≡◌};
ghost use Rattle.pass_host.specs.Front.{note_of};

use crate::aside::Copies;
use crate::front::Found;
use std::fmt;
use std::fmt::{Display, Formatter};

/// What the user of a folder should know of it, since its name may be mistaken.
#[derive(Clone, Copy, PartialEq, Eq)]
pub enum Note {
    /// Files that no store wrote were copied aside.
    Copied(Copies),
    /// There is no log, or one without a byte.
    NoStore,
    /// The log is one that no store wrote.
    OtherLog,
}

/// What a holder that only reads should know.
pub fn note_of(found: Found) -> Option<Note>
    ensures { result ≡ note_of found }
{
    match found {
        Found::Nothing => Some(Note::NoStore),
        Found::Store => None,
        Found::Other => Some(Note::OtherLog),
    }
}

impl Display for Note {
    fn fmt<W: fmt::Write>(&self, f: &mut Formatter<W>) -> fmt::Result {
        match self {
            Note::Copied(copies) => write!(f, "{copies}"),
            Note::NoStore => f.write_str("no store is in it yet: see how the folder is spelled"),
            Note::OtherLog => {
                f.write_str("its `log` is no store's: see how the folder is spelled")
            }
        }
    }
}
