//! What is said of a folder that can't be opened: what is wrong, and what to do about it.
use crate::fault::{Cause, HostFault, Part};
use std::fmt;
use std::fmt::{Display, Formatter};

impl Part {
    // How it is named behind the folder.
    fn name(&self) -> &'static str {
        match self {
            Part::Folder => "it",
            Part::Log => "its `log`",
            Part::Data => "its `data`",
            Part::Mark => "its `passd.store`",
            Part::Copy => "a copy of its `log` and `data`",
        }
    }
}

impl Cause {
    fn text(&self) -> &'static str {
        match self {
            Cause::Missing => "isn't there: see how it is spelled, or make it with mkdir",
            Cause::NotFolder => "is no folder: name the folder that holds the store",
            Cause::NotFile => "is no file: name another folder for the store",
            Cause::Denied => "may not be opened: get the right to it, as by chmod",
            Cause::InUse => "is open elsewhere: try again when the other program has ended",
            Cause::ReadOnly => "can't be written there: only questions can be asked of it",
            Cause::Full => "finds no room: free some, or name another folder",
            Cause::Other => "can't be opened or made: see what it is, or name another folder",
        }
    }
}

impl Display for HostFault {
    fn fmt<W: fmt::Write>(&self, f: &mut Formatter<W>) -> fmt::Result {
        match self {
            HostFault::Failed { part, cause } => {
                f.write_str(part.name())?;
                f.write_str(" ")?;
                f.write_str(cause.text())
            }
            HostFault::NoMemory => f.write_str("there is no memory left"),
        }
    }
}
