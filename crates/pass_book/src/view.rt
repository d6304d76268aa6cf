//! What a seat of the table knows. No value of these types is made, but of `Name`: they are what
//! contracts speak of.
use pass_entry::{Entry, Pnode};
use pass_plain::start::Start;
use std::collections::LinkedList;

/// What a seat is.
#[derive(Clone, Copy)]
pub enum Role {
    /// It has the whole history.
    Book,
    /// The right to make entries on one object.
    Desk,
    /// The right to make entries as one process.
    Line,
    /// The right to end one process.
    Last,
    /// It has the whole list of syncs.
    Vault,
    /// Places of the history that are kept free.
    Claim,
    /// What another seat had seen.
    Note,
    /// It was joined into another seat.
    Spent,
}

/// Which seat it is.
#[derive(Clone, Copy)]
pub struct Name {
    pub role: Role,
    /// The object or the process.
    pub number: u64,
    /// Of a line: which thread of its process. A process has one, 0.
    pub strand: u8,
}

/// A file and its number in the data area.
pub struct FileMark {
    pub pnode: Pnode,
    pub number: u32,
}

/// What the vault notes as a flush or a sync of a file ends.
pub struct VaultSync {
    /// The number of calls that the disk has had.
    pub calls: u64,
    /// The number of entries from the history's front whose records are durable.
    pub entries: u64,
    /// The file for whose data it was made, if any.
    pub file: Option<FileMark>,
    /// The blocks that wait to be written later. Of a sync there are none.
    pub staged: Option<LinkedList<u32>>,
}

/// With what a session was opened.
pub struct Opened {
    pub start: Start,
    /// How many objects it may make.
    pub objects: u32,
}

/// A seat that has come back to the book, with what it had seen.
pub struct Folded {
    pub name: Name,
    pub seen: LinkedList<Entry>,
    pub syncs: LinkedList<VaultSync>,
}

pub struct View {
    pub name: Name,
    pub opened: Opened,
    /// A beginning of the history.
    pub seen: LinkedList<Entry>,
    /// A beginning of the vault's list.
    pub syncs: LinkedList<VaultSync>,
    /// Others of both, of which it was told.
    pub told: LinkedList<Entry>,
    pub told_syncs: LinkedList<VaultSync>,
    /// Of the book: the names that are away from it. Of the vault: the desks that it has.
    pub away: LinkedList<Name>,
    /// What has just come back to the book.
    pub folded: LinkedList<Folded>,
    /// How many places are claimed here.
    pub claimed: u64,
    /// Of the book: how many are claimed in all.
    pub pool: u64,
    /// Of a line: how often it has looked at the history, and how long that was the last time.
    pub looks: u64,
    pub looked: u64,
}
