//! Places of the history that are kept free for a call, with what the call brings to its entries.
ghost use Rattle.std.specs.Prelude.{◌≡◌, []};

use crate::tokens::{Last, Line};
use crate::view::View;
use atomic_table::Badge;
use pass_entry::{Node, Record};
use std::alloc::Global;
use std::marker::Model;

/// The records of an entry, in the order of the fields; an input is its target and its source.
#[derive(Drop)]
pub struct Slip {
    pub version: Option<Node>,
    pub input: Option<(Node, Node)>,
    pub rest: Vec<Record>,
}

impl Model for Slip {
    ghost use Rattle.std.specs.Prelude.{List};
    ghost use Rattle.pass_entry.specs.declared.record.Record.{Record};
    ghost use Rattle.pass_book.specs.Slips.{slip_records};

    ghost Value = { List Record };

    ghost view = { λ s. slip_records s.version s.input s.rest.items };
}

impl Slip {
    /// It has no records. It takes no memory.
    pub fn new(alloc: Global) -> Slip
        ensures { result ≡ [] }
    {
        Slip {
            version: None,
            input: None,
            rest: Vec::new(alloc),
        }
    }
}

/// A number of places that are kept free.
#[derive(Drop)]
pub struct Tally {
    pub(crate) badge: Badge<View>,
    pub(crate) unused: u32,
}

impl Model for Tally {
    ghost use Rattle.std.specs.Coded.{codes};
    ghost use Rattle.pass_entry.specs.contracts.entry.Entry as entry_type;
    ghost use Rattle.pass_plain.specs.contracts.start.Start as start_type;
    ghost use Rattle.pass_book.specs.Tokens.{TallyState, tally_of, IsClaim};

    ghost Value = { TallyState };

    ghost coded = { Prim.hlevel (codes, entry_type.the_row.coded, start_type.the_row.coded) };

    ghost view = { λ t. tally_of t.badge.table_id t.badge.views t.unused };

    ghost invariant = { λ t. IsClaim t.badge.views t.unused };
}

/// Places that are kept free for a call: with them lie its caller's line, the last of its process where it ends it, and the
/// records of its next entry.
#[derive(Drop)]
pub struct Claim {
    pub line: Option<Line>,
    pub last: Option<Last>,
    pub slip: Slip,
    pub(crate) tally: Tally,
}

impl Model for Claim {
    ghost use Rattle.std.specs.Coded.{codes};
    ghost use Rattle.pass_entry.specs.contracts.entry.Entry as entry_type;
    ghost use Rattle.pass_plain.specs.contracts.start.Start as start_type;
    ghost use Rattle.pass_book.specs.Tokens.{ClaimState, claim_with};

    ghost Value = { ClaimState };

    ghost coded = { Prim.hlevel (codes, entry_type.the_row.coded, start_type.the_row.coded) };

    ghost view = { λ c. claim_with c.tally c.line c.last c.slip };
}

impl Claim {
    /// How many places are left of it.
    pub fn unused(&self) -> u32
        ensures { result ≡ self.now.unused }
    {
        self.tally.unused
    }
}

/// Fewer places are left than are needed.
#[derive(Clone, Copy, PartialEq, Eq)]
pub struct Full {
    pub left: u32,
    pub need: u32,
}
