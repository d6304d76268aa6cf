//! What a process had seen that has ended, or works no more.
ghost use Rattle.std.specs.Prelude.{◌≡◌, None, Some};
ghost use mathlib.Core.List.{IsPrefix};
ghost use Rattle.pass_plain.specs.Lawful.{AgreeBy};
ghost use Rattle.pass_plain.specs.Legal.{IsLegal};
ghost use Rattle.pass_proc.specs.Ends.{trail_of_line, trail_of_proc};

use crate::proc::Proc;
use pass_book::Line;
use pass_hold::{Shelf, Whose};
use std::marker::Model;

/// The line of a process that has ended, whose desk lies in its slot, or the whole of a living process that was set aside.
#[derive(Drop)]
pub struct Trail<J: Whose> {
    line: Option<Line>,
    aside: Option<Proc<J>>,
}

impl<J: Whose> Model for Trail<J> {
    ghost use Rattle.std.specs.Prelude.{◌≡◌, IfSome};
    ghost use Rattle.std.specs.Coded.{codes};
    ghost use Rattle.pass_entry.specs.contracts.entry.Entry as entry_type;
    ghost use Rattle.pass_proc.specs.Ends.{TrailView, IsOne, trail_of};

    ghost Value = { TrailView };

    ghost coded = { Prim.hlevel (codes, entry_type.the_row.coded) };

    ghost view = { λ t. trail_of t.line t.aside };

    ghost invariant = { λ t. IfSome t.line (λ l. l.book ≡ J.book) × IsOne t.line t.aside };
}

impl<J: Whose> Trail<J> {
    /// What an ended process had seen.
    pub(crate) fn of_line(line: Line) -> Trail<J>
        requires { line.book ≡ J.book }
        ensures { result ≡ trail_of_line line }
    {
        Trail {
            line: Some(line),
            aside: None,
        }
    }

    /// The process of the trail sees the whole history, which begins with what it had seen and has no other entries by it.
    pub fn look(&mut self, shelf: &mut Shelf<J>)
        ensures same { self.new ≡ record { who = self.old.who; seen = shelf.old.history } }
        ensures begins { IsPrefix self.old.seen shelf.old.history }
        ensures agrees { AgreeBy self.old.who self.old.seen shelf.old.history }
        ensures shelf { shelf.new ≡ record shelf.old { syncs = shelf.new.syncs } }
    {
        if let Some(line) = &mut self.line {
            shelf.look(line);
        } else if let Some(proc) = &mut self.aside {
            proc.look(shelf);
        } else {
            unreachable!()
        }
    }
}

impl<J: Whose> Proc<J> {
    /// What a living process had seen. It makes no more calls.
    pub fn set_aside(self) -> Trail<J>
        ensures { result ≡ trail_of_proc self }
    {
        Trail {
            line: None,
            aside: Some(self),
        }
    }
}
