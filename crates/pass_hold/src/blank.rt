//! The desk of an object that nobody has used yet.
ghost use Rattle.std.specs.Prelude.{◌≡◌, false};
ghost use Rattle.pass_book.specs.Openings.{new_desk};
ghost use Rattle.pass_plain.specs.Sessions.{is_opened};

use crate::whose::Whose;
use pass_book::Desk;
use pass_entry::Pnode;
use std::marker::{Model, PhantomData};

/// The desk of an object that the session may make, until somebody uses it.
#[derive(Drop)]
pub struct Blank<J: Whose> {
    pnode: Pnode,
    desk: Desk,
    whose: PhantomData<J>,
}

impl<J: Whose> Model for Blank<J> {
    ghost use Rattle.std.specs.Prelude.{◌≡◌, ℕ, false};
    ghost use Rattle.std.specs.Coded.{coded_ℕ};
    ghost use Rattle.pass_book.specs.Openings.{new_desk};
    ghost use Rattle.pass_plain.specs.Sessions.{is_opened};

    ghost Value = { ℕ };

    ghost coded = { coded_ℕ };

    ghost view = { λ b. b.pnode };

    ghost invariant = { λ b. (b.desk ≡ new_desk J.book b.pnode) × (is_opened J.book.session.start b.pnode ≡ false) };
}

impl<J: Whose> Blank<J> {
    /// Keeps the desk of an object that the opening does not have.
    pub fn of(pnode: Pnode, desk: Desk) -> Blank<J>
        requires desk { desk ≡ new_desk J.book pnode }
        requires new { is_opened J.book.session.start pnode ≡ false }
        ensures { result ≡ pnode }
    {
        Blank {
            pnode,
            desk,
            whose: PhantomData,
        }
    }

    /// The object's number.
    pub fn pnode(&self) -> Pnode
        ensures { result ≡ self.now }
    {
        self.pnode
    }

    /// Its desk, for its first use.
    pub fn into_desk(self) -> Desk
        ensures desk { result ≡ new_desk J.book self }
        ensures new { is_opened J.book.session.start self ≡ false }
    {
        self.desk
    }
}
