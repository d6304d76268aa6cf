//! Files as a session begins with them or makes them.
ghost use Rattle.std.specs.Prelude.{◌≡◌, ◌≤◌, ◌^◌, [], false, IfOk, Some, length};
ghost use Rattle.pass_plain.specs.Lawful.{AgreeOn};
ghost use Rattle.pass_plain.specs.Sessions.{is_opened, opened_file};
ghost use Rattle.pass_book.specs.Numbers.{IsFileNumber};

use crate::desk::FileDesk;
use crate::state::FileState;
use pass_book::Desk;
use pass_entry::{Node, Pnode};
use pass_hold::Whose;
use pass_plain::StartFile;
use std::alloc::{AllocError, Global};
use std::marker::PhantomData;

impl<J: Whose> FileDesk<J> {
    /// A file of the opening, before any entry on it.
    pub fn opened(
        alloc: Global,
        file: &StartFile,
        number: u32,
        desk: Desk,
    ) -> Result<FileDesk<J>, AllocError>
        requires desk { (desk.book ≡ J.book) × (desk.seen ≡ []) }
        requires file { opened_file J.book.session.start desk.what ≡ Some file.now }
        requires number { IsFileNumber J.book.session [] desk.what number }
        ensures { IfOk result (λ f. f ≡ record { what = desk.what; number = number; seen = []; syncs = desk.syncs; spare = 0; room = 0 }) }
    {
        let _ = desk.seen();
        let state = FileState::new(alloc, file, true)?;
        Ok(FileDesk {
            state,
            number,
            desk,
            whose: PhantomData,
        })
    }

    /// A file that was made in the session, before any entry on it. Its desk has seen that it was made. It takes no memory.
    pub fn made(alloc: Global, pnode: Pnode, number: u32, desk: Desk) -> FileDesk<J>
        requires desk { (desk.book ≡ J.book) × (desk.what ≡ pnode) }
        requires new { is_opened J.book.session.start pnode ≡ false }
        requires idle { AgreeOn pnode [] desk.seen }
        requires number { IsFileNumber J.book.session desk.seen pnode number }
        requires few { length desk.seen ≤ 2 ^ 32 }
        ensures { result ≡ record { what = pnode; number = number; seen = desk.seen; syncs = desk.syncs; spare = 0; room = 0 } }
    {
        let _ = desk.seen();
        let node = Node { pnode, version: 1 };
        FileDesk {
            state: FileState::made(alloc, node),
            number,
            desk,
            whose: PhantomData,
        }
    }
}
