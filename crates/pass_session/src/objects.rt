//! The objects of an opening, and the desks of those that its session may make.
ghost use Rattle.std.specs.Prelude.{◌≡◌, ◌+◌, ◌-◌, [], map, length, IfOk, OnOk, Some, slice_get};
ghost use Rattle.std.specs.List.{range_with_len};
ghost use Rattle.pass_book.specs.Openings.{known_desk, new_desk};
ghost use Rattle.pass_plain.specs.Sound.{IsSound};
ghost use Rattle.pass_plain.specs.Outlines.{SameButBytes, outline};
ghost use Rattle.pass_session.specs.Layouts.{first_process, file_view, file_views, app_view};
ghost use Rattle.pass_session.specs.Openings.{IsBare};

use pass_book::Desk;
use pass_entry::{Node, Pnode};
use pass_file::FileDesk;
use pass_flow::AppDesk;
use pass_hold::{Blank, Whose};
use pass_plain::{Start, StartFile};
use std::alloc::{AllocError, Global};

/// The objects of an opening, the others that its session may make, and the start without the bytes, which lie in the files now.
#[derive(Drop)]
pub(crate) struct Laid<J: Whose> {
    pub(crate) start: Start,
    pub(crate) files: Vec<FileDesk<J>>,
    pub(crate) apps: Vec<AppDesk<J>>,
    pub(crate) blanks: Vec<Blank<J>>,
}

/// A file of an opening, of which nothing was seen. It takes over the bytes.
fn open_file<J: Whose>(
    alloc: Global,
    file: &mut StartFile,
    number: u32,
    desk: Desk,
) -> Result<FileDesk<J>, AllocError>
    requires sound { IsSound J.book.session }
    requires file { slice_get J.book.session.start.files.items number ≡ Some file.old }
    requires desk { desk ≡ known_desk J.book file.old.node.pnode }
    ensures made { IfOk result (λ f. f ≡ file_view number file.old) }
    ensures outline { OnOk result (outline file.new ≡ outline file.old) }
    ensures bare { OnOk result (file.new.bytes.items ≡ []) }
{
    let made = FileDesk::opened(alloc, file, number, desk)?;
    file.bytes = Vec::new(alloc);
    Ok(made)
}

/// The files of an opening, which take over the bytes of the start.
fn file_desks<J: Whose>(
    alloc: Global,
    start: &mut Start,
    desks: Vec<Desk>,
) -> Result<Vec<FileDesk<J>>, AllocError>
    requires sound { IsSound J.book.session }
    requires start { start.old ≡ J.book.session.start }
    requires desks { desks.items ≡ map (λ f. known_desk J.book f.node.pnode) start.old.files.items }
    ensures made { IfOk result (λ v. v.items ≡ file_views 0 start.old.files.items) }
    ensures outline { OnOk result (SameButBytes start.new start.old) }
    ensures bare { OnOk result (IsBare start.new) }
{
    let mut made = Vec::with_capacity(alloc, start.files.len())?;
    let mut desks = desks.into_iter();
    for file in start.files.iter_mut() {
        let Some(desk) = desks.next() else {
            unreachable!()
        };
        let number = made.len() as u32;
        made.push(open_file(alloc, file, number, desk)?)?;
    }
    Ok(made)
}

/// The app objects of an opening.
fn app_desks<J: Whose>(
    alloc: Global,
    apps: &[Node],
    desks: Vec<Desk>,
) -> Result<Vec<AppDesk<J>>, AllocError>
    requires sound { IsSound J.book.session }
    requires apps { apps.now ≡ J.book.session.start.apps.items }
    requires desks { desks.items ≡ map (λ n. known_desk J.book n.pnode) apps.now }
    ensures { IfOk result (λ v. v.items ≡ map app_view apps.now) }
{
    let mut made = Vec::with_capacity(alloc, apps.len())?;
    let mut desks = desks.into_iter();
    for app in apps {
        let Some(desk) = desks.next() else {
            unreachable!()
        };
        made.push(AppDesk::new(alloc, app.pnode, app.version, true, desk))?;
    }
    Ok(made)
}

/// The objects that a session may make, from a number on.
fn blanks<J: Whose>(
    alloc: Global,
    first: u64,
    desks: Vec<Desk>,
) -> Result<Vec<Blank<J>>, AllocError>
    requires sound { IsSound J.book.session }
    requires first { first ≡ first_process J.book.session.start + 1 }
    requires objects { length desks.items + 1 ≡ J.book.session.objects }
    requires desks { desks.items ≡ map (new_desk J.book) (range_with_len first (length desks.items)) }
    ensures { IfOk result (λ v. v.items ≡ range_with_len first (length desks.items)) }
{
    let count = desks.len();
    let mut made = Vec::with_capacity(alloc, count)?;
    let mut desks = desks.into_iter();
    for more in 0..count {
        let Some(desk) = desks.next() else {
            unreachable!()
        };
        made.push(Blank::of(Pnode(first + more as u64), desk))?;
    }
    Ok(made)
}

/// Lays out the objects of an opening, and the desks of those that its session may make.
pub(crate) fn lay<J: Whose>(
    alloc: Global,
    start: Start,
    files: Vec<Desk>,
    apps: Vec<Desk>,
    rest: Vec<Desk>,
) -> Result<Laid<J>, AllocError>
    requires sound { IsSound J.book.session }
    requires start { start ≡ J.book.session.start }
    requires files { files.items ≡ map (λ f. known_desk J.book f.node.pnode) start.files.items }
    requires apps { apps.items ≡ map (λ n. known_desk J.book n.pnode) start.apps.items }
    requires objects { length rest.items + 1 ≡ J.book.session.objects }
    requires rest { rest.items ≡ map (new_desk J.book) (range_with_len (first_process start + 1) (length rest.items)) }
    ensures start { IfOk result (λ l. SameButBytes l.start start × IsBare l.start) }
    ensures files { IfOk result (λ l. l.files.items ≡ file_views 0 start.files.items) }
    ensures apps { IfOk result (λ l. l.apps.items ≡ map app_view start.apps.items) }
    ensures blanks { IfOk result (λ l. l.blanks.items ≡ range_with_len (first_process start + 1) (J.book.session.objects - 1)) }
{
    let mut start = start;
    let files = file_desks::<J>(alloc, &mut start, files)?;
    let apps = app_desks::<J>(alloc, &start.apps, apps)?;
    let blanks = blanks::<J>(alloc, start.ceiling + 2, rest)?;
    Ok(Laid {
        start,
        files,
        apps,
        blanks,
    })
}
