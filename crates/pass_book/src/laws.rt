//! What rests on two beginnings of a history alone.
ghost use Rattle.pass_book.specs.Added.{AddLaw};

/// What the holders of an object's desk and of a caller's line have seen decides of an entry whether it may come next, and its
/// records.
pub fn adds()
    ensures { AddLaw }
{}
