//! Laws of tables.
ghost use Rattle.pass_view.specs.Laws.{AreApart, ReadBack};

/// A reader of CSV reads exactly the rows of a table.
pub fn rows_read_back()
    ensures { ReadBack }
{}

/// A key is of one store and one node.
pub fn keys_apart()
    ensures { AreApart }
{}
