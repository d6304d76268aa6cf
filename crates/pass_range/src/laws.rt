//! What holds of the range table of every history, over every opening. Each function carries laws in its contract and
//! does nothing.
ghost use Rattle.pass_range.specs.Lawful.{FirstTellsLaw, RowLaw, StepLaw, EarlierLaw, QuietLaw, OlderLaw, HasRowLaw, BeforeLaw, ZeroLaw, SizeLaw, FilesLaw, NumberLaw, NumbersLaw, WellLoggedRowLaw, PlacesLaw, WriteLaw, StandsLaw, HeldLaw, MatchedLaw, OpenedLaw};
ghost use Rattle.pass_range.specs.Dirtied.{SourceLaw, DirtiedLaw, BelowLaw};

/// A row that comes from an entry of a history is the digest of its range of the file, whose bytes have been the same
/// since that entry; one from before was there all the time; and entries without records change no row.
pub fn rows()
    ensures rows { RowLaw }
    ensures step { StepLaw }
    ensures earlier { EarlierLaw }
    ensures older { OlderLaw }
    ensures quiet { QuietLaw }
{}

/// A block was made dirty last by the entry that its row comes from.
pub fn dirty()
    ensures source { SourceLaw }
    ensures step { DirtiedLaw }
    ensures below { BelowLaw }
{}

/// The blocks that have a row are those that have one by the history. A row that comes from no entry is one of the
/// opening, and a block without a row is all zero bytes.
pub fn blocks()
    ensures has { HasRowLaw }
    ensures before { BeforeLaw }
    ensures zero { ZeroLaw }
{}

/// A file's size is its content's length; files are numbered as the registry has them, by numbers of their own that stay;
/// and each row is of a file with a number.
pub fn files()
    ensures sizes { SizeLaw }
    ensures files { FilesLaw }
    ensures number { NumberLaw }
    ensures numbers { NumbersLaw }
    ensures well_logged { WellLoggedRowLaw }
{}

/// Different blocks lie apart on the store area, a write leaves what is apart from it, what stands there is found there, and
/// a range of which the area has the bytes isn't unmatched.
pub fn areas()
    ensures places { PlacesLaw }
    ensures writes { WriteLaw }
    ensures stands { StandsLaw }
    ensures held { HeldLaw }
    ensures matched { MatchedLaw }
{}

/// A store without records opens with no file, and one whose ranges are on the store area opens each file with its content.
pub fn openings()
    ensures first { FirstTellsLaw }
    ensures opened { OpenedLaw }
{}
