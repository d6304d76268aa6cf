//! Laws of leaves.
ghost use Rattle.pass_leaf.specs.Laws.{LaidLaw, ContentsStayLaw, KeptLaw, OthersLaw, OneArchiveLaw, NoBadFrameLaw};

/// A leaf gives back the content of which it was made.
pub fn laid()
    ensures { LaidLaw }
{}

/// Versions that are kept have their contents, what was kept before stays, and no other version gets a leaf.
pub fn kept()
    ensures stays { ContentsStayLaw }
    ensures kept { KeptLaw }
    ensures others { OthersLaw }
{}

/// Bytes have one archive at most, and where they have one they have no bad frame.
pub fn one_archive()
    ensures one { OneArchiveLaw }
    ensures no_bad { NoBadFrameLaw }
{}
