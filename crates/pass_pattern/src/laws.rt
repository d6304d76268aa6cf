//! A law of the texts of patterns, which a function carries in its contract.
ghost use Rattle.pass_pattern.specs.Grammar.{OnePatternLaw};

/// A text is that of one pattern at most.
pub fn one_pattern()
    ensures { OnePatternLaw }
{}
