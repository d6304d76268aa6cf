//! The attributes of a version.
ghost use Rattle.std.specs.Prelude.{◌≡◌};

use pass_entry::Text;
use std::marker::Model;

/// Attributes with their values, in the order of the records, seen as a list.
#[derive(Drop)]
pub struct Attributes {
    pairs: Vec<(Text, Text)>,
}

impl Model for Attributes {
    ghost use Rattle.std.specs.Prelude.{List, ℕ};

    ghost Value = { List (List ℕ × List ℕ) };

    ghost view = { λ a. a.pairs.items };
}

impl Attributes {
    pub(crate) fn new(pairs: Vec<(Text, Text)>) -> Attributes
        ensures { result ≡ pairs.items }
    {
        Attributes { pairs }
    }

    /// Each attribute with its value.
    pub fn pairs(&self) -> &[(Text, Text)]
        ensures { result.now ≡ self.now }
    {
        self.pairs.as_slice()
    }
}
