//! Patterns from their texts.
ghost use Rattle.std.specs.Prelude.{◌≡◌, IfOk, Err, ℕ};
ghost use Rattle.pass_pattern.specs.Patterns.{shape_of};
ghost use Rattle.pass_pattern.specs.Grammar.{IsText, IsLong, IsBad};
ghost use Rattle.pass_pattern.specs.Grammar.Binding.{alt};
ghost use Rattle.pass_pattern.specs.Reading.{fault_of};

use crate::fault::PatternFault;
use crate::pattern::Pattern;
use crate::reader::{Reader, Refusal};
use std::alloc::Global;

/// How many bytes the text of a pattern may have.
const TEXT_LIMIT: usize = 255;

/// The pattern of the text. Of more than 64 nested parentheses it says `Long` where the 65th open one comes before the first
/// byte that no pattern has there.
pub fn parse_pattern(alloc: Global, text: &[u8]) -> Result<Pattern, PatternFault>
    ensures pattern { IfOk result (λ p. IsText alt (shape_of p) text.now × ¬ (IsLong text.now)) }
    ensures long { result ≡ Err PatternFault.Long → IsLong text.now }
    ensures bad { (at : ℕ) → result ≡ Err (PatternFault.Bad at) → IsBad text.now at }
{
    if text.len() > TEXT_LIMIT {
        return Err(PatternFault::Long);
    }
    let mut reader = Reader::new(alloc);
    for at in 0..text.len() {
        reader = match reader.read(alloc, text[at]) {
            Ok(next) => next,
            Err(refusal) => return Err(fault_at(refusal, at)),
        };
    }
    match reader.finish(alloc) {
        Ok(pattern) => Ok(pattern),
        Err(refusal) => Err(fault_at(refusal, text.len())),
    }
}

// The fault of a text that is refused at the place.
fn fault_at(refusal: Refusal, at: usize) -> PatternFault
    ensures { result ≡ fault_of refusal at }
{
    match refusal {
        Refusal::Bad => PatternFault::Bad { at: at as u64 },
        Refusal::Deep => PatternFault::Long,
        Refusal::NoMemory => PatternFault::NoMemory,
    }
}
