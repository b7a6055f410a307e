//! The comparison of texts.
ghost use Rattle.std.specs.Prelude.{◌≡◌, MatchOption};
ghost use Rattle.checker.specs.Reasons.{IsFirstDifference};
ghost use Rattle.checker.specs.Checked.{Tells};

use crate::verdict::{Reason, Verdict};

/// The place of the first byte that differs, or the shorter length where that many bytes are the same; `None` where both
/// are the same.
fn first_difference(one: &[u8], other: &[u8]) -> Option<usize>
    ensures { MatchOption result (one.now ≡ other.now) (IsFirstDifference one.now other.now) }
{
    let shorter = one.len().min(other.len());
    for place in 0..shorter {
        if one[place] != other[place] {
            return Some(place);
        }
    }
    if one.len() == other.len() {
        None
    } else {
        Some(shorter)
    }
}

/// Whether a text is the expected one. It takes no memory.
pub(crate) fn compared(text: &[u8], expected: &[u8]) -> Verdict
    ensures { Tells text.now expected.now result }
{
    match first_difference(text, expected) {
        None => Verdict::Yes,
        Some(place) => Verdict::No(Reason::Text { byte: place as u64 }),
    }
}
