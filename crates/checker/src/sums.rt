//! At how many edges the entries of a certificate insert something.
ghost use Rattle.std.specs.Prelude.{◌≡◌, ◌<◌, ◌≤◌, ◌^◌, ◌↔◌, IsTrue, MatchOption, length};
ghost use Rattle.certified.specs.Certified.{insertions, placements_in};
ghost use Rattle.checker.specs.Reasons.{NoneIsCrowded};
ghost use Rattle.checker.specs.Checked.{IsCrowdedShape, IsShapeOf};

use crate::verdict::Reason;
use certificate::{Certificate, Entry};

/// At how many edges at most something may be inserted in a function.
const MOST_INSERTIONS: usize = (1 << 28) - 1;

/// Whether the entries insert at too many edges.
fn is_crowded(entries: &[Entry]) -> bool
    ensures { IsTrue result ↔ 2 ^ 28 ≤ insertions (placements_in entries.now) }
{
    let mut left = MOST_INSERTIONS;
    for entry in entries {
        if entry.placement.inserted.len() > left {
            return true;
        }
        left -= entry.placement.inserted.len();
    }
    false
}

/// The first function whose entries insert at 2^28 edges or more. It takes no memory.
pub(crate) fn first_crowded(certificate: &Certificate) -> Option<Reason>
    requires { length certificate.now.functions < 2 ^ 32 }
    ensures { MatchOption result (NoneIsCrowded certificate.now) (IsShapeOf (IsCrowdedShape certificate.now)) }
{
    let lists = certificate.functions.as_slice();
    for function in 0..lists.len() {
        if is_crowded(lists[function].as_slice()) {
            return Some(Reason::Shape {
                function: function as u32,
                expression: 0,
            });
        }
    }
    None
}
