//! Whether the lists of a certificate fit a module.
ghost use Rattle.std.specs.Prelude.{◌≡◌, ◌<◌, ◌^◌, MatchOption, length};
ghost use Rattle.checker.specs.Reasons.{AreLengths, IsWrongLength};
ghost use Rattle.checker.specs.Checked.{IsFirstOther, IsShapeOf, NoneDiffers};

use crate::numbered::Numbered;
use crate::verdict::Reason;
use certificate::Certificate;

/// The first function whose list hasn't one entry for each expression.
fn first_other(numbered: &[Numbered<'_, '_>], certificate: &Certificate) -> Option<Reason>
    requires lists { length certificate.now.functions ≡ length numbered.now }
    requires few { length numbered.now < 2 ^ 32 }
    ensures { MatchOption result (NoneDiffers numbered.now certificate.now) (IsShapeOf (IsFirstOther numbered.now certificate.now)) }
{
    let lists = certificate.functions.as_slice();
    for function in 0..numbered.len() {
        let entries = lists[function].len();
        let expressions = numbered[function].table.len();
        if entries != expressions as usize {
            return Some(Reason::Shape {
                function: function as u32,
                expression: entries.min(expressions as usize) as u32,
            });
        }
    }
    None
}

/// Whether there isn't one list of entries for each function, or in which function, the first one, there isn't one entry
/// for each expression. It takes no memory.
pub(crate) fn wrong_length(
    numbered: &[Numbered<'_, '_>],
    certificate: &Certificate,
) -> Option<Reason>
    requires { length numbered.now < 2 ^ 32 }
    ensures { MatchOption result (AreLengths numbered.now certificate.now) (IsShapeOf (IsWrongLength numbered.now certificate.now)) }
{
    let lists = certificate.functions.len();
    if lists != numbered.len() {
        return Some(Reason::Shape {
            function: lists.min(numbered.len()) as u32,
            expression: 0,
        });
    }
    first_other(numbered, certificate)
}
