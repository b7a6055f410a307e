//! What placements cost and save, expression by expression.
#![tactic(auto)]

ghost use Rattle.tallies.specs.Laws.{OneTallying};

mod profiled;
pub mod tally;
mod tallying;
pub mod totals;

use one_transformed::one_numbering;
pub use tally::Tally;
pub use tallying::{Tallied, tallies};
pub use totals::Totals;

/// By its counts the placements of a module have one tally each.
pub fn one_tallying()
    ensures { OneTallying }
{
    one_numbering();
}
