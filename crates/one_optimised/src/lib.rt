//! What the optimiser gives is determined, and what it costs can be told.
#![tactic(auto)]

ghost use Rattle.std.specs.Prelude.{◌≡◌, List};
ghost use Rattle.ir_types.specs.Program.{Program};
ghost use Rattle.profile.specs.declared.counts.FnCounts.{FnCounts};
ghost use Rattle.placement.specs.declared.placements.Placement.{Placement};
ghost use Rattle.optimise.specs.Choices.{AreChoices};
ghost use Rattle.optimise.specs.Optimised.{HasTooMany, IsOptimised};
ghost use Rattle.tallies.specs.Tallies.{AreFitting};

use best_choice::one_best_in;
use lazy_motion::one_lazy;
use one_transformed::{best_stays, one_numbering, one_transformed};

/// By its counts a module has one optimised module, and has none where too much would be inserted.
pub fn one_optimised()
    ensures one { (m : Program) (counts : List FnCounts) (one other : Program) → IsOptimised m counts one → IsOptimised m counts other → one ≡ other }
    ensures not_both { (m : Program) (counts : List FnCounts) (one : Program) → IsOptimised m counts one → ¬ (HasTooMany m counts) }
{
    best_stays();
    one_best_in();
    one_lazy();
    one_numbering();
    one_transformed();
}

/// By its counts the placements that are chosen in a module are determined.
pub fn one_choice()
    ensures { (m : Program) (counts : List FnCounts) (one other : List (List Placement)) → AreChoices m counts one → AreChoices m counts other → one ≡ other }
{
    best_stays();
    one_best_in();
    one_lazy();
    one_numbering();
}

/// The placements that are chosen can be tallied: their lists are ascending, of edges and of occurrences.
pub fn choices_fit()
    ensures { (m : Program) (counts : List FnCounts) (placements : List (List Placement)) → AreChoices m counts placements → AreFitting m placements }
{}
