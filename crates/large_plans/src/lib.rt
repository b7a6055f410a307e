//! Plans that insert much make large functions.
#![tactic(auto)]

ghost use Rattle.std.specs.Prelude.{◌≡◌, ◌*◌, ◌<◌, ◌≤◌, ◌^◌, ℕ, true, List, Some, length, slice_get, sum_by};
ghost use Rattle.std.specs.List.Sorted.{IsStrictlyIncreasing};
ghost use Rattle.ir_types.specs.Program.{Program};
ghost use Rattle.ir_types.specs.Limits.{IsWithinLimits};
ghost use Rattle.ir_types.specs.declared.syntax.Function.{Function};
ghost use Rattle.ir_machine.specs.Same.{is_defined};
ghost use Rattle.profile.specs.declared.counts.FnCounts.{FnCounts};
ghost use Rattle.point_graph.specs.Numbers.{ArePoints};
ghost use Rattle.point_graph.specs.declared.graph.Points.{Points};
ghost use Rattle.expressions.specs.Kept.{Kept};
ghost use Rattle.expressions.specs.Tables.{IsTable};
ghost use Rattle.placement.specs.declared.placements.Placement.{Placement};
ghost use Rattle.applied.specs.Applied.{Plan};
ghost use Rattle.applied.specs.Built.{applied_function};
ghost use Rattle.planning.specs.PlanOf.{ArePlacementsOf, IsPlanOf};
ghost use Rattle.certified.specs.Certified.{insertions};
ghost use Rattle.transform.specs.Transformed.{IsPlanOfPlaced};
ghost use Rattle.transform.specs.declared.placed.Placed.{Placed};
ghost use Rattle.optimise.specs.Choice.{AreChosen};

use point_numbers::points_are_told;

/// The function to which placements were applied has at least two instructions for each edge at which each placement inserts.
pub fn insertions_add_instructions()
    ensures { (f : Function) (p : Points) (t : Kept) (placements : List Placement) (plan : Plan) → 0 < length f.blocks → ArePoints f p → IsTable f p t
        → ArePlacementsOf f p t placements
        → ((x : ℕ) (placement : Placement) → slice_get placements x ≡ Some placement → IsStrictlyIncreasing placement.inserted)
        → IsPlanOf f p t placements plan
        → 2 * sum_by (λ placement. length placement.inserted) placements ≤ sum_by (λ b. length b.instrs) (applied_function plan f).blocks }
{
    points_are_told();
}

/// Where what is chosen in a function inserts at 2^28 edges or more, the function to which it was applied would have more than a function may.
pub fn crowded_functions_are_above()
    ensures { (m : Program) (f : Function) (counts : FnCounts) (q : Placed) (plan : Plan) → is_defined f.blocks ≡ true → AreChosen m f counts q
        → 2 ^ 28 ≤ insertions q.placements → IsPlanOfPlaced plan f q → ¬ (IsWithinLimits (applied_function plan f)) }
{
    insertions_add_instructions();
}
