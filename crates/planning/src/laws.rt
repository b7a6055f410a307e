//! What follows of the plan that placements make.
ghost use Rattle.std.specs.Prelude.{◌<◌, ◌^◌, List, length, sum_by};
ghost use Rattle.ir_types.specs.Limits.{IsWithinLimits};
ghost use Rattle.ir_types.specs.declared.syntax.Function.{Function};
ghost use Rattle.point_graph.specs.Numbers.{ArePoints};
ghost use Rattle.point_graph.specs.declared.graph.Points.{Points};
ghost use Rattle.expressions.specs.Kept.{Kept};
ghost use Rattle.expressions.specs.Tables.{IsTable};
ghost use Rattle.placement.specs.declared.placements.Placement.{Placement};
ghost use Rattle.applied.specs.Applied.{Plan, IsPlan};
ghost use Rattle.applied_rules.specs.Plans.{IsSmallPlan};
ghost use Rattle.planning.specs.PlanOf.{ArePlacementsOf, IsPlanOf};

/// The plan that placements make is one for the function.
pub fn plan_is_plan()
    ensures { (f : Function) (p : Points) (t : Kept) (placements : List Placement) (plan : Plan) → 0 < length f.blocks → ArePoints f p → IsTable f p t
        → IsWithinLimits f → ArePlacementsOf f p t placements → IsPlanOf f p t placements plan → IsPlan f plan }
{}

/// It is small where the placements insert little.
pub fn plan_is_small()
    ensures { (f : Function) (p : Points) (t : Kept) (placements : List Placement) (plan : Plan) → 0 < length f.blocks → ArePoints f p → IsTable f p t
        → IsWithinLimits f → ArePlacementsOf f p t placements → IsPlanOf f p t placements plan
        → sum_by (λ placement. length placement.inserted) placements < 2 ^ 28 → IsSmallPlan f plan }
{}
