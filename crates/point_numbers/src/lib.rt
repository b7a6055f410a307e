//! What the numbers of a function's points and edges stand for.
#![tactic(auto)]

ghost use Rattle.std.specs.Prelude.{◌<◌, length, map};
ghost use Rattle.ir_types.specs.declared.syntax.Function.{Function};
ghost use Rattle.point_graph.specs.Numbers.{KeepsRules, ArePoints, all_edges, point_of};
ghost use Rattle.point_graph.specs.declared.graph.Points.{Points};
ghost use Rattle.point_numbers.specs.Told.{AreTold};

/// Each reached point of a defined function has one number, and so has each edge from a reached point, and numbered edges join the numbers
/// of what the edges join.
pub fn points_are_told()
    ensures { (f : Function) (p : Points) → KeepsRules f → 0 < length f.blocks → ArePoints f p
        → AreTold f (map (point_of f) p.points) (all_edges f p.blocks) p.edges }
{}
