//! A placement that is correct and safe by the numbers of points and edges is one over all paths of the function.
#![tactic(auto)]

ghost use Rattle.std.specs.Prelude.{◌≡◌, ◌<◌, ◌↔◌, ℕ, true, length};
ghost use Rattle.ir_types.specs.declared.syntax.Function.{Function};
ghost use Rattle.point_graph.specs.Numbers.{ArePoints};
ghost use Rattle.point_graph.specs.declared.graph.Points.{Points};
ghost use Rattle.expressions.specs.Expressions.{expr_traps};
ghost use Rattle.expressions.specs.Kept.{Kept};
ghost use Rattle.expressions.specs.Tables.{IsTable, IsEventOf};
ghost use Rattle.placement.specs.declared.placements.Placement.{Placement};
ghost use Rattle.placement.specs.Placements.{arcs_of, IsCorrect, IsSafe};
ghost use Rattle.point_graph.specs.Graph.{Point};
ghost use Rattle.expressions.specs.declared.syntax.Event.TheVariants as events;
ghost use Rattle.applied.specs.Motion.{Move, Occurs, IsMove};
ghost use Rattle.placed_moves.specs.Placed.{IsPlaced, IsPoint, IsTold};

/// What becomes of an expression by a placement that is correct, and safe where the expression can trap, is a move: so the applied module
/// does what the old one does.
pub fn placed_is_move()
    ensures { (f : Function) (p : Points) (t : Kept) (x : ℕ) (placement : Placement) (move_of : Move) → 0 < length f.blocks → ArePoints f p → IsTable f p t
        → IsPlaced f p t x placement move_of → IsCorrect (arcs_of p.edges) (IsEventOf f p t x) placement
        → (expr_traps move_of.expr ≡ true → IsSafe (arcs_of p.edges) (IsEventOf f p t x) placement) → IsMove t.module_of f move_of }
{}

/// What becomes of an expression by a placement, correct or not, says the same of the reached points and edges as it says of their numbers.
pub fn placed_is_told()
    ensures told { (f : Function) (p : Points) (t : Kept) (x : ℕ) (placement : Placement) (move_of : Move) → 0 < length f.blocks → ArePoints f p → IsTable f p t
        → IsPlaced f p t x placement move_of → IsTold t.module_of f move_of }
    ensures occurs { (f : Function) (p : Points) (t : Kept) (x : ℕ) (placement : Placement) (move_of : Move) → 0 < length f.blocks → ArePoints f p → IsTable f p t
        → IsPlaced f p t x placement move_of → (i : ℕ) (v : Point) → IsPoint f p i v → IsEventOf f p t x i events.Occurs ↔ Occurs t.module_of f move_of.expr v }
{}
