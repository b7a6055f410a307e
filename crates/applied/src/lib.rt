//! Code motion of all expressions of a module, and that it keeps what the module does.
#![tactic(auto)]

ghost use Rattle.std.specs.Prelude.{◌≡◌, ℕ, true};
ghost use Rattle.ir_types.specs.Program.{Program};
ghost use Rattle.ir_types.specs.WellFormed.{IsWellFormed};
ghost use Rattle.ir_machine.specs.Same.{Same};
ghost use Rattle.ir_types.specs.declared.syntax.Function.{Function};
ghost use Rattle.point_graph.specs.Graph.{Point};
ghost use Rattle.expressions.specs.declared.syntax.Expr.{Expr};
ghost use Rattle.expressions.specs.Expressions.{expr_traps};
ghost use Rattle.applied.specs.Motion.{Move, IsMove, IsInevitable};
ghost use Rattle.applied.specs.InBlocks.{IsBlockMove};
ghost use Rattle.applied.specs.Applied.{Plan, IsApplied, AreMoves};
ghost use Rattle.applied.specs.Built.{applied};

/// Whatever the module and the correct and safe placements, the new module does what the old one does.
pub fn applied_same()
    ensures { (m m_new : Program) (plans : ℕ → Plan) → IsWellFormed m → AreMoves m plans → IsApplied m plans m_new → Same m m_new }
{}

/// At most one expression that can trap is inevitable at a point, so the order of groups never decides a trap.
pub fn one_can_trap()
    ensures { (program : Program) (function : Function) (e other : Expr) (v : Point) → expr_traps e ≡ true → expr_traps other ≡ true
        → IsInevitable program function e v → IsInevitable program function other v → e ≡ other }
{}

/// One module has at each place what stands there in the applied module: the one that is built place by place.
pub fn applied_stands()
    ensures stands { (m : Program) (plans : ℕ → Plan) → IsApplied m plans (applied m plans) }
    ensures alone { (m m_new : Program) (plans : ℕ → Plan) → IsApplied m plans m_new → m_new ≡ applied m plans }
{}

/// The placement that inserts nothing, and keeps each occurrence that is the first event of its block or behind a kill, is correct and safe.
pub fn block_moves_are_moves()
    ensures { (program : Program) (function : Function) (move_of : Move) → IsBlockMove program function move_of → IsMove program function move_of }
{}
