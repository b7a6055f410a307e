//! What a point is to an expression, told by the tests of `expressions` and by the relations of `applied`.
#![tactic(auto)]

ghost use Rattle.std.specs.Prelude.{◌≡◌, ◌↔◌, ℕ, IsTrue, Some, length, slice_get};
ghost use Rattle.ir_types.specs.Program.{Program};
ghost use Rattle.ir_types.specs.declared.syntax.Block.{Block};
ghost use Rattle.ir_types.specs.declared.syntax.Function.{Function};
ghost use Rattle.ir_types.specs.declared.syntax.Instr.{Instr};
ghost use Rattle.point_graph.specs.Graph.{Place};
ghost use Rattle.point_graph.specs.declared.graph.Point.TheVariants.{Instr as InstrPoint, Term};
ghost use Rattle.expressions.specs.declared.syntax.Expr.{Expr};
ghost use Rattle.expressions.specs.Expressions.{content, expr_at};
ghost use Rattle.expressions.specs.Events.{changes_expr, content_bars};
ghost use Rattle.applied.specs.Motion.{Occurs, Kills, Bars};

/// At an instruction an expression occurs, is killed or is barred by the tests exactly where it is by the relations.
pub fn instructions_agree()
    ensures occurs { (program : Program) (function : Function) (e : Expr) (b k : ℕ) → Occurs program function e (Place b k) ↔ (expr_at program function (InstrPoint b k) ≡ Some e) }
    ensures kills { (program : Program) (function : Function) (e : Expr) (b k : ℕ) → Kills program function e (Place b k) ↔ IsTrue (changes_expr program e (content function (InstrPoint b k))) }
    ensures bars { (function : Function) (b k : ℕ) (block : Block) (instr : Instr) → slice_get function.blocks b ≡ Some block → slice_get block.instrs k ≡ Some instr
        → Bars function (Place b k) ↔ IsTrue (content_bars (content function (InstrPoint b k))) }
{}

/// At a terminator nothing occurs and nothing is killed, and it bars by the test exactly where it does by the relation.
pub fn terminators_agree()
    ensures occurs { (program : Program) (function : Function) (e : Expr) (b : ℕ) (block : Block) → slice_get function.blocks b ≡ Some block
        → ¬ Occurs program function e (Place b (length block.instrs)) }
    ensures kills { (program : Program) (function : Function) (e : Expr) (b : ℕ) (block : Block) → slice_get function.blocks b ≡ Some block
        → ¬ Kills program function e (Place b (length block.instrs)) }
    ensures bars { (function : Function) (b : ℕ) (block : Block) → slice_get function.blocks b ≡ Some block
        → Bars function (Place b (length block.instrs)) ↔ IsTrue (content_bars (content function (Term b))) }
{}
