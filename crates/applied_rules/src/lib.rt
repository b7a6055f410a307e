//! The module to which placements were applied keeps the rules of modules.
#![tactic(auto)]

ghost use Rattle.std.specs.Prelude.{◌≡◌, ◌<◌, ℕ, Some, slice_get};
ghost use Rattle.ir_types.specs.Program.{Program};
ghost use Rattle.ir_types.specs.WellFormed.{IsWellFormed, size, item_limit};
ghost use Rattle.ir_types.specs.declared.syntax.Function.{Function};
ghost use Rattle.applied.specs.Applied.{Plan, AreMoves};
ghost use Rattle.applied.specs.Built.{applied, applied_function};
ghost use Rattle.applied_rules.specs.Plans.{ArePlans, IsSmallPlan};

/// Whatever the module and the placements, the new module keeps the rules of modules, as long as no function becomes too large.
pub fn applied_keeps_rules()
    ensures { (m : Program) (plans : ℕ → Plan) → IsWellFormed m → AreMoves m plans → ArePlans m plans → IsWellFormed (applied m plans) }
{}

/// A function within the limits does not become too large where its expressions differ and are inserted at fewer than 2^28 edges in all.
pub fn small_plans_fit()
    ensures { (m : Program) (plans : ℕ → Plan) → IsWellFormed m → AreMoves m plans → (i : ℕ) (function : Function) → slice_get m.functions i ≡ Some function
        → IsSmallPlan function (plans i) → size (applied_function (plans i) function) < item_limit }
{}
