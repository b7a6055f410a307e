//! The tree of a module has no problem, and means that module.
#![tactic(auto)]

ghost use Rattle.ir_types.specs.Program.{Program};
ghost use Rattle.ir_types.specs.TreeOf.{IsTreeOf};
ghost use Rattle.ir_types.specs.WellFormed.{IsWellFormed};
ghost use Rattle.ir_types.specs.declared.tree.Raw.{Raw};
ghost use Rattle.module_trees.specs.Meant.{MeansModule};

/// The tree of a module means that module, and breaks no rule where the module is within the limits.
pub fn module_trees()
    ensures { (m : Program) (raw : Raw) → IsWellFormed m → IsTreeOf m raw → MeansModule m raw }
{}
