//! The rules of a tree.
ghost use Rattle.std.specs.Prelude.{◌≡◌, ◌≤◌, ◌^◌, All, IfOk};
ghost use Rattle.ir_types.specs.Limits.{IsWithinLimits};
ghost use Rattle.ir_types.specs.ModuleOf.{module_of};
ghost use Rattle.ir_types.specs.Rules.{tree_problem};
ghost use Rattle.ir_types.specs.Size.{items};
ghost use Rattle.ir_types.specs.Written.{IsSpelledTree};
ghost use Rattle.ir_uses.specs.Answers.{IsAnswer};

use crate::tree::{Parts, tree_parts};
use ir_types::module::Module;
use ir_types::tree::Raw;
use ir_uses::error::CheckError;
use std::alloc::Global;
use tree_rules::checked_trees;

/// The module that a tree means. `Broken` comes with the first broken rule of the tree in text order, and at one place
/// with the smallest.
pub fn check<'a>(alloc: Global, raw: &Raw<'a>) -> Result<Module<'a>, CheckError>
    requires spelled { IsSpelledTree raw.now }
    requires few { items raw.now ≤ 2 ^ 26 }
    ensures problem { IsAnswer result (tree_problem raw.now) }
    ensures module { IfOk result (λ m. m ≡ module_of raw.now) }
    ensures limits { IfOk result (λ m. All IsWithinLimits m.functions) }
{
    let Parts { globals, functions } = tree_parts(alloc, raw)?;
    checked_trees();
    Ok(Module::new(globals, functions))
}
