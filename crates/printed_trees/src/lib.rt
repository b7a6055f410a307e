//! The canonical text of a module spells the tree of that module. All of it stands in specs/ and proofs/: the function
//! does nothing, and its contract is the law.
#![tactic(auto)]

ghost use Rattle.ir_types.specs.Program.{Program};
ghost use Rattle.ir_types.specs.WellFormed.{IsWellFormed};
ghost use Rattle.printed_trees.specs.Printed.{SpellsTree};

use ir_lexer::{lexes_back, tokens_in_order};

/// What is printed of a module is spelled by the grammar, and its tree is that of the module.
pub fn printed_trees()
    ensures { (m : Program) → IsWellFormed m → SpellsTree m }
{
    lexes_back();
    tokens_in_order();
}
