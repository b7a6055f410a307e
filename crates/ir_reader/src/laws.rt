//! Laws of reading. Each function does nothing: its contract is the law.
ghost use Rattle.std.specs.Prelude.{ℕ, List, All};
ghost use Rattle.ir_types.specs.Program.{Program};
ghost use Rattle.ir_types.specs.WellFormed.{IsWellFormed};
ghost use Rattle.ir_types.specs.Limits.{IsWithinLimits};
ghost use Rattle.ir_reader.specs.Reading.{HasOneAnswer, ReadsBack};

use ir_parser::one_reading;
use module_trees::module_trees;
use printed_trees::printed_trees;

/// A text means one module at most, or is refused for one reason at most, and not both.
pub fn one_answer()
    ensures { (bytes : List ℕ) → HasOneAnswer bytes }
{
    one_reading();
}

/// What is printed of a module within the limits reads back as that module.
pub fn reads_back()
    ensures { (m : Program) → IsWellFormed m → All IsWithinLimits m.functions → ReadsBack m }
{
    printed_trees();
    module_trees();
}
