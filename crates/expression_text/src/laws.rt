//! The form of operations is that of the canonical text.
ghost use Rattle.std.specs.Prelude.{◌≡◌, List};
ghost use Rattle.mc_num.specs.declared.op.Op.{Op};
ghost use Rattle.ir_types.specs.declared.syntax.Block.{Block};
ghost use Rattle.ir_types.specs.declared.syntax.Function.{Function};
ghost use Rattle.ir_types.specs.declared.syntax.Operand.{Operand};
ghost use Rattle.ir_printer.specs.Text.{operation_text, value_text};
ghost use Rattle.expression_text.specs.ExpressionText.{operation_by};

/// The canonical text has each operation in the form that expressions have, with the values of registers.
pub fn as_printed()
    ensures { (f : Function) (b : Block) (op : Op) (operands : List Operand) → operation_text f b op operands ≡ operation_by (value_text f b) op operands }
{}
