//! Which operations can trap.

ghost use Rattle.std.specs.Prelude.{◌≡◌, ◌↔◌, IsTrue};
ghost use Rattle.mc_num.specs.Op.{IsWellFormedOp};
ghost use Rattle.mc_num.specs.Value.{CanTrap, DivisorFits, traps_at};

use crate::op::{Bin, Op};
use crate::value::all_ones;

/// Whether the operation traps at some arguments that agree with the divisor, where that is a known constant: it does where
/// it is a division or a remainder whose divisor is unknown, or 0, or, if it is signed, -1. No memory.
pub fn can_trap(op: Op, divisor: Option<u64>) -> bool
    requires formed { IsWellFormedOp op }
    requires fits { DivisorFits op divisor }
    ensures exact { IsTrue result ↔ CanTrap op divisor }
    ensures test { result ≡ traps_at op divisor }
{
    is_trapping(op, divisor)
}

fn is_trapping(op: Op, divisor: Option<u64>) -> bool
    ensures { result ≡ traps_at op divisor }
{
    match (op, divisor) {
        (Op::Bin(Bin::UDiv | Bin::URem | Bin::SDiv | Bin::SRem, _), None) => true,
        (Op::Bin(Bin::UDiv | Bin::URem, _), Some(divisor)) => divisor == 0,
        (Op::Bin(Bin::SDiv | Bin::SRem, width), Some(divisor)) => divisor == 0
            || divisor == all_ones(width),
        _ => false,
    }
}
