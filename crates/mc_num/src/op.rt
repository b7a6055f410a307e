//! The integer operations of LLVM's Language Reference Manual ("Binary Operations", "Bitwise Binary Operations",
//! "icmp", "Conversion Operations", "select") that the product knows, at five widths.

ghost use Rattle.std.specs.Prelude.{◌≡◌, ◌<◌, length, slice_get, Some};
ghost use Rattle.mc_num.specs.Op.{argument_widths, bits, result_width};

/// How many bits an integer has: 1, 8, 16, 32 or 64. A value of a width of w bits is a number below 2^w.
#[derive(Clone, Copy, Debug, PartialEq, Eq, Hash)]
pub enum Width {
    I1,
    I8,
    I16,
    I32,
    I64,
}

/// An operation on two integers of one width.
#[derive(Clone, Copy, Debug, PartialEq, Eq, Hash)]
pub enum Bin {
    Add,
    Sub,
    Mul,
    UDiv,
    SDiv,
    URem,
    SRem,
    Shl,
    LShr,
    AShr,
    And,
    Or,
    Xor,
}

/// A comparison of two integers of one width.
#[derive(Clone, Copy, Debug, PartialEq, Eq, Hash)]
pub enum Pred {
    Eq,
    Ne,
    Ugt,
    Uge,
    Ult,
    Ule,
    Sgt,
    Sge,
    Slt,
    Sle,
}

/// A change of width.
#[derive(Clone, Copy, Debug, PartialEq, Eq, Hash)]
pub enum Cast {
    Zext,
    Sext,
    Trunc,
    Bitcast,
}

/// An operation with its widths. A cast has the width that it takes and then the width that it gives.
#[derive(Clone, Copy, Debug, PartialEq, Eq, Hash)]
pub enum Op {
    Bin(Bin, Width),
    Icmp(Pred, Width),
    Cast(Cast, Width, Width),
    Select(Width),
}

/// Why a run ends without a result.
#[derive(Clone, Copy, Debug, PartialEq, Eq, Hash)]
pub enum Trap {
    DivZero,
    DivOverflow,
    Unreachable,
}

/// How many bits the width has.
pub fn bits(width: Width) -> u32
    ensures { result ≡ bits width }
{
    match width {
        Width::I1 => 1,
        Width::I8 => 8,
        Width::I16 => 16,
        Width::I32 => 32,
        Width::I64 => 64,
    }
}

/// How many arguments the operation takes. No memory.
pub fn arity(op: Op) -> usize
    ensures { result ≡ length (argument_widths op) }
{
    match op {
        Op::Bin(_, _) | Op::Icmp(_, _) => 2,
        Op::Cast(_, _, _) => 1,
        Op::Select(_) => 3,
    }
}

/// The width of argument `i`, counted from 0. No memory.
pub fn arg_width(op: Op, i: usize) -> Width
    requires { i < length (argument_widths op) }
    ensures { slice_get (argument_widths op) i ≡ Some result }
{
    match op {
        Op::Bin(_, width) | Op::Icmp(_, width) | Op::Cast(_, width, _) => width,
        Op::Select(width) => { if i == 0 { Width::I1 } else { width } }
    }
}

/// The width of the operation's value. No memory.
pub fn result_width(op: Op) -> Width
    ensures { result ≡ result_width op }
{
    match op {
        Op::Bin(_, width) | Op::Cast(_, _, width) | Op::Select(width) => width,
        Op::Icmp(_, _) => Width::I1,
    }
}
