//! The values of operations.

ghost use Rattle.std.specs.Prelude.{◌≡◌, ◌==◌, ◌&&◌, ◌<◌, ◌+◌, ◌-◌, ◌*◌, ◌/◌, ◌%◌, ◌^◌, IfOk, Ok, pos, int_div, int_rem, FitsSigned};
ghost use Rattle.mc_num.specs.Op.{IsWellFormedOp, argument_widths, bits, result_width};
ghost use Rattle.mc_num.specs.Value.{HaveWidths, binary_value, cast_value, compares, least, minus_one, modulo, shifted_left, shifted_right, sign_shifted, signed, signed_by, value_of};

use crate::op::{Bin, Cast, Op, Pred, Trap, Width, bits};

/// The value of the operation at these arguments, or its trap: `DivZero` exactly where a division's or a remainder's divisor
/// is 0, and `DivOverflow` exactly where a signed one has the least value and -1. Signed division rounds towards zero, and
/// the remainder has the dividend's sign. No memory.
pub fn eval(op: Op, args: &[u64]) -> Result<u64, Trap>
    requires formed { IsWellFormedOp op }
    requires fit { HaveWidths (argument_widths op) args.now }
    ensures value { result ≡ value_of op args.now }
    ensures below { IfOk result (λ v. v < 2 ^ bits (result_width op)) }
{
    match op {
        Op::Bin(bin, width) => binary(bin, width, args[0], args[1]),
        Op::Icmp(pred, width) => Ok(u64::from(holds(pred, width, args[0], args[1]))),
        Op::Cast(cast, from, to) => Ok(converted(cast, from, to, args[0])),
        Op::Select(_) => Ok(if args[0] == 1 { args[1] } else { args[2] }),
    }
}

fn binary(bin: Bin, width: Width, x: u64, y: u64) -> Result<u64, Trap>
    requires first { x < 2 ^ bits width }
    requires second { y < 2 ^ bits width }
    ensures { result ≡ binary_value bin width x y }
{
    match bin {
        Bin::Add => Ok(low_bits(width, x.wrapping_add(y))),
        Bin::Sub => Ok(low_bits(width, x.wrapping_sub(y))),
        Bin::Mul => Ok(low_bits(width, x.wrapping_mul(y))),
        Bin::UDiv => if y == 0 {
            Err(Trap::DivZero)
        } else {
            Ok(x / y)
        },
        Bin::URem => if y == 0 {
            Err(Trap::DivZero)
        } else {
            Ok(x % y)
        },
        Bin::SDiv => signed_quotient(width, x, y),
        Bin::SRem => signed_remainder(width, x, y),
        Bin::Shl => Ok(left_shift(width, x, y)),
        Bin::LShr => Ok(right_shift(width, x, y)),
        Bin::AShr => Ok(sign_shift(width, x, y)),
        Bin::And => Ok(x & y),
        Bin::Or => Ok(x | y),
        Bin::Xor => Ok(x ^ y),
    }
}

fn signed_quotient(width: Width, x: u64, y: u64) -> Result<u64, Trap>
    requires first { x < 2 ^ bits width }
    requires second { y < 2 ^ bits width }
    ensures { result ≡ signed_by int_div width x y }
{
    if y == 0 {
        Err(Trap::DivZero)
    } else if overflows(width, x, y) {
        Err(Trap::DivOverflow)
    } else {
        Ok(from_signed(width, to_signed(width, x) / to_signed(width, y)))
    }
}

fn signed_remainder(width: Width, x: u64, y: u64) -> Result<u64, Trap>
    requires first { x < 2 ^ bits width }
    requires second { y < 2 ^ bits width }
    ensures { result ≡ signed_by int_rem width x y }
{
    if y == 0 {
        Err(Trap::DivZero)
    } else if overflows(width, x, y) {
        Err(Trap::DivOverflow)
    } else {
        Ok(from_signed(width, to_signed(width, x) % to_signed(width, y)))
    }
}

fn overflows(width: Width, x: u64, y: u64) -> bool
    ensures { result ≡ ((x == least width) && (y == minus_one width)) }
{
    x == sign_bit(width) && y == all_ones(width)
}

fn left_shift(width: Width, x: u64, y: u64) -> u64
    requires { x < 2 ^ bits width }
    ensures { result ≡ shifted_left width x y }
{
    if y < u64::from(bits(width)) {
        low_bits(width, x << y)
    } else {
        0
    }
}

fn right_shift(width: Width, x: u64, y: u64) -> u64
    requires { x < 2 ^ bits width }
    ensures { result ≡ shifted_right width x y }
{
    if y < u64::from(bits(width)) {
        x >> y
    } else {
        0
    }
}

fn sign_shift(width: Width, x: u64, y: u64) -> u64
    requires { x < 2 ^ bits width }
    ensures { result ≡ sign_shifted width x y }
{
    if x < sign_bit(width) {
        right_shift(width, x, y)
    } else {
        all_ones(width) - right_shift(width, all_ones(width) - x, y)
    }
}

fn holds(pred: Pred, width: Width, x: u64, y: u64) -> bool
    requires first { x < 2 ^ bits width }
    requires second { y < 2 ^ bits width }
    ensures { result ≡ compares pred width x y }
{
    match pred {
        Pred::Eq => x == y,
        Pred::Ne => x != y,
        Pred::Ugt => x > y,
        Pred::Uge => x >= y,
        Pred::Ult => x < y,
        Pred::Ule => x <= y,
        Pred::Sgt => to_signed(width, x) > to_signed(width, y),
        Pred::Sge => to_signed(width, x) >= to_signed(width, y),
        Pred::Slt => to_signed(width, x) < to_signed(width, y),
        Pred::Sle => to_signed(width, x) <= to_signed(width, y),
    }
}

fn converted(cast: Cast, from: Width, to: Width, x: u64) -> u64
    requires { x < 2 ^ bits from }
    ensures { result ≡ cast_value cast from to x }
{
    match cast {
        Cast::Zext | Cast::Bitcast => x,
        Cast::Sext => from_signed(to, to_signed(from, x)),
        Cast::Trunc => low_bits(to, x),
    }
}

fn to_signed(width: Width, x: u64) -> i64
    requires { x < 2 ^ bits width }
    ensures { result ≡ signed width x }
{
    if x < sign_bit(width) {
        x as i64
    } else {
        -1 - (all_ones(width) - x) as i64
    }
}

fn from_signed(width: Width, x: i64) -> u64
    ensures { result ≡ modulo width x }
{
    if x >= 0 {
        low_bits(width, x as u64)
    } else {
        all_ones(width) - low_bits(width, (-1 - x) as u64)
    }
}

fn sign_bit(width: Width) -> u64
    ensures { result ≡ least width }
{
    match width {
        Width::I1 => 1,
        Width::I8 => 1 << 7,
        Width::I16 => 1 << 15,
        Width::I32 => 1 << 31,
        Width::I64 => 1 << 63,
    }
}

pub(crate) fn all_ones(width: Width) -> u64
    ensures { result ≡ minus_one width }
{
    match width {
        Width::I1 => 1,
        Width::I8 => 0xff,
        Width::I16 => 0xffff,
        Width::I32 => 0xffff_ffff,
        Width::I64 => u64::MAX,
    }
}

fn low_bits(width: Width, x: u64) -> u64
    ensures { result ≡ x % 2 ^ bits width }
{
    x & all_ones(width)
}
