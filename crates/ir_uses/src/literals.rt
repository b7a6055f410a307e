//! The numbers that widths hold, and what literals count.
ghost use Rattle.std.specs.Prelude.{◌≡◌, ◌^◌};
ghost use Rattle.mc_num.specs.Op.{bits};
ghost use Rattle.ir_types.specs.Literals.{is_in_range, residue, literal_value};
ghost use Rattle.ir_types.specs.ModuleOf.{constant_of};

use ir_types::tree::RawValue;
use mc_num::Width;

/// Whether a number can be written at a width: from -2^(w-1) to 2^w - 1.
pub fn is_in_range(width: Width, number: i128) -> bool
    ensures { result ≡ is_in_range width number }
{
    match width {
        Width::I1 => -1 <= number && number <= 1,
        Width::I8 => -0x80 <= number && number <= 0xFF,
        Width::I16 => -0x8000 <= number && number <= 0xFFFF,
        Width::I32 => -0x8000_0000 <= number && number <= 0xFFFF_FFFF,
        Width::I64 => { -0x8000_0000_0000_0000 <= number && number <= 0xFFFF_FFFF_FFFF_FFFF }
    }
}

/// How many numbers a width has.
fn modulus(width: Width) -> u128
    ensures { result ≡ 2 ^ bits width }
{
    match width {
        Width::I1 => 0x2,
        Width::I8 => 0x100,
        Width::I16 => 0x1_0000,
        Width::I32 => 0x1_0000_0000,
        Width::I64 => 0x1_0000_0000_0000_0000,
    }
}

/// A number modulo 2^w.
pub fn residue(width: Width, number: i128) -> u64
    ensures { result ≡ residue width number }
{
    let modulus = modulus(width);
    if number >= 0 {
        let above = number as u128;
        (above % modulus) as u64
    } else {
        let below = (-1 - number) as u128;
        (modulus - (below % modulus + 1)) as u64
    }
}

/// What a literal counts at a width; `None` for a name, and for a literal that 128 bits don't hold.
pub fn literal_value(width: Width, value: &RawValue<'_>) -> Option<u64>
    ensures { result ≡ literal_value width value.now }
{
    match value {
        RawValue::Number(number) => Some(residue(width, *number)),
        RawValue::Bool(is_true) => Some(if *is_true { 1 } else { 0 }),
        RawValue::Zero => Some(0),
        RawValue::Local(_) | RawValue::Wide => None,
    }
}

/// The constant that a literal stands for at a width, and 0 where it counts nothing.
pub fn constant_of(width: Width, value: &RawValue<'_>) -> u64
    ensures { result ≡ constant_of width value.now }
{
    match literal_value(width, value) {
        Some(number) => number,
        None => 0,
    }
}
