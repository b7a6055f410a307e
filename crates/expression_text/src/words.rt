//! The words of operations and types.
ghost use Rattle.std.specs.Prelude.{◌≡◌};
ghost use Rattle.ir_printer.specs.Text.{width_text, bin_text, pred_text, cast_text};

use mc_num::{Bin, Cast, Pred, Width};

pub(crate) fn width_text(width: Width) -> &'static [u8]
    ensures { result.now ≡ width_text width }
{
    match width {
        Width::I1 => b"i1",
        Width::I8 => b"i8",
        Width::I16 => b"i16",
        Width::I32 => b"i32",
        Width::I64 => b"i64",
    }
}

pub(crate) fn bin_text(bin: Bin) -> &'static [u8]
    ensures { result.now ≡ bin_text bin }
{
    match bin {
        Bin::Add => b"add",
        Bin::Sub => b"sub",
        Bin::Mul => b"mul",
        Bin::UDiv => b"udiv",
        Bin::SDiv => b"sdiv",
        Bin::URem => b"urem",
        Bin::SRem => b"srem",
        Bin::Shl => b"shl",
        Bin::LShr => b"lshr",
        Bin::AShr => b"ashr",
        Bin::And => b"and",
        Bin::Or => b"or",
        Bin::Xor => b"xor",
    }
}

pub(crate) fn pred_text(pred: Pred) -> &'static [u8]
    ensures { result.now ≡ pred_text pred }
{
    match pred {
        Pred::Eq => b"eq",
        Pred::Ne => b"ne",
        Pred::Ugt => b"ugt",
        Pred::Uge => b"uge",
        Pred::Ult => b"ult",
        Pred::Ule => b"ule",
        Pred::Sgt => b"sgt",
        Pred::Sge => b"sge",
        Pred::Slt => b"slt",
        Pred::Sle => b"sle",
    }
}

pub(crate) fn cast_text(cast: Cast) -> &'static [u8]
    ensures { result.now ≡ cast_text cast }
{
    match cast {
        Cast::Zext => b"zext",
        Cast::Sext => b"sext",
        Cast::Trunc => b"trunc",
        Cast::Bitcast => b"bitcast",
    }
}
