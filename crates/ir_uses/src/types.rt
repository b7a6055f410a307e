//! Whether types and widths fit each other.
ghost use Rattle.std.specs.Prelude.{◌≡◌};
ghost use Rattle.ir_types.specs.Uses.{same_width, same_type, casts, is_void};

use ir_types::tree::Ty;
use mc_num::{Cast, Width, bits};

/// Whether two widths are the same.
pub fn is_same_width(one: Width, other: Width) -> bool
    ensures { result ≡ same_width one other }
{
    bits(one) == bits(other)
}

/// Whether two written types are the same.
pub fn is_same_type(one: Ty, other: Ty) -> bool
    ensures { result ≡ same_type one other }
{
    match (one, other) {
        (Ty::Int(one), Ty::Int(other)) => is_same_width(one, other),
        (Ty::Void, Ty::Void) => true,
        (Ty::Ptr, Ty::Ptr) => true,
        _ => false,
    }
}

/// Whether a type is `void`.
pub fn is_void(ty: Ty) -> bool
    ensures { result ≡ is_void ty }
{
    matches!(ty, Ty::Void)
}

/// Whether a cast changes the first width to the second: an extension grows it, a truncation shrinks it, and a bitcast
/// keeps it.
pub fn fits_widths(cast: Cast, from: Width, to: Width) -> bool
    ensures { result ≡ casts cast from to }
{
    match cast {
        Cast::Zext | Cast::Sext => bits(from) < bits(to),
        Cast::Trunc => bits(to) < bits(from),
        Cast::Bitcast => is_same_width(from, to),
    }
}
