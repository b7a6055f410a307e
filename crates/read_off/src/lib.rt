//! The placement of an expression that is read off a set of nodes of its block network.
#![tactic(auto)]

ghost use Rattle.read_off.specs.Bits.{ReadOffIsBits};

mod bits;
mod reading;
pub mod rules;

pub use reading::read_off;

/// A placement is read off a set of nodes exactly where its lists are the numbers of the set bits.
pub fn read_off_is_bits()
    ensures { ReadOffIsBits }
{}
