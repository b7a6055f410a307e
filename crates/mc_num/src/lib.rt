//! Widths, operations with their values and traps, and the error for want of memory.
#![tactic(auto)]

mod memory;
mod op;
mod traps;
mod value;

pub use memory::NoMemory;
pub use op::{Bin, Cast, Op, Pred, Trap, Width, arg_width, arity, bits, result_width};
pub use traps::can_trap;
pub use value::eval;
