//! Expressions: operations over constants, parameters and variables.
use crate::args::Args;
use ir_types::syntax::Variable;
use mc_num::Op;

/// An operand of an expression.
#[derive(Clone, Copy, Debug, PartialEq, Eq, Hash)]
pub enum Arg {
    /// A constant, below 2^w at a width of w bits.
    Const(u64),
    /// The parameter of this number, counted from 0.
    Param(u32),
    /// What the variable holds.
    Var(Variable),
}

impl Default for Arg {
    fn default() -> Arg {
        Arg::Const(0)
    }
}

/// An operation with its operands, in order.
#[derive(Debug, Drop, PartialEq, Eq, Hash)]
pub struct Expr {
    pub op: Op,
    pub args: Args,
}

/// What a point is to an expression.
#[derive(Clone, Copy, Debug, PartialEq, Eq)]
pub enum Event {
    /// The point computes the expression.
    Occurs,
    /// It may change a variable of the expression.
    Kills,
    /// It is a call, another operation that can trap, a return or `unreachable`.
    Bars,
    /// It is none of these.
    Passes,
}
