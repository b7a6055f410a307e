//! The table of a function's expressions.
ghost use Rattle.std.specs.Prelude.{◌≡◌, ◌↔◌, ◌<◌, Some, IfOk, IsTrue, length, slice_get, slice_index_or};
ghost use Rattle.mc_num.specs.Value.{CanTrap};
ghost use Rattle.expressions.specs.Expressions.{constant_arg, divisor};
ghost use Rattle.std.specs.Option.{option_copied};
ghost use Rattle.expressions.specs.Kept.{IsSound};
ghost use Rattle.expressions.specs.Tables.{TrapsAsTold};

use crate::syntax::{Arg, Expr};
use indexmap::IndexSet;
use ir_types::items::Items;
use ir_types::module::Module;
use mc_num::can_trap;
use std::marker::Model;

/// The expressions of a function, each once, in the order in which its points first have them; and for each point the
/// number of the one that occurs there. Contracts see it as these lists and the module.
#[derive(Drop)]
pub struct Table<'m, 'a> {
    pub(crate) module: &'m Module<'a>,
    pub(crate) exprs: IndexSet<Expr>,
    pub(crate) occurring: Items<Option<u32>>,
}

impl<'m, 'a> Model for Table<'m, 'a> {
    ghost use Rattle.expressions.specs.Kept.{AreSound, Kept};

    ghost Value = { Kept };

    ghost view = { λ t. record { module_of = t.«module».now; exprs = t.exprs.keys; occurring = t.occurring } };

    ghost invariant = { λ t. AreSound t.exprs.keys };
}

/// The value of an operand of an expression, where it is a constant.
fn constant(arg: Option<&Arg>) -> Option<u64>
    ensures { result ≡ constant_arg (option_copied arg.entry) }
{
    match arg {
        Some(Arg::Const(value)) => Some(*value),
        _ => None,
    }
}

/// What is known of the divisor of an expression, if it is a division or a remainder.
fn divisor(expr: &Expr) -> Option<u64>
    ensures { result ≡ divisor expr.now }
{
    constant(expr.args.as_slice().get(1))
}

impl<'m, 'a> Table<'m, 'a> {
    /// How many expressions there are. No memory.
    pub fn len(&self) -> u32
        ensures { result ≡ length self.now.exprs }
    {
        self.exprs.len() as u32
    }

    /// The expression of this number, counted from 0. No memory.
    pub fn expr(&self, e: u32) -> &Expr
        requires { e < length self.now.exprs }
        ensures there { slice_get self.now.exprs e ≡ Some result.now }
        ensures sound { IsSound result.now }
    {
        &self.exprs[e as usize]
    }

    /// Whether the expression of this number can trap: whether it is a division or a remainder whose divisor, as far as
    /// it is a constant, lets it trap. No memory.
    pub fn traps(&self, e: u32) -> bool
        requires { e < length self.now.exprs }
        ensures { TrapsAsTold self.now.exprs e result }
    {
        let expr = self.expr(e);
        can_trap(expr.op, divisor(expr))
    }

    /// The module of the function. No memory.
    pub fn module(&self) -> &'m Module<'a>
        ensures { result.now ≡ self.now.module_of }
    {
        self.module
    }

    /// For each point the number of the expression that occurs there. No memory.
    pub fn occurring(&self) -> &[Option<u32>]
        ensures { result.now ≡ self.now.occurring }
    {
        self.occurring.as_slice()
    }

    /// Whether the expression of this number occurs at the point of this number. No memory.
    pub fn occurs(&self, e: u32, point: usize) -> bool
        requires { point < length self.now.occurring }
        ensures { IsTrue result ↔ (slice_get self.now.occurring point ≡ Some (Some e)) }
    {
        match self.occurring.as_slice()[point] {
            Some(number) => number == e,
            None => false,
        }
    }
}
