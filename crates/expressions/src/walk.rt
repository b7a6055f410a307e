//! The walk over the points of a function that finds its expressions.
ghost use Rattle.std.specs.Prelude.{◌≡◌, ◌<◌, ◌≤◌, ◌+◌, ◌^◌, [], Some, All, IfOk, OnOk, length, map, take, slice_get};
ghost use Rattle.ir_types.specs.WellFormed.{IsFunctionIn};
ghost use Rattle.point_graph.specs.Numbers.{all_points};
ghost use Rattle.point_graph.specs.Building.{AreBlocks};
ghost use Rattle.expressions.specs.Expressions.{expr_at};
ghost use Rattle.expressions.specs.Kept.{IsSound};
ghost use Rattle.expressions.specs.Tracking.{IsUpTo, Tracks, untouched};
ghost use Rattle.expressions.specs.Walking.{AddsAll, AddsNumber, AddsOne, AreSoundInstrs, IsFit, IsSoundIfAny, block_exprs, place_expr, seen_of};

use crate::changes::Changes;
use crate::operations::expression;
use crate::syntax::Expr;
use indexmap::IndexSet;
use ir_types::module::Module;
use ir_types::syntax::{Block, Function, Instr};
use mc_num::NoMemory;
use point_graph::block_at;
use std::alloc::Global;

/// What a walk has found: the expressions, for each point that it passed the number of the one that occurs there, and
/// when variables were last changed.
#[derive(Drop)]
pub struct Found {
    pub exprs: IndexSet<Expr>,
    pub occurring: Vec<Option<u32>>,
    pub changes: Changes,
}

/// The number of an expression, if there is one, which is added to the others where it is new.
fn number_of(exprs: &mut IndexSet<Expr>, expr: Option<Expr>) -> Result<Option<u32>, NoMemory>
    requires sound { IsSoundIfAny expr }
    requires all_sound { All IsSound exprs.old.keys }
    requires few { length exprs.old.keys + 1 < 2 ^ 32 }
    ensures adds { IfOk result (λ x. AddsNumber expr exprs.old.keys exprs.new.keys x) }
    ensures sound { OnOk result (All IsSound exprs.new.keys) }
    ensures few { OnOk result (length exprs.new.keys ≤ length exprs.old.keys + 1) }
{
    match expr {
        Some(expr) => {
            let (number, _) = exprs.insert_full(expr)?;
            Ok(Some(number as u32))
        }
        None => Ok(None),
    }
}

/// The instructions in front of this one.
fn front<'s, 'a>(instrs: &'s [Instr<'a>], k: usize) -> &'s [Instr<'a>]
    requires { k ≤ length instrs.now }
    ensures { result.now ≡ take k instrs.now }
{
    &instrs[..k]
}

impl Found {
    fn new(alloc: Global) -> Found
        ensures exprs { result.exprs.keys ≡ [] }
        ensures occurring { result.occurring.items ≡ [] }
        ensures changes { result.changes ≡ untouched }
    {
        Found {
            exprs: IndexSet::new(alloc),
            occurring: Vec::new(alloc),
            changes: Changes::new(alloc),
        }
    }

    /// Passes a point at which this occurs.
    fn note(&mut self, expr: Option<Expr>) -> Result<(), NoMemory>
        requires sound { IsSoundIfAny expr }
        requires fit { IsFit (seen_of self.old) }
        requires few { length self.old.occurring.items + 1 < 2 ^ 32 }
        ensures adds { OnOk result (AddsOne expr (seen_of self.old) (seen_of self.new)) }
        ensures fit { OnOk result (IsFit (seen_of self.new)) }
        ensures changes { self.new.changes ≡ self.old.changes }
    {
        let number = number_of(&mut self.exprs, expr)?;
        self.occurring.push(number)?;
        Ok(())
    }

    /// Passes an instruction of a block whose first one is at the point `first`.
    fn pass_instr(
        &mut self,
        alloc: Global,
        module: &Module<'_>,
        block: &Block<'_>,
        k: usize,
        first: usize,
    ) -> Result<(), NoMemory>
        requires there { k < length block.now.instrs }
        requires sound { AreSoundInstrs block.now.instrs }
        requires tracks { Tracks «module».now (take k block.now.instrs) first self.old.changes }
        requires fit { IsFit (seen_of self.old) }
        requires point { length self.old.occurring.items ≡ first + k }
        requires few { first + k + 1 < 2 ^ 32 }
        ensures adds { OnOk result (AddsOne (place_expr «module».now block.now k) (seen_of self.old) (seen_of self.new)) }
        ensures tracks { OnOk result (Tracks «module».now (take (k + 1) block.now.instrs) first self.new.changes) }
        ensures fit { OnOk result (IsFit (seen_of self.new)) }
    {
        let instrs = block.instrs.as_slice();
        let kind = &instrs[k].kind;
        let expr = expression(alloc, &self.changes, front(instrs, k), first, kind)?;
        self.note(expr)?;
        self.changes.pass(module, kind, first + k)
    }

    /// Passes the points of a block.
    fn pass_block(
        &mut self,
        alloc: Global,
        module: &Module<'_>,
        block: &Block<'_>,
    ) -> Result<(), NoMemory>
        requires sound { AreSoundInstrs block.now.instrs }
        requires up_to { IsUpTo self.old.changes (length self.old.occurring.items) }
        requires fit { IsFit (seen_of self.old) }
        requires few { length self.old.occurring.items + length block.now.instrs + 2 < 2 ^ 32 }
        ensures adds { OnOk result (AddsAll (block_exprs «module».now block.now) (seen_of self.old) (seen_of self.new)) }
        ensures up_to { OnOk result (IsUpTo self.new.changes (length self.new.occurring.items)) }
        ensures fit { OnOk result (IsFit (seen_of self.new)) }
    {
        self.note(None)?;
        let first = self.occurring.len();
        for k in 0..block.instrs.len() {
            self.pass_instr(alloc, module, block, k, first)?;
        }
        self.note(None)
    }
}

/// A walk over the points of a function, which are those of these blocks behind Start.
pub fn walk(
    alloc: Global,
    module: &Module<'_>,
    function: &Function<'_>,
    blocks: &[u32],
) -> Result<Found, NoMemory>
    requires rules { IsFunctionIn «module».now function.now }
    requires within { AreBlocks function.now blocks.now }
    requires few { length (all_points function.now blocks.now) < 2 ^ 20 }
    ensures adds { IfOk result (λ w. AddsAll (map (expr_at «module».now function.now) (all_points function.now blocks.now)) (record { exprs = []; occurring = [] }) (seen_of w)) }
    ensures fit { IfOk result (λ w. IsFit (seen_of w)) }
{
    let mut found = Found::new(alloc);
    found.note(None)?;
    for block in blocks {
        found.pass_block(alloc, module, block_at(function, *block))?;
    }
    Ok(found)
}
