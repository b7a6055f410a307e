//! What one placement costs and changes.
ghost use Rattle.std.specs.Prelude.{◌≡◌, ◌<◌, ◌≤◌, ◌+◌, ◌*◌, ◌^◌, [], IfOk, length};
ghost use Rattle.point_graph.specs.Numbers.{ArePoints};
ghost use Rattle.expressions.specs.Tables.{IsTable};
ghost use Rattle.profile.specs.Counts.{total};
ghost use Rattle.block_counts.specs.Counts.{AreBlockCounts};
ghost use Rattle.occurrences.specs.Listed.{ArePlacesOf};
ghost use Rattle.tallies.specs.Tallies.{IsFitting, IsTally};
ghost use Rattle.tallies.specs.Steps.{AreOwnCounts, IsLight};

use crate::profiled::profiled;
use block_counts::BlockCounts;
use expressions::{Args, Expr, Table};
use ir_types::items::Items;
use ir_types::syntax::Function;
use mc_num::NoMemory;
use placement::Placement;
use point_graph::Points;
use profile::FnCounts;
use std::alloc::Global;

/// What a placement of an expression costs and changes, by the counts of its function.
#[derive(Debug, Drop)]
pub struct Tally {
    /// The expression.
    pub expr: Expr,
    /// How often it is computed where it occurs: the sum of the counts of the blocks of its occurrences.
    pub old: u128,
    /// How often it is computed where it is placed: the sum of the counts of the inserted edges and of the blocks of the
    /// kept occurrences.
    pub new: u128,
    /// At how many edges it is inserted.
    pub inserted: usize,
    /// How many of its occurrences are kept.
    pub kept: usize,
    /// How many of its occurrences are deleted.
    pub deleted: usize,
    /// Whether it can trap, so that its placement is the lazy one.
    pub lazy: bool,
}

/// A copy of an expression.
fn copied(alloc: Global, expr: &Expr) -> Result<Expr, NoMemory>
    ensures { IfOk result (λ copy. copy ≡ expr.now) }
{
    let mut args = Args::new(alloc);
    for arg in expr.args.as_slice() {
        args.push(*arg)?;
    }
    Ok(Expr { op: expr.op, args })
}

/// The placement that keeps all of these occurrences.
fn all_kept(alloc: Global, occurrences: &[u32]) -> Result<Placement, NoMemory>
    ensures inserted { IfOk result (λ placement. placement.inserted ≡ []) }
    ensures kept { IfOk result (λ placement. placement.kept ≡ occurrences.now) }
{
    Ok(Placement {
        inserted: Items::new(alloc),
        kept: Items::copied(alloc, occurrences)?,
    })
}

/// The tally of a placement of an expression that occurs at these points.
pub(crate) fn tally_of(
    alloc: Global,
    function: &Function<'_>,
    points: &Points,
    table: &Table<'_, '_>,
    e: u32,
    counts: &FnCounts,
    by_block: &BlockCounts,
    occurrences: &[u32],
    placement: &Placement,
) -> Result<Tally, NoMemory>
    requires points { ArePoints function.now points.now }
    requires table { IsTable function.now points.now table.now }
    requires expression { e < length table.now.exprs }
    requires counts { AreOwnCounts function.now counts.now }
    requires by_block { AreBlockCounts function.now counts.now by_block.now }
    requires occurrences { ArePlacesOf table.now.occurring e occurrences.now }
    requires placement { IsFitting function.now points.now table.now e placement.now }
    ensures tally { IfOk result (IsTally function.now counts.now points.now table.now e placement.now) }
    ensures light { IfOk result (IsLight (2 ^ 20 * (total counts.now + 1))) }
{
    let before = all_kept(alloc, occurrences)?;
    Ok(Tally {
        expr: copied(alloc, table.expr(e))?,
        old: profiled(function, points, counts, by_block, &before),
        new: profiled(function, points, counts, by_block, placement),
        inserted: placement.inserted.len(),
        kept: placement.kept.len(),
        deleted: occurrences.len() - placement.kept.len(),
        lazy: table.traps(e),
    })
}
