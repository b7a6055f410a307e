//! Placements that are applied once they are found correct.
ghost use Rattle.std.specs.Prelude.{◌≡◌, ◌<◌, ◌^◌, All, IfOk, IfSome, IsTrue, length, sum_by};
ghost use Rattle.ir_types.specs.Limits.{IsWithinLimits};
ghost use Rattle.ir_types.specs.WellFormed.{IsFunctionIn};
ghost use Rattle.ir_machine.specs.Same.{Same};
ghost use Rattle.point_graph.specs.Numbers.{ArePoints};
ghost use Rattle.expressions.specs.Tables.{IsTable};
ghost use Rattle.transform.specs.Transformed.{Each, IsSoundIn};
ghost use Rattle.opt_rows.specs.Checked.{IsSafeByTable, IsChecked, AreChecked, AreSoundSoFar};

use expressions::{Table, table};
use ir_types::items::Items;
use ir_types::module::Module;
use ir_types::syntax::Function;
use mc_num::NoMemory;
use placed_moves::placed_is_move;
use placement::{Placement, first_invalid};
use point_graph::{Points, points};
use std::alloc::Global;
use transform::{Placed, apply, is_defined};

/// Whether each number is below the bound.
fn are_below(numbers: &[u32], bound: usize) -> bool
    ensures { IsTrue result → All (λ n. n < bound) numbers.now }
{
    numbers.iter().all(|n| (*n as usize) < bound)
}

/// Whether nothing is inserted, or the expression can't trap.
fn is_safe(table: &Table<'_, '_>, e: u32, placement: &Placement) -> bool
    requires { e < length table.now.exprs }
    ensures { IsTrue result → IsSafeByTable table.now e placement.now }
{
    placement.inserted.len() == 0 || !table.traps(e)
}

/// Whether a placement is correct, and inserts nothing of an expression that can trap.
fn is_checked(
    alloc: Global,
    function: &Function<'_>,
    points: &Points,
    table: &Table<'_, '_>,
    e: u32,
    placement: &Placement,
) -> Result<bool, NoMemory>
    requires points { ArePoints function.now points.now }
    requires table { IsTable function.now points.now table.now }
    requires expression { e < length table.now.exprs }
    ensures { IfOk result (λ checked. IsTrue checked → IsChecked function.now points.now table.now e placement.now) }
{
    if are_below(placement.inserted.as_slice(), points.edges.len())
        && are_below(placement.kept.as_slice(), points.points.len())
        && is_safe(table, e, placement)
    {
        let invalid = first_invalid(alloc, function, points, table, e, placement)?;
        Ok(invalid.is_none())
    } else {
        Ok(false)
    }
}

/// Whether the placements insert at fewer than 2^28 edges in all.
fn are_few(placements: &[Placement]) -> bool
    ensures { IsTrue result → sum_by (λ placement. length placement.inserted) placements.now < 2 ^ 28 }
{
    let mut left: usize = 1 << 28;
    for placement in placements {
        let count = placement.inserted.len();
        if left <= count {
            return false;
        }
        left -= count;
    }
    true
}

/// The placements of these edges and points, one for each expression; `None` where one isn't correct.
fn placements(
    alloc: Global,
    function: &Function<'_>,
    points: &Points,
    table: &Table<'_, '_>,
    lists: &[(&[u32], &[u32])],
) -> Result<Option<Vec<Placement>>, NoMemory>
    requires points { ArePoints function.now points.now }
    requires table { IsTable function.now points.now table.now }
    requires count { length lists.now ≡ length table.now.exprs }
    ensures { IfOk result (λ found. IfSome found (λ placements. AreChecked function.now points.now table.now (length table.now.exprs) placements.items)) }
{
    let mut placements = Vec::new(alloc);
    for e in 0..table.len() {
        let (inserted, kept) = lists[e as usize];
        let placement = Placement {
            inserted: Items::copied(alloc, inserted)?,
            kept: Items::copied(alloc, kept)?,
        };
        if !is_checked(alloc, function, points, table, e, &placement)? {
            return Ok(None);
        }
        placements.push(placement)?;
    }
    Ok(Some(placements))
}

/// What is placed in a function that has blocks.
fn placed_in<'m, 'a>(
    alloc: Global,
    program: &'m Module<'a>,
    function: &Function<'a>,
    lists: &[(&[u32], &[u32])],
) -> Result<Option<Placed<'m, 'a>>, NoMemory>
    requires defined { 0 < length function.now.blocks }
    requires rules { IsFunctionIn program.now function.now }
    requires limits { IsWithinLimits function.now }
    ensures { IfOk result (λ found. IfSome found (IsSoundIn program.now function.now)) }
{
    placed_is_move();
    let points = points(alloc, function)?;
    let table = table(alloc, program, function, &points)?;
    if lists.len() != table.len() as usize {
        return Ok(None);
    }
    match placements(alloc, function, &points, &table, lists)? {
        Some(placements) if are_few(&placements) => Ok(Some(Placed {
            points,
            table,
            placements: Items::from(placements),
        })),
        _ => Ok(None),
    }
}

/// What is placed in each function that has blocks.
fn all_placed<'m, 'a>(
    alloc: Global,
    program: &'m Module<'a>,
    lists: &[&[(&[u32], &[u32])]],
) -> Result<Option<Vec<Placed<'m, 'a>>>, NoMemory>
    requires limits { All IsWithinLimits program.now.functions }
    ensures { IfOk result (λ found. IfSome found (λ placed. AreSoundSoFar program.now (length program.now.functions) placed.items)) }
{
    let mut placed = Vec::new(alloc);
    for function in program.functions() {
        if is_defined(function) {
            let lists = match lists.get(placed.len()) {
                Some(lists) => *lists,
                None => return Ok(None),
            };
            match placed_in(alloc, program, function, lists)? {
                Some(one) => placed.push(one)?,
                None => return Ok(None),
            }
        }
    }
    Ok(Some(placed))
}

/// The module with placements applied: for each function that has blocks, in text order, one pair of lists for each of
/// its expressions, the edges where it is inserted and the points where it is kept. It does what the module does.
///
/// `None` where these are fewer functions, or other numbers of expressions, than the module has, where a number names
/// no edge or point, where a placement isn't correct, or where something of an expression that can trap is inserted.
/// `NoMemory` where an allocation was refused.
pub fn checked_apply<'a>(
    alloc: Global,
    program: &Module<'a>,
    lists: &[&[(&[u32], &[u32])]],
) -> Result<Option<Module<'a>>, NoMemory>
    requires limits { All IsWithinLimits program.now.functions }
    ensures { IfOk result (λ found. IfSome found (Same program.now)) }
{
    match all_placed(alloc, program, lists)? {
        Some(placed) => Ok(Some(apply(alloc, program, &placed)?)),
        None => Ok(None),
    }
}
