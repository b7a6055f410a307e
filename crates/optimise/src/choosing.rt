//! What is placed in a function.
ghost use Rattle.std.specs.Prelude.{◌≡◌, ◌<◌, ◌≤◌, ◌^◌, ◌↔◌, ◌++◌, IfErr, IfOk, IsTrue, length, take};
ghost use Rattle.std.specs.List.{AllByRecursion};
ghost use Rattle.ir_types.specs.Limits.{IsWithinLimits};
ghost use Rattle.ir_types.specs.WellFormed.{IsFunctionIn};
ghost use Rattle.point_graph.specs.Numbers.{ArePoints};
ghost use Rattle.expressions.specs.Tables.{IsTable};
ghost use Rattle.certified.specs.Certified.{AreFew, placements_in};
ghost use Rattle.optimise.specs.Choice.{IsBestEntry, IsChosenEntry, IsLazyEntry};
ghost use Rattle.optimise.specs.Placing.{AreChosenEntries, AreCountsOf, IsChosenIn, IsUnplaced};

use crate::error::OptimiseError;
use certificate::Entry;
use certified::placements_of;
use expressions::{Table, table};
use ir_types::items::Items;
use ir_types::module::Module;
use ir_types::syntax::Function;
use lazy_motion::lazy;
use max_flow::Steps;
use mc_num::NoMemory;
use mc_solve::solve;
use placement::Placement;
use point_graph::{Points, points};
use profile::FnCounts;
use std::alloc::Global;
use std::marker::Brand;
use std::sync::ledger::{Blank, Ledger};
use transform::Placed;

/// At how many edges at most something may be inserted in a function.
const MOST_INSERTIONS: usize = (1 << 28) - 1;

/// What is chosen in a function: what is placed, and the entries that show it.
#[derive(Drop)]
pub(crate) struct Chosen<'m, 'a> {
    pub(crate) placed: Placed<'m, 'a>,
    pub(crate) entries: Items<Entry>,
}

/// The ranks of the nodes from node 2 on.
fn inner_ranks(alloc: Global, ranks: &[u32]) -> Result<Vec<u32>, NoMemory>
    requires { 2 ≤ length ranks.now }
    ensures ranks { IfOk result (λ inner. take 2 ranks.now ++ inner.items ≡ ranks.now) }
    ensures small { IfOk result (λ inner. AllByRecursion (λ rank. rank < 2 ^ 32) inner.items) }
{
    let mut inner = Vec::new(alloc);
    for rank in &ranks[2..] {
        inner.push(*rank)?;
    }
    Ok(inner)
}

/// The best placement of an expression with the flow and the ranks that show it; the phases are counted in a new ledger.
fn best_counted<L: Ledger>(
    alloc: Global,
    blank: Blank,
    function: &Function<'_>,
    points: &Points,
    table: &Table<'_, '_>,
    e: u32,
    counts: &FnCounts,
) -> Result<Entry, NoMemory>
    requires name { blank.name ≡ L.name }
    requires parts { blank.parts ≡ L.parts }
    requires some { 0 < blank.parts }
    requires defined { 0 < length function.now.blocks }
    requires points { ArePoints function.now points.now }
    requires table { IsTable function.now points.now table.now }
    requires expression { e < length table.now.exprs }
    requires counts { AreCountsOf function.now counts.now }
    ensures { IfOk result (IsBestEntry function.now points.now table.now counts.now e) }
{
    let mut phases = Steps::<L>::new(blank);
    let solved = solve(alloc, function, points, table, e, counts, &mut phases)?;
    let ranks = inner_ranks(alloc, &solved.cut.rank)?;
    Ok(Entry {
        placement: solved.placement,
        flow: Some(Items::from(solved.flow.amounts)),
        ranks: Some(Items::from(ranks)),
    })
}

/// The entry with the best placement of an expression by the counts of its function.
fn best(
    alloc: Global,
    function: &Function<'_>,
    points: &Points,
    table: &Table<'_, '_>,
    e: u32,
    counts: &FnCounts,
) -> Result<Entry, NoMemory>
    requires defined { 0 < length function.now.blocks }
    requires points { ArePoints function.now points.now }
    requires table { IsTable function.now points.now table.now }
    requires expression { e < length table.now.exprs }
    requires counts { AreCountsOf function.now counts.now }
    ensures { IfOk result (IsBestEntry function.now points.now table.now counts.now e) }
{
    best_counted::<Brand>(alloc, Blank::new(1), function, points, table, e, counts)
}

/// The entry with the lazy placement of an expression.
fn lazy_entry(
    alloc: Global,
    function: &Function<'_>,
    points: &Points,
    table: &Table<'_, '_>,
    e: u32,
) -> Result<Entry, NoMemory>
    requires defined { 0 < length function.now.blocks }
    requires points { ArePoints function.now points.now }
    requires table { IsTable function.now points.now table.now }
    requires expression { e < length table.now.exprs }
    ensures { IfOk result (IsLazyEntry function.now points.now table.now e) }
{
    Ok(Entry {
        placement: lazy(alloc, function, points, table, e)?,
        flow: None,
        ranks: None,
    })
}

/// The entry with the placement that is chosen for an expression by the counts of its function: the best one if it can't
/// trap, else the lazy one.
fn choice(
    alloc: Global,
    function: &Function<'_>,
    points: &Points,
    table: &Table<'_, '_>,
    e: u32,
    counts: &FnCounts,
) -> Result<Entry, NoMemory>
    requires defined { 0 < length function.now.blocks }
    requires points { ArePoints function.now points.now }
    requires table { IsTable function.now points.now table.now }
    requires expression { e < length table.now.exprs }
    requires counts { AreCountsOf function.now counts.now }
    ensures { IfOk result (IsChosenEntry function.now points.now table.now counts.now e) }
{
    if table.traps(e) {
        lazy_entry(alloc, function, points, table, e)
    } else {
        best(alloc, function, points, table, e, counts)
    }
}

/// For each expression the entry with the placement that is chosen by the counts of the function.
pub(crate) fn entries(
    alloc: Global,
    function: &Function<'_>,
    points: &Points,
    table: &Table<'_, '_>,
    counts: &FnCounts,
) -> Result<Vec<Entry>, NoMemory>
    requires defined { 0 < length function.now.blocks }
    requires points { ArePoints function.now points.now }
    requires table { IsTable function.now points.now table.now }
    requires counts { AreCountsOf function.now counts.now }
    ensures { IfOk result (λ entries. AreChosenEntries function.now points.now table.now counts.now (length table.now.exprs) entries.items) }
{
    let mut entries = Vec::new(alloc);
    for e in 0..table.len() {
        entries.push(choice(alloc, function, points, table, e, counts)?)?;
    }
    Ok(entries)
}

/// Whether the placements insert at so few edges that they can be applied.
fn are_few(placements: &[Placement]) -> bool
    ensures { IsTrue result ↔ AreFew placements.now }
{
    let mut left = MOST_INSERTIONS;
    for placement in placements {
        if placement.inserted.len() > left {
            return false;
        }
        left -= placement.inserted.len();
    }
    true
}

/// What is chosen in a function that has blocks, by its counts.
pub(crate) fn chosen_in<'m, 'a>(
    alloc: Global,
    program: &'m Module<'a>,
    function: &Function<'a>,
    counts: &FnCounts,
) -> Result<Chosen<'m, 'a>, OptimiseError>
    requires defined { 0 < length function.now.blocks }
    requires rules { IsFunctionIn program.now function.now }
    requires limits { IsWithinLimits function.now }
    requires counts { AreCountsOf function.now counts.now }
    ensures chosen { IfOk result (IsChosenIn program.now function.now counts.now) }
    ensures unplaced { IfErr result (IsUnplaced program.now function.now counts.now) }
{
    let points = points(alloc, function)?;
    let table = table(alloc, program, function, &points)?;
    let entries = entries(alloc, function, &points, &table, counts)?;
    let placements = placements_of(alloc, &entries)?;
    if !are_few(&placements) {
        return Err(OptimiseError::TooMany);
    }
    Ok(Chosen {
        placed: Placed {
            points,
            table,
            placements: Items::from(placements),
        },
        entries: Items::from(entries),
    })
}
