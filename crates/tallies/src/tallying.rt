//! The tallies of a module.
ghost use Rattle.std.specs.Prelude.{◌≡◌, ◌<◌, ◌*◌, ◌+◌, ◌^◌, All, IfOk, length};
ghost use Rattle.ir_types.specs.Limits.{IsWithinLimits};
ghost use Rattle.ir_types.specs.WellFormed.{IsFunctionIn};
ghost use Rattle.point_graph.specs.Numbers.{ArePoints};
ghost use Rattle.expressions.specs.Tables.{IsTable};
ghost use Rattle.profile.specs.Counts.{IsAccepted, total};
ghost use Rattle.block_counts.specs.Counts.{AreBlockCounts};
ghost use Rattle.occurrences.specs.Listed.{AreOccurrences};
ghost use Rattle.tallies.specs.Tallies.{AreFitting, AreFittingBy, AreFittingIn, AreTallies, AreTalliesBy, AreTalliesIn, totals_of};
ghost use Rattle.tallies.specs.Steps.{AreOwnCounts, AreLight};

use crate::tally::{Tally, tally_of};
use crate::totals::Totals;
use block_counts::{BlockCounts, block_counts};
use expressions::{Table, table};
use ir_types::items::Items;
use ir_types::module::Module;
use ir_types::syntax::Function;
use mc_num::NoMemory;
use occurrences::occurrences;
use one_transformed::one_numbering;
use placement::Placement;
use point_graph::{Points, points};
use profile::{FnCounts, Profile};
use std::alloc::Global;
use transform::is_defined;

/// The tallies of a module, with their sums.
#[derive(Drop)]
pub struct Tallied {
    /// For each function that has blocks, in text order, a tally for each of its expressions.
    pub functions: Vec<Items<Tally>>,
    /// The sums over all of them.
    pub totals: Totals,
}

/// A tally for each expression of a function.
fn each_tally(
    alloc: Global,
    function: &Function<'_>,
    points: &Points,
    table: &Table<'_, '_>,
    counts: &FnCounts,
    by_block: &BlockCounts,
    occurrences: &[Items<u32>],
    placements: &[Placement],
) -> Result<Vec<Tally>, NoMemory>
    requires points { ArePoints function.now points.now }
    requires table { IsTable function.now points.now table.now }
    requires counts { AreOwnCounts function.now counts.now }
    requires by_block { AreBlockCounts function.now counts.now by_block.now }
    requires occurrences { AreOccurrences table.now occurrences.now }
    requires fitting { AreFittingBy function.now points.now table.now placements.now }
    ensures tallies { IfOk result (λ tallies. AreTalliesBy function.now counts.now points.now table.now placements.now tallies.items) }
    ensures light { IfOk result (λ tallies. AreLight (2 ^ 20 * (total counts.now + 1)) tallies.items) }
{
    let mut tallies = Vec::new(alloc);
    for e in 0..table.len() {
        let own = occurrences[e as usize].as_slice();
        let placement = &placements[e as usize];
        tallies.push(tally_of(
            alloc, function, points, table, e, counts, by_block, own, placement,
        )?)?;
    }
    Ok(tallies)
}

/// The tallies of a function that has blocks.
fn tallies_in(
    alloc: Global,
    program: &Module<'_>,
    function: &Function<'_>,
    counts: &FnCounts,
    placements: &[Placement],
) -> Result<Vec<Tally>, NoMemory>
    requires defined { 0 < length function.now.blocks }
    requires rules { IsFunctionIn program.now function.now }
    requires limits { IsWithinLimits function.now }
    requires counts { AreOwnCounts function.now counts.now }
    requires fitting { AreFittingIn program.now function.now placements.now }
    ensures tallies { IfOk result (λ tallies. AreTalliesIn program.now function.now counts.now placements.now tallies.items) }
    ensures light { IfOk result (λ tallies. AreLight (2 ^ 20 * (total counts.now + 1)) tallies.items) }
{
    one_numbering();
    let points = points(alloc, function)?;
    let table = table(alloc, program, function, &points)?;
    let occurrences = occurrences(alloc, &table)?;
    let by_block = block_counts(alloc, function, counts)?;
    each_tally(
        alloc,
        function,
        &points,
        &table,
        counts,
        &by_block,
        &occurrences,
        placements,
    )
}

/// The tallies of each function that has blocks, with their sums.
fn each_function(
    alloc: Global,
    program: &Module<'_>,
    counts: &[FnCounts],
    placements: &[Items<Placement>],
) -> Result<Tallied, NoMemory>
    requires limits { All IsWithinLimits program.now.functions }
    requires counts { IsAccepted program.now counts.now }
    requires placements { AreFitting program.now placements.now }
    ensures tallies { IfOk result (λ found. AreTallies program.now counts.now placements.now found.functions.items) }
    ensures totals { IfOk result (λ found. found.totals ≡ totals_of found.functions.items) }
{
    let mut functions = Vec::new(alloc);
    let mut totals = Totals::none();
    for function in program.functions() {
        if is_defined(function) {
            let place = functions.len();
            let own = &counts[place];
            let placed = placements[place].as_slice();
            let tallies = tallies_in(alloc, program, function, own, placed)?;
            totals = totals.plus(Totals::over(&tallies));
            functions.push(Items::from(tallies))?;
        }
    }
    Ok(Tallied { functions, totals })
}

/// What placements cost and save by the counts of a profile: for each function that has blocks a tally for each of its
/// expressions, and the sums. It takes linear time. `NoMemory` where an allocation was refused.
pub fn tallies(
    alloc: Global,
    program: &Module<'_>,
    profile: &Profile,
    placements: &[Items<Placement>],
) -> Result<Tallied, NoMemory>
    requires limits { All IsWithinLimits program.now.functions }
    requires counts { IsAccepted program.now profile.now.functions }
    requires placements { AreFitting program.now placements.now }
    ensures tallies { IfOk result (λ found. AreTallies program.now profile.now.functions placements.now found.functions.items) }
    ensures totals { IfOk result (λ found. found.totals ≡ totals_of found.functions.items) }
{
    each_function(alloc, program, profile.functions.as_slice(), placements)
}
