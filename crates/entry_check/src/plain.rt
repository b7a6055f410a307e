//! What is wrong with the entry of an expression that can't trap.

ghost use Rattle.std.specs.Prelude.{◌≡◌, ◌<◌, ◌^◌, IfOk, MatchOption, length};
ghost use Rattle.point_graph.specs.Numbers.{ArePoints};
ghost use Rattle.expressions.specs.Tables.{IsTable};
ghost use Rattle.profile.specs.Counts.{HasSlots, IsUnreachedZero, total};
ghost use Rattle.certified.specs.Entries.{CertifiesIn, IsListed, IsRight};
ghost use Rattle.entry_check.specs.Parts.{IsNetworkIn, IsPlainFault};

use crate::fault::Fault;
use crate::proof::proof_fault;
use crate::shown::shown_by;
use certificate::Entry;
use expressions::Table;
use function_graphs::events_exist;
use ir_types::syntax::Function;
use local_sets::local_sets;
use mc_num::NoMemory;
use placement::first_invalid;
use point_graph::Points;
use profile::FnCounts;
use reduction::{BlockNet, network};
use std::alloc::Global;

/// What is wrong with the entry of an expression that can't trap, besides its lists: the first fault in the order of
/// `Fault`. `NoMemory` where an allocation was refused.
pub fn plain_fault(
    alloc: Global,
    function: &Function<'_>,
    points: &Points,
    table: &Table<'_, '_>,
    e: u32,
    counts: &FnCounts,
    entry: &Entry,
) -> Result<Option<Fault>, NoMemory>
    requires defined { 0 < length function.now.blocks }
    requires points { ArePoints function.now points.now }
    requires table { IsTable function.now points.now table.now }
    requires expression { e < length table.now.exprs }
    requires slots { HasSlots function.now counts.now }
    requires unreached { IsUnreachedZero function.now counts.now }
    requires total { total counts.now < 2 ^ 62 }
    requires listed { IsListed function.now points.now table.now e entry.now }
    ensures { IfOk result (λ fault. MatchOption fault
        (IsRight function.now points.now table.now e entry.now × CertifiesIn function.now points.now table.now counts.now e entry.now)
        (IsPlainFault function.now points.now table.now counts.now e entry.now)) }
{
    events_exist();
    let full = full_network(alloc, function, points, table, e, counts)?;
    let Some(shown) = shown_by(alloc, &full.net, entry)? else {
        return Ok(Some(Fault::Missing));
    };
    if let Some(point) = first_invalid(alloc, function, points, table, e, &entry.placement)? {
        return Ok(Some(Fault::Incorrect(point)));
    }
    proof_fault(
        alloc,
        function,
        points,
        table,
        e,
        counts,
        &entry.placement,
        &full,
        &shown,
    )
}

/// The block network of the expression of this number.
fn full_network(
    alloc: Global,
    function: &Function<'_>,
    points: &Points,
    table: &Table<'_, '_>,
    e: u32,
    counts: &FnCounts,
) -> Result<BlockNet, NoMemory>
    requires defined { 0 < length function.now.blocks }
    requires points { ArePoints function.now points.now }
    requires table { IsTable function.now points.now table.now }
    requires expression { e < length table.now.exprs }
    requires slots { HasSlots function.now counts.now }
    requires unreached { IsUnreachedZero function.now counts.now }
    requires total { total counts.now < 2 ^ 62 }
    ensures { IfOk result (IsNetworkIn function.now points.now table.now counts.now e) }
{
    events_exist();
    let sets = local_sets(alloc, function, points, table, e)?;
    network(alloc, function, points, &sets, counts)
}
