//! The check of one entry of a certificate.
ghost use Rattle.std.specs.Prelude.{◌<◌, ◌^◌, IfOk, IfSome, MatchOption, length};
ghost use Rattle.point_graph.specs.Numbers.{ArePoints};
ghost use Rattle.expressions.specs.Tables.{IsTable};
ghost use Rattle.profile.specs.Counts.{HasSlots, IsUnreachedZero, total};
ghost use Rattle.certified.specs.Entries.{IsGood};
ghost use Rattle.entry_check.specs.Faults.{IsFault};

use crate::fault::Fault;
use crate::lists::are_listed;
use crate::plain::plain_fault;
use crate::trapping::trapping_fault;
use certificate::Entry;
use expressions::Table;
use function_graphs::events_exist;
use ir_types::syntax::Function;
use mc_num::NoMemory;
use point_graph::Points;
use profile::FnCounts;
use std::alloc::Global;

/// What is wrong with the entry of the expression of this number, if anything: the first fault in the order of `Fault`.
/// `NoMemory` where an allocation was refused.
pub fn check_entry(
    alloc: Global,
    function: &Function<'_>,
    points: &Points,
    table: &Table<'_, '_>,
    e: u32,
    counts: &FnCounts,
    entry: &Entry,
) -> Result<Option<Fault>, NoMemory>
    requires defined { 0 < length function.now.blocks }
    requires points { ArePoints function.now points.now }
    requires table { IsTable function.now points.now table.now }
    requires expression { e < length table.now.exprs }
    requires slots { HasSlots function.now counts.now }
    requires unreached { IsUnreachedZero function.now counts.now }
    requires total { total counts.now < 2 ^ 62 }
    ensures fault { IfOk result (λ fault. MatchOption fault (IsGood function.now points.now table.now counts.now e entry.now) (IsFault function.now points.now table.now counts.now e entry.now)) }
    // What has a fault isn't good.
    ensures not_good { IfOk result (λ fault. IfSome fault (λ _. ¬ (IsGood function.now points.now table.now counts.now e entry.now))) }
{
    events_exist();
    if !are_listed(function, points, table, e, &entry.placement) {
        return Ok(Some(Fault::Lists));
    }
    if table.traps(e) {
        trapping_fault(alloc, function, points, table, e, &entry.placement)
    } else {
        plain_fault(alloc, function, points, table, e, counts, entry)
    }
}
