//! The first entry of a certificate that has a fault.
ghost use Rattle.std.specs.Prelude.{◌≡◌, ◌<◌, ◌^◌, IfOk, MatchOption, length};
ghost use Rattle.checker.specs.Reasons.{AreLengths};
ghost use Rattle.checker.specs.Checked.{AreGoodEntries, AreReady, HasRules, IsCounting, IsReasonAt, IsReasonIn, NoneIsFaulty, reason_of};

use crate::numbered::Numbered;
use crate::verdict::Reason;
use certificate::{Certificate, Entry};
use entry_check::{Fault, check_entry};
use mc_num::NoMemory;
use profile::FnCounts;
use std::alloc::Global;

/// The fault of an entry, with where the entry is.
fn reason_at(function: u32, expression: u32, fault: Fault) -> Reason
    ensures { result ≡ reason_of function expression fault }
{
    match fault {
        Fault::Lists => Reason::Shape {
            function,
            expression,
        },
        Fault::Missing => Reason::Missing {
            function,
            expression,
        },
        Fault::Incorrect(point) => Reason::Incorrect {
            function,
            expression,
            point,
        },
        Fault::Unsafe(edge) => Reason::Unsafe {
            function,
            expression,
            edge,
        },
        Fault::Capacity(arc) => Reason::Capacity {
            function,
            expression,
            arc,
        },
        Fault::Balance(node) => Reason::Balance {
            function,
            expression,
            node,
        },
        Fault::Value(cost, sum) => Reason::Value {
            function,
            expression,
            cost,
            sum,
        },
        Fault::Rank(node) => Reason::Rank {
            function,
            expression,
            node,
        },
        Fault::Places => Reason::Places {
            function,
            expression,
        },
    }
}

/// The fault of the first entry of the function of this number that has one.
fn fault_in(
    alloc: Global,
    number: u32,
    own: &Numbered<'_, '_>,
    counts: &FnCounts,
    entries: &[Entry],
) -> Result<Option<Reason>, NoMemory>
    requires own { HasRules own.now }
    requires counts { IsCounting own.now.function.now counts.now }
    requires entries { length entries.now ≡ length own.now.table.exprs }
    ensures { IfOk result (λ found. MatchOption found (AreGoodEntries own.now counts.now entries.now (length entries.now)) (IsReasonIn own.now counts.now entries.now number)) }
{
    for e in 0..own.table.len() {
        let entry = &entries[e as usize];
        let found = check_entry(
            alloc,
            own.function,
            &own.points,
            &own.table,
            e,
            counts,
            entry,
        )?;
        if let Some(fault) = found {
            return Ok(Some(reason_at(number, e, fault)));
        }
    }
    Ok(None)
}

/// The fault of the first entry that has one. `NoMemory` where an allocation was refused.
pub(crate) fn first_fault(
    alloc: Global,
    numbered: &[Numbered<'_, '_>],
    counts: &[FnCounts],
    certificate: &Certificate,
) -> Result<Option<Reason>, NoMemory>
    requires ready { AreReady numbered.now counts.now }
    requires lengths { AreLengths numbered.now certificate.now }
    requires few { length numbered.now < 2 ^ 32 }
    ensures { IfOk result (λ found. MatchOption found (NoneIsFaulty counts.now numbered.now certificate.now (length numbered.now)) (IsReasonAt counts.now numbered.now certificate.now)) }
{
    let lists = certificate.functions.as_slice();
    for number in 0..numbered.len() {
        let entries = lists[number].as_slice();
        let found = fault_in(
            alloc,
            number as u32,
            &numbered[number],
            &counts[number],
            entries,
        )?;
        if let Some(reason) = found {
            return Ok(Some(reason));
        }
    }
    Ok(None)
}
