//! Checks of counts of a module's shape.
ghost use Rattle.std.specs.Prelude.{◌≡◌, ◌<◌, ◌≤◌, ◌-◌, ◌^◌, ℕ, List, OnOk, IfErr, length, min, sum_by};
ghost use Rattle.std.specs.List.{AllZip};
ghost use Rattle.profile.specs.Counts.{HasSlots, HasShape, IsBalanced, IsUnreachedZero, defined, total};
ghost use Rattle.profile.specs.Reading.{Says, Refuses};
ghost use Rattle.profile.specs.Sums.{TellsUnbalanced, TellsUnreached};

use crate::counts::FnCounts;
use crate::reading::ProfileError;
use crate::sums::{balanced, first_unreached, sum_of};
use flow_graph::reachable;
use ir_types::module::Module;
use ir_types::syntax::Function;
use std::alloc::Global;

/// Whether the counts of the function of this number are balanced.
fn check_balance(
    alloc: Global,
    function: &Function<'_>,
    number: u32,
    counts: &FnCounts,
) -> Result<(), ProfileError>
    requires slots { HasSlots function.now counts.now }
    requires few { length function.now.blocks ≤ 2 ^ 32 }
    ensures ok { OnOk result (IsBalanced function.now counts.now) }
    ensures err { IfErr result (TellsUnbalanced function.now counts.now number) }
{
    let reached = reachable(alloc, function)?;
    let mut sums = vec![in alloc; 0u128; function.blocks.len()]?;
    match balanced(function, counts, &reached, &mut sums) {
        Some((block, into, out)) => Err(ProfileError::Unbalanced(number, block, into, out)),
        None => Ok(()),
    }
}

/// Whether the slots of the blocks that aren't reached have no counts, in the function of this number.
fn check_reached(
    alloc: Global,
    function: &Function<'_>,
    number: u32,
    counts: &FnCounts,
) -> Result<(), ProfileError>
    requires slots { HasSlots function.now counts.now }
    requires few { length function.now.blocks ≤ 2 ^ 32 }
    ensures ok { OnOk result (IsUnreachedZero function.now counts.now) }
    ensures err { IfErr result (TellsUnreached function.now counts.now number) }
{
    let reached = reachable(alloc, function)?;
    match first_unreached(function, counts, &reached) {
        Some(block) => Err(ProfileError::Unreached(number, block)),
        None => Ok(()),
    }
}

/// Whether the counts of each function are balanced; if not, the first that aren't.
pub(crate) fn check_balances(
    alloc: Global,
    program: &Module<'_>,
    counts: &[FnCounts],
) -> Result<(), ProfileError>
    requires { HasShape program.now counts.now }
    ensures ok { OnOk result (AllZip IsBalanced (defined program.now) counts.now) }
    ensures err { IfErr result (λ e. (bytes : List ℕ) → Says program.now bytes counts.now → Refuses program.now bytes e) }
{
    let mut number = 0;
    for function in program.functions() {
        if !function.blocks.as_slice().is_empty() {
            check_balance(alloc, function, number as u32, &counts[number])?;
            number += 1;
        }
    }
    Ok(())
}

/// Whether the blocks that aren't reached have no counts, in each function; if not, the first that have.
pub(crate) fn check_all_reached(
    alloc: Global,
    program: &Module<'_>,
    counts: &[FnCounts],
) -> Result<(), ProfileError>
    requires shape { HasShape program.now counts.now }
    requires balanced { AllZip IsBalanced (defined program.now) counts.now }
    ensures ok { OnOk result (AllZip IsUnreachedZero (defined program.now) counts.now) }
    ensures err { IfErr result (λ e. (bytes : List ℕ) → Says program.now bytes counts.now → Refuses program.now bytes e) }
{
    let mut number = 0;
    for function in program.functions() {
        if !function.blocks.as_slice().is_empty() {
            check_reached(alloc, function, number as u32, &counts[number])?;
            number += 1;
        }
    }
    Ok(())
}

/// All counts together, or the greatest number where they are more.
pub(crate) fn total_of(counts: &[FnCounts]) -> u128
    ensures { result ≡ min (sum_by total counts.now) (2 ^ 128 - 1) }
{
    let mut all: u128 = 0;
    for own in counts {
        all = all
            .saturating_add(u128::from(own.entry))
            .saturating_add(sum_of(own.slots.as_slice()));
    }
    all
}
