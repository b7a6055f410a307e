//! The verdict on a certificate and a text.
ghost use Rattle.std.specs.Prelude.{◌≡◌, ◌<◌, ◌^◌, ◌↔◌, ℕ, List, All, IfOk, IfSome, MatchOption, length};
ghost use Rattle.ir_types.specs.Limits.{IsWithinLimits};
ghost use Rattle.ir_types.specs.Program.{Program};
ghost use Rattle.profile.specs.Counts.{IsAccepted};
ghost use Rattle.certified.specs.Certified.{AreAllBest, IsYes};
ghost use Rattle.checker.specs.Checked.{AreReady, IsChecked};
ghost use Rattle.checker.specs.Reasons.{IsFirstReason, IsNo};
ghost use Rattle.checker.specs.declared.verdict.Reason.{Reason};
ghost use Rattle.checker.specs.declared.verdict.Verdict.TheVariants.{Yes, No};

use crate::faults::first_fault;
use crate::lengths::wrong_length;
use crate::numbered::{Numbered, all_numbered};
use crate::placing::placed_of;
use crate::sums::first_crowded;
use crate::texts::compared;
use crate::verdict::{Reason, Verdict};
use certificate::Certificate;
use certified::{certified_are_best, one_certified};
use ir_printer::print;
use ir_types::module::Module;
use mc_num::NoMemory;
use one_transformed::one_numbering;
use placed_moves::placed_is_move;
use profile::{FnCounts, Profile};
use std::alloc::Global;
use transform::apply;

/// The first reason why the certificate isn't good, if it isn't.
fn first_reason(
    alloc: Global,
    numbered: &[Numbered<'_, '_>],
    counts: &[FnCounts],
    certificate: &Certificate,
) -> Result<Option<Reason>, NoMemory>
    requires ready { AreReady numbered.now counts.now }
    requires few { length numbered.now < 2 ^ 32 }
    ensures first { IfOk result (λ found. MatchOption found (IsChecked counts.now numbered.now certificate.now)
        (λ reason. (m : Program) (bytes : List ℕ) → IsFirstReason m counts.now bytes certificate.now numbered.now reason)) }
    ensures not_checked { IfOk result (λ found. IfSome found (λ _. ¬ (IsChecked counts.now numbered.now certificate.now))) }
{
    let wrong = wrong_length(numbered, certificate);
    if let Some(reason) = wrong {
        return Ok(Some(reason));
    }
    let crowded = first_crowded(certificate);
    if let Some(reason) = crowded {
        return Ok(Some(reason));
    }
    first_fault(alloc, numbered, counts, certificate)
}

/// Whether the certificate shows, by the counts of the profile, that each placement it names for an expression that
/// can't trap is the best one, and each for one that can trap is correct and safe, and the text is that of the module
/// with these placements applied; else the first reason why not, in the order of `Reason` for each expression in turn,
/// after all lengths and all sums.
///
/// It looks for no flow and no cut of its own: what shows that a placement is best is checked alone. `NoMemory` where an
/// allocation was refused.
pub fn check_all(
    alloc: Global,
    program: &Module<'_>,
    profile: &Profile,
    text: &[u8],
    certificate: &Certificate,
) -> Result<Verdict, NoMemory>
    requires limits { All IsWithinLimits program.now.functions }
    requires counts { IsAccepted program.now profile.now.functions }
    ensures exact { IfOk result (λ verdict. (verdict ≡ Yes) ↔ IsYes program.now profile.now.functions text.now certificate.now) }
    ensures reason { IfOk result (λ verdict. (reason : Reason) → verdict ≡ No reason → IsNo program.now profile.now.functions text.now certificate.now reason) }
    ensures best { IfOk result (λ verdict. verdict ≡ Yes → AreAllBest program.now profile.now.functions certificate.now) }
{
    placed_is_move();
    one_numbering();
    one_certified();
    certified_are_best();
    let numbered = all_numbered(alloc, program)?;
    if let Some(reason) = first_reason(
        alloc,
        &numbered,
        profile.functions.as_slice(),
        certificate,
    )? {
        return Ok(Verdict::No(reason));
    }
    let placed = placed_of(alloc, numbered, certificate)?;
    let made = apply(alloc, program, &placed)?;
    let expected = print(alloc, &made)?;
    Ok(compared(text, &expected))
}
