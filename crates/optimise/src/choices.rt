//! The placements that the counts of a module choose.
ghost use Rattle.std.specs.Prelude.{◌≡◌, ◌<◌, All, IfOk, List, length};
ghost use Rattle.ir_types.specs.Limits.{IsWithinLimits};
ghost use Rattle.ir_types.specs.Program.{Program};
ghost use Rattle.ir_types.specs.WellFormed.{IsFunctionIn};
ghost use Rattle.profile.specs.Counts.{IsAccepted};
ghost use Rattle.profile.specs.declared.counts.FnCounts.{FnCounts};
ghost use Rattle.placement.specs.declared.placements.Placement.{Placement};
ghost use Rattle.certificate.specs.declared.types.Certificate.{Certificate};
ghost use Rattle.optimise.specs.Choices.{AreChoices, AreChoicesIn, named_placements};
ghost use Rattle.optimise.specs.Optimised.{IsOptimisedBy};
ghost use Rattle.optimise.specs.Placing.{AreCountsOf};

use crate::choosing::entries;
use certificate::Certificate;
use certified::placements_of;
use expressions::table;
use ir_types::items::Items;
use ir_types::module::Module;
use ir_types::syntax::Function;
use mc_num::NoMemory;
use placement::Placement;
use point_graph::points;
use profile::{FnCounts, Profile};
use std::alloc::Global;
use transform::is_defined;

/// The placements that are chosen in a function that has blocks, by its counts: one for each of its expressions.
fn choices_in(
    alloc: Global,
    program: &Module<'_>,
    function: &Function<'_>,
    counts: &FnCounts,
) -> Result<Vec<Placement>, NoMemory>
    requires defined { 0 < length function.now.blocks }
    requires rules { IsFunctionIn program.now function.now }
    requires limits { IsWithinLimits function.now }
    requires counts { AreCountsOf function.now counts.now }
    ensures { IfOk result (λ placements. AreChoicesIn program.now function.now counts.now placements.items) }
{
    let points = points(alloc, function)?;
    let table = table(alloc, program, function, &points)?;
    let entries = entries(alloc, function, &points, &table, counts)?;
    placements_of(alloc, &entries)
}

/// For each function that has blocks the placements that its own counts choose, one for each of its expressions: the
/// best one if it can't trap, else the lazy one. However many insertions they make, they are given. `NoMemory` where
/// an allocation was refused.
pub fn choose(
    alloc: Global,
    program: &Module<'_>,
    profile: &Profile,
) -> Result<Vec<Items<Placement>>, NoMemory>
    requires limits { All IsWithinLimits program.now.functions }
    requires counts { IsAccepted program.now profile.now.functions }
    ensures { IfOk result (λ placements. AreChoices program.now profile.now.functions placements.items) }
{
    let counts = profile.functions.as_slice();
    let mut chosen = Vec::new(alloc);
    for function in program.functions() {
        if is_defined(function) {
            let own = &counts[chosen.len()];
            let placements = choices_in(alloc, program, function, own)?;
            chosen.push(Items::from(placements))?;
        }
    }
    Ok(chosen)
}

/// The placements that a certificate names, list by list. `NoMemory` where an allocation was refused.
pub fn named_placements(
    alloc: Global,
    certificate: &Certificate,
) -> Result<Vec<Items<Placement>>, NoMemory>
    ensures { IfOk result (λ placements. placements.items ≡ named_placements certificate.now) }
{
    let mut named = Vec::new(alloc);
    for entries in certificate.functions.as_slice() {
        let placements = placements_of(alloc, entries.as_slice())?;
        named.push(Items::from(placements))?;
    }
    Ok(named)
}

/// The placements that the certificate of an optimised module names are those that the counts choose.
pub fn optimised_are_choices()
    ensures { (m : Program) (counts : List FnCounts) (certificate : Certificate) (m' : Program) → IsOptimisedBy m counts certificate m' → AreChoices m counts (named_placements certificate) }
{}
