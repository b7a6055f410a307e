//! The optimised module.
ghost use Rattle.std.specs.Prelude.{◌≡◌, All, IfErr, IfOk, length, map};
ghost use Rattle.ir_types.specs.Limits.{IsWithinLimits};
ghost use Rattle.profile.specs.Counts.{IsAccepted};
ghost use Rattle.certificate.specs.Limits.{IsWithin};
ghost use Rattle.optimise.specs.Optimised.{IsOptimisedBy, IsUnoptimised};
ghost use Rattle.optimise.specs.Placing.{ChosenSoFar};

use crate::choosing::{Chosen, chosen_in};
use crate::error::OptimiseError;
use certificate::{Certificate, Entry};
use ir_types::items::Items;
use ir_types::module::Module;
use mc_num::NoMemory;
use placed_moves::{placed_is_move, placed_is_told};
use point_numbers::points_are_told;
use profile::{FnCounts, Profile};
use std::alloc::Global;
use transform::{Placed, apply, is_defined};

/// An optimised module, and what shows that it is one.
#[derive(Drop)]
pub struct Optimised<'a> {
    pub module: Module<'a>,
    /// For each function that has blocks an entry for each expression: its placement, and for one that can't trap a
    /// maximum flow and the ranks of the latest minimum cut.
    pub certificate: Certificate,
}

/// What is chosen in each function that has blocks, by its counts.
fn all_chosen<'m, 'a>(
    alloc: Global,
    program: &'m Module<'a>,
    counts: &[FnCounts],
) -> Result<Vec<Chosen<'m, 'a>>, OptimiseError>
    requires limits { All IsWithinLimits program.now.functions }
    requires counts { IsAccepted program.now counts.now }
    ensures chosen { IfOk result (λ chosen. ChosenSoFar program.now counts.now (length program.now.functions) chosen.items) }
    ensures unchosen { IfErr result (IsUnoptimised program.now counts.now) }
{
    let mut chosen = Vec::new(alloc);
    for function in program.functions() {
        if is_defined(function) {
            let own = &counts[chosen.len()];
            chosen.push(chosen_in(alloc, program, function, own)?)?;
        }
    }
    Ok(chosen)
}

/// What is placed in each function, and the lists of entries.
#[derive(Drop)]
struct Parts<'m, 'a> {
    placed: Vec<Placed<'m, 'a>>,
    functions: Vec<Items<Entry>>,
}

/// What is chosen in the functions, part by part.
fn split<'m, 'a>(alloc: Global, chosen: Vec<Chosen<'m, 'a>>) -> Result<Parts<'m, 'a>, NoMemory>
    ensures placed { IfOk result (λ parts. parts.placed.items ≡ map (λ c. c.placed) chosen.entry.items) }
    ensures functions { IfOk result (λ parts. parts.functions.items ≡ map (λ c. c.entries) chosen.entry.items) }
{
    let mut placed = Vec::new(alloc);
    let mut functions = Vec::new(alloc);
    for own in chosen {
        placed.push(own.placed)?;
        functions.push(own.entries)?;
    }
    Ok(Parts { placed, functions })
}

/// The module in which each expression that can't trap is computed where it costs least by the counts of the profile,
/// and each that can trap as late and as seldom as it can be where it is inevitable; elsewhere they are read from a
/// temporary. It does what the module does, and its certificate shows that each placement is what it should be.
/// `TooMany` where in some function this would insert at 2^28 edges or more, over all of its expressions; `NoMemory`
/// where an allocation was refused.
pub fn optimise<'a>(
    alloc: Global,
    program: &Module<'a>,
    profile: &Profile,
) -> Result<Optimised<'a>, OptimiseError>
    requires limits { All IsWithinLimits program.now.functions }
    requires counts { IsAccepted program.now profile.now.functions }
    ensures optimised { IfOk result (λ optimised. IsOptimisedBy program.now profile.now.functions optimised.certificate optimised.module) }
    ensures within { IfOk result (λ optimised. IsWithin optimised.certificate) }
    ensures unoptimised { IfErr result (IsUnoptimised program.now profile.now.functions) }
{
    placed_is_move();
    placed_is_told();
    points_are_told();
    let chosen = all_chosen(alloc, program, profile.functions.as_slice())?;
    let parts = split(alloc, chosen)?;
    let module = apply(alloc, program, &parts.placed)?;
    Ok(Optimised {
        module,
        certificate: Certificate {
            functions: Items::from(parts.functions),
        },
    })
}
