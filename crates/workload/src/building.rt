//! The module and its counts.
ghost use Rattle.std.specs.Prelude.{◌≡◌, ◌<◌, ◌≤◌, ◌++◌, ◌∷◌, [], map, IfOk, OnOk};
ghost use Rattle.std.specs.List.{flat_map, range_with_len};
ghost use Rattle.ir_types.specs.declared.name.Name.TheVariants.{Text};
ghost use Rattle.mc_num.specs.declared.op.Width.TheVariants.{I32};
ghost use Rattle.workload.specs.Names.{round_names};
ghost use Rattle.workload.specs.Workload.{left_count, round_counts, main_function, main_counts, workload_program, workload_counts};

use crate::blocks::{end, entry, push_round};
use crate::laws::workloads_are_sound;
use crate::naming::RoundNames;
use ir_types::items::Items;
use ir_types::module::Module;
use ir_types::name::{Name, Spelling};
use ir_types::syntax::{Block, Function};
use mc_num::{NoMemory, Width};
use profile::{FnCounts, Profile};
use std::alloc::Global;

/// A module with counts of its slots.
#[derive(Drop)]
pub struct Counted<'a> {
    pub module: Module<'a>,
    pub counts: Profile,
}

#[tactic(auto, using(crate::proofs::Ranges::flat_map_range_push))]
fn blocks<'a>(alloc: Global, n: u32, names: &'a [RoundNames]) -> Result<Vec<Block<'a>>, NoMemory>
    requires few { n ≤ 10000 }
    requires names { names.now ≡ map round_names (range_with_len 0 n) }
    ensures { IfOk result (λ blocks. blocks.items ≡ (main_function n).blocks) }
{
    let mut blocks = vec![in alloc; entry(alloc)?]?;
    for round in 0..n {
        push_round(alloc, &mut blocks, &names[round as usize], round)?;
    }
    blocks.push(end(alloc))?;
    Ok(blocks)
}

fn variable(name: &[u8]) -> (Width, Name<'_>)
    ensures { result ≡ (I32, Text name.now) }
{
    (Width::I32, Name::Text(Spelling::new(name)))
}

fn main_function<'a>(
    alloc: Global,
    n: u32,
    names: &'a [RoundNames],
) -> Result<Function<'a>, NoMemory>
    requires few { n ≤ 10000 }
    requires names { names.now ≡ map round_names (range_with_len 0 n) }
    ensures { IfOk result (λ function. function ≡ main_function n) }
{
    let blocks = blocks(alloc, n, names)?;
    let vars = vec![in alloc; variable(b"a"), variable(b"t")]?;
    Ok(Function {
        name: Spelling::new(b"main"),
        ret: Some(Width::I32),
        params: Items::new(alloc),
        vars: Items::from(vars),
        blocks: Items::from(blocks),
    })
}

/// Adds the counts of the slots of a round.
fn push_counts(counts: &mut Vec<u64>, round: u32) -> Result<(), NoMemory>
    requires { round < 10000 }
    ensures { OnOk result (counts.new.items ≡ counts.old.items ++ round_counts round) }
{
    let left = 1 + u64::from((37 * round) % 99);
    let right = 100 - left;
    counts.extend_from_slice(&[left, right, left, right, 100])?;
    Ok(())
}

#[tactic(auto, using(crate::proofs::Ranges::flat_map_range_push))]
fn main_counts(alloc: Global, n: u32) -> Result<FnCounts, NoMemory>
    requires { n ≤ 10000 }
    ensures { IfOk result (λ counts. counts ≡ main_counts n) }
{
    let mut slots = vec![in alloc; 100u64]?;
    for round in 0..n {
        push_counts(&mut slots, round)?;
    }
    Ok(FnCounts {
        entry: 100,
        slots: Items::from(slots),
    })
}

/// The module of `n` rounds, which borrows these names, and its counts: the names are those of `n` rounds.
///
/// `NoMemory` where an allocation was refused.
pub fn workload(alloc: Global, n: u32, names: &Items<RoundNames>) -> Result<Counted<'_>, NoMemory>
    requires few { n ≤ 10000 }
    requires names { names.now ≡ map round_names (range_with_len 0 n) }
    ensures module { IfOk result (λ made. made.module ≡ workload_program n) }
    ensures counts { IfOk result (λ made. made.counts.functions ≡ workload_counts n) }
{
    workloads_are_sound();
    let function = main_function(alloc, n, names.as_slice())?;
    let functions = vec![in alloc; function]?;
    let counts = main_counts(alloc, n)?;
    let all = vec![in alloc; counts]?;
    Ok(Counted {
        module: Module::new(Items::new(alloc), Items::from(functions)),
        counts: Profile {
            functions: Items::from(all),
        },
    })
}
