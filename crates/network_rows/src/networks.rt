//! The network of an expression of the first function of a text, and what is needed of it.
ghost use Rattle.std.specs.Prelude.{◌<◌, ◌^◌, All, length};
ghost use Rattle.ir_types.specs.Limits.{IsWithinLimits};
ghost use Rattle.ir_types.specs.WellFormed.{IsFunctionIn};
ghost use Rattle.profile.specs.Counts.{AreCounts, IsAccepted, total};

use expressions::table;
use ir_reader::read;
use ir_types::module::Module;
use ir_types::syntax::Function;
use local_sets::{local_sets, reach};
use mc_num::NoMemory;
use point_graph::points;
use profile::{FnCounts, read_profile};
use reduction::{BlockNet, Reduced, network, reduce};
use std::alloc::Global;
use std::test::Fail;

/// The block network of an expression, and the part of it that is needed.
#[derive(Drop)]
pub struct Networks {
    pub full: BlockNet,
    pub needed: Reduced,
}

fn networks_in(
    alloc: Global,
    module: &Module<'_>,
    function: &Function<'_>,
    counts: &FnCounts,
    e: u32,
) -> Result<Option<Networks>, NoMemory>
    requires defined { 0 < length function.now.blocks }
    requires rules { IsFunctionIn «module».now function.now }
    requires limits { IsWithinLimits function.now }
    requires counts { AreCounts function.now counts.now }
    requires total { total counts.now < 2 ^ 62 }
{
    let points = points(alloc, function)?;
    let table = table(alloc, module, function, &points)?;
    if e >= table.len() {
        return Ok(None);
    }
    let sets = local_sets(alloc, function, &points, &table, e)?;
    let full = network(alloc, function, &points, &sets, counts)?;
    let reach = reach(alloc, function, &points, &sets)?;
    let needed = reduce(alloc, &full, &reach)?;
    Ok(Some(Networks { full, needed }))
}

fn networks_in_first(
    alloc: Global,
    module: &Module<'_>,
    counts: &[FnCounts],
    e: u32,
) -> Result<Option<Networks>, NoMemory>
    requires limits { All IsWithinLimits «module».now.functions }
    requires accepted { IsAccepted «module».now counts.now }
{
    let functions = module.functions();
    if functions.is_empty() || counts.is_empty() {
        return Ok(None);
    }
    let function = &functions[0];
    if function.blocks.len() == 0 {
        return Ok(None);
    }
    networks_in(alloc, module, function, &counts[0], e)
}

/// Those of the expression `e` of the first function of a text, by its profile; `None` where that has no blocks or no
/// such expression.
pub fn networks_of(
    alloc: Global,
    source: &[u8],
    profile: &[u8],
    e: u32,
) -> Result<Option<Networks>, Fail> {
    if source.len() > 1 << 26 || profile.len() > 1 << 26 {
        return Ok(None);
    }
    let module = read(alloc, source)?;
    let profile = read_profile(alloc, profile, &module)?;
    Ok(networks_in_first(alloc, &module, profile.functions.as_slice(), e)?)
}
