//! What the blocks of a function do to an expression, and where it is sure to occur.
ghost use Rattle.std.specs.Prelude.{◌<◌, length};
ghost use Rattle.ir_types.specs.Limits.{IsWithinLimits};
ghost use Rattle.ir_types.specs.WellFormed.{IsFunctionIn};

use crate::seen::function_at;
use expressions::table;
use ir_reader::read;
use ir_types::module::Module;
use ir_types::syntax::Function;
use local_sets::{BlockSets, inevitable, local_sets};
use mc_num::NoMemory;
use point_graph::{Edge, points};
use std::alloc::Global;
use std::test::Fail;

/// The sets of each reached block, where each edge leads, and for each point whether the expression is inevitable there
/// (`I`) or not (`.`).
#[derive(Drop)]
pub struct Local {
    pub sets: Vec<BlockSets>,
    pub targets: Vec<u32>,
    pub inevitable: Vec<u8>,
}

fn targets(alloc: Global, edges: &[Edge]) -> Result<Vec<u32>, NoMemory> {
    Ok(edges.iter().map(|edge| edge.to).collect(alloc)?)
}

fn letters(alloc: Global, bits: &[bool]) -> Result<Vec<u8>, NoMemory> {
    let letter = |bit: &bool| if *bit { b'I' } else { b'.' };
    Ok(bits.iter().map(letter).collect(alloc)?)
}

fn local_in(
    alloc: Global,
    module: &Module<'_>,
    function: &Function<'_>,
    e: u32,
) -> Result<Option<Local>, NoMemory>
    requires defined { 0 < length function.now.blocks }
    requires rules { IsFunctionIn «module».now function.now }
    requires limits { IsWithinLimits function.now }
{
    let points = points(alloc, function)?;
    let table = table(alloc, module, function, &points)?;
    if e >= table.len() {
        return Ok(None);
    }
    let sets = local_sets(alloc, function, &points, &table, e)?;
    let inevitable = inevitable(alloc, function, &points, &table, e)?;
    Ok(Some(Local {
        sets,
        targets: targets(alloc, points.edges.as_slice())?,
        inevitable: letters(alloc, &inevitable)?,
    }))
}

/// What the calls tell of the expression `e` of the function of this number in a text; `None` where there is no such
/// function or expression.
pub fn local_at(
    alloc: Global,
    source: &[u8],
    number: usize,
    e: u32,
) -> Result<Option<Local>, Fail> {
    if source.len() > 1 << 26 {
        return Ok(None);
    }
    let module = read(alloc, source)?;
    match function_at(&module, number) {
        Some(function) if function.blocks.len() != 0 => Ok(local_in(alloc, &module, function, e)?),
        _ => Ok(None),
    }
}

/// Whether each of these edges leads to a point where the expression is inevitable.
pub fn is_safe(local: &Local, inserted: &[u32]) -> bool {
    inserted.iter().all(|edge| {
        let target = local.targets.get(*edge as usize).copied();
        target.and_then(|point| local.inevitable.get(point as usize).copied()) == Some(b'I')
    })
}
