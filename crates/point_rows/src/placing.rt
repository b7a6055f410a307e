//! What the calls tell of a placement.
ghost use Rattle.std.specs.Prelude.{◌<◌, length};
ghost use Rattle.ir_types.specs.Limits.{IsWithinLimits};
ghost use Rattle.ir_types.specs.WellFormed.{IsFunctionIn};

use crate::ordering::are_below;
use crate::seen::function_at;
use expressions::table;
use ir_reader::read;
use ir_types::items::Items;
use ir_types::module::Module;
use ir_types::syntax::Function;
use mc_num::NoMemory;
use placement::{Placement, first_invalid, live_points};
use point_graph::points;
use std::alloc::Global;
use std::test::Fail;

/// The first deleted occurrence that a path reaches without a valid write, and for each point whether the temporary is
/// live there (`L`) or not (`.`).
#[derive(Drop)]
pub struct Placed {
    pub invalid: Option<u32>,
    pub live: Vec<u8>,
}

fn letters(alloc: Global, bits: &[bool]) -> Result<Vec<u8>, NoMemory> {
    let mut letters = Vec::new(alloc);
    for bit in bits {
        letters.push(if *bit { b'L' } else { b'.' })?;
    }
    Ok(letters)
}

fn placed_in(
    alloc: Global,
    module: &Module<'_>,
    function: &Function<'_>,
    e: u32,
    placement: &Placement,
) -> Result<Option<Placed>, NoMemory>
    requires defined { 0 < length function.now.blocks }
    requires rules { IsFunctionIn «module».now function.now }
    requires limits { IsWithinLimits function.now }
{
    let points = points(alloc, function)?;
    let table = table(alloc, module, function, &points)?;
    if e >= table.len() {
        return Ok(None);
    }
    if !are_below(placement.inserted.as_slice(), points.edges.len()) {
        return Ok(None);
    }
    if !are_below(placement.kept.as_slice(), points.points.len()) {
        return Ok(None);
    }
    let invalid = first_invalid(alloc, function, &points, &table, e, placement)?;
    let live = live_points(alloc, function, &points, &table, e, placement)?;
    Ok(Some(Placed {
        invalid,
        live: letters(alloc, &live)?,
    }))
}

/// What the calls tell of a placement of the expression `e` of the function of this number in a text; `None` where
/// there is no such function, expression, edge or point.
pub fn placed_at(
    alloc: Global,
    source: &[u8],
    number: usize,
    e: u32,
    inserted: &[u32],
    kept: &[u32],
) -> Result<Option<Placed>, Fail> {
    if source.len() > 1 << 26 {
        return Ok(None);
    }
    let module = read(alloc, source)?;
    let placement = Placement {
        inserted: Items::copied(alloc, inserted)?,
        kept: Items::copied(alloc, kept)?,
    };
    match function_at(&module, number) {
        Some(function) if function.blocks.len() != 0 => {
            Ok(placed_in(alloc, &module, function, e, &placement)?)
        }
        _ => Ok(None),
    }
}
