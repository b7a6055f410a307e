//! What the calls tell of a function.
ghost use Rattle.std.specs.Prelude.{◌<◌, ◌^◌, All, IfSome, length};
ghost use Rattle.ir_types.specs.Limits.{IsWithinLimits};
ghost use Rattle.ir_types.specs.WellFormed.{IsFunctionIn};
ghost use Rattle.expressions.specs.Tables.{IsTable};

use expressions::{Event, Table, event, table};
use ir_reader::read;
use ir_types::module::Module;
use ir_types::syntax::Function;
use mc_num::NoMemory;
use point_graph::{Points, points};
use std::alloc::Global;
use std::test::Fail;

/// How many reached blocks, points, edges and expressions a function has, whether each expression can trap (`t`) or
/// not (`.`), and for each expression in turn the event of each point.
#[derive(Drop)]
pub struct Seen {
    pub blocks: usize,
    pub points: usize,
    pub edges: usize,
    pub exprs: u32,
    pub traps: Vec<u8>,
    pub events: Vec<u8>,
}

/// `O` where it occurs, `K` where it kills, `B` where it bars, and `.` where it passes.
fn letter(event: Event) -> u8 {
    match event {
        Event::Occurs => b'O',
        Event::Kills => b'K',
        Event::Bars => b'B',
        Event::Passes => b'.',
    }
}

fn traps_of(alloc: Global, table: &Table<'_, '_>) -> Result<Vec<u8>, NoMemory> {
    let mut traps = Vec::new(alloc);
    for e in 0..table.len() {
        traps.push(if table.traps(e) { b't' } else { b'.' })?;
    }
    Ok(traps)
}

/// The events of each expression at each point.
fn events_of(
    alloc: Global,
    function: &Function<'_>,
    points: &Points,
    table: &Table<'_, '_>,
) -> Result<Vec<u8>, NoMemory>
    requires table { IsTable function.now points.now table.now }
    requires few { length points.now.points < 2 ^ 32 }
{
    let mut events = Vec::new(alloc);
    for e in 0..table.len() {
        for point in 0..points.points.len() {
            events.push(letter(event(function, points, table, e, point as u32)))?;
        }
    }
    Ok(events)
}

/// The function of this number, if there is one.
pub(crate) fn function_at<'m, 'a>(module: &'m Module<'a>, number: usize) -> Option<&'m Function<'a>>
    requires { All IsWithinLimits «module».now.functions }
    ensures rules { IfSome result (λ f. IsFunctionIn «module».now f.now) }
    ensures limits { IfSome result (λ f. IsWithinLimits f.now) }
{
    module.functions().get(number)
}

fn seen_in(alloc: Global, module: &Module<'_>, function: &Function<'_>) -> Result<Seen, NoMemory>
    requires defined { 0 < length function.now.blocks }
    requires rules { IsFunctionIn «module».now function.now }
    requires limits { IsWithinLimits function.now }
{
    let points = points(alloc, function)?;
    let table = table(alloc, module, function, &points)?;
    Ok(Seen {
        blocks: points.blocks.len(),
        points: points.points.len(),
        edges: points.edges.len(),
        exprs: table.len(),
        traps: traps_of(alloc, &table)?,
        events: events_of(alloc, function, &points, &table)?,
    })
}

/// What the calls tell of the function of this number in a text; `None` where the text has no such function, or it
/// has no blocks.
pub fn seen_at(alloc: Global, source: &[u8], number: usize) -> Result<Option<Seen>, Fail> {
    if source.len() > 1 << 26 {
        return Ok(None);
    }
    let module = read(alloc, source)?;
    match function_at(&module, number) {
        Some(function) if function.blocks.len() != 0 => {
            Ok(Some(seen_in(alloc, &module, function)?))
        }
        _ => Ok(None),
    }
}
