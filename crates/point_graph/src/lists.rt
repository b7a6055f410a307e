//! The points and the edges of the reached blocks, one block after another.
ghost use Rattle.std.specs.Prelude.{◌≡◌, ◌+◌, ◌++◌, ◌∷◌, [], ◌<◌, ◌≤◌, ◌^◌, All, IfOk, OnOk, Some, length, map, slice_get};
ghost use Rattle.std.specs.List.{range_with_len};
ghost use Rattle.ir_types.specs.Limits.{IsWithinLimits};
ghost use Rattle.flow_graph.specs.Slots.{slots_of};
ghost use Rattle.point_graph.specs.Numbers.{KeepsRules, all_points, block_points};
ghost use Rattle.point_graph.specs.Building.{AreBlocks, IsSmall, all_numbered, head_of, inside_edges, numbered_edges, slot_edges};

use crate::graph::{BlockStart, Edge, EdgeKind, Point};
use flow_graph::{slot_count, target};
use ir_types::syntax::{Block, Function, Terminator};
use mc_num::NoMemory;
use std::alloc::Global;

/// The block of this number, counted from 0. It takes no memory.
pub fn block_at<'f, 'a>(function: &'f Function<'a>, block: u32) -> &'f Block<'a>
    requires { block < length function.now.blocks }
    ensures { slice_get function.now.blocks block ≡ Some result.now }
{
    &function.blocks.as_slice()[block as usize]
}

/// The number of a block's head.
fn head_at(starts: &[BlockStart], block: u32) -> u32
    requires { block < length starts.now }
    ensures { result ≡ head_of starts.now block }
{
    starts[block as usize].point
}

/// Adds the points of a block with so many instructions.
fn push_points(points: &mut Vec<Point>, number: u32, block: &Block<'_>) -> Result<(), NoMemory>
    requires { length block.now.instrs ≤ 2 ^ 18 }
    ensures { OnOk result (points.new.items ≡ points.old.items ++ block_points number block.now) }
{
    points.push(Point::Head(number))?;
    for instr in 0..block.instrs.len() {
        points.push(Point::Instr(number, instr as u32))?;
    }
    points.push(Point::Term(number))?;
    Ok(())
}

/// The points of a function with these reached blocks.
pub fn list_points(
    alloc: Global,
    function: &Function<'_>,
    blocks: &[u32],
) -> Result<Vec<Point>, NoMemory>
    requires within { AreBlocks function.now blocks.now }
    requires limits { IsWithinLimits function.now }
    ensures { IfOk result (λ points. points.items ≡ all_points function.now blocks.now) }
{
    let mut points = Vec::new(alloc);
    points.push(Point::Start)?;
    for block in blocks {
        push_points(&mut points, *block, block_at(function, *block))?;
    }
    Ok(points)
}

/// Adds the edges to the places of a block with this head and so many instructions.
fn push_inside(edges: &mut Vec<Edge>, block: u32, head: u32, instrs: u32) -> Result<(), NoMemory>
    requires { head + instrs + 1 < 2 ^ 32 }
    ensures { OnOk result (edges.new.items ≡ edges.old.items ++ inside_edges block head instrs) }
{
    for place in 0..instrs + 1 {
        edges.push(Edge {
            from: head + place,
            to: head + place + 1,
            kind: EdgeKind::Inside(block),
        })?;
    }
    Ok(())
}

/// Adds the edges of the slots of a block, whose terminator has the number `from`.
fn push_slots(
    edges: &mut Vec<Edge>,
    block: u32,
    from: u32,
    term: &Terminator,
    starts: &[BlockStart],
) -> Result<(), NoMemory>
    requires targets { All (λ t. t < length starts.now) (slots_of term.now) }
    requires few { length (slots_of term.now) ≤ 2 ^ 17 }
    ensures { OnOk result (edges.new.items ≡ edges.old.items ++ slot_edges starts.now block from term.now) }
{
    for slot in 0..slot_count(term) {
        edges.push(Edge {
            from,
            to: head_at(starts, target(term, slot)),
            kind: EdgeKind::Slot(block, slot),
        })?;
    }
    Ok(())
}

/// Adds the edges of a block.
fn push_edges(
    edges: &mut Vec<Edge>,
    number: u32,
    block: &Block<'_>,
    starts: &[BlockStart],
) -> Result<(), NoMemory>
    requires there { number < length starts.now }
    requires small { All IsSmall starts.now }
    requires targets { All (λ t. t < length starts.now) (slots_of block.now.term) }
    requires few_instrs { length block.now.instrs ≤ 2 ^ 18 }
    requires few_slots { length (slots_of block.now.term) ≤ 2 ^ 17 }
    ensures { OnOk result (edges.new.items ≡ edges.old.items ++ numbered_edges starts.now number block.now) }
{
    let head = head_at(starts, number);
    let instrs = block.instrs.len() as u32;
    push_inside(edges, number, head, instrs)?;
    push_slots(edges, number, head + instrs + 1, &block.term, starts)
}

/// The edges of a function with these reached blocks.
pub fn list_edges(
    alloc: Global,
    function: &Function<'_>,
    blocks: &[u32],
    starts: &[BlockStart],
) -> Result<Vec<Edge>, NoMemory>
    requires defined { 0 < length function.now.blocks }
    requires within { AreBlocks function.now blocks.now }
    requires starts { length starts.now ≡ length function.now.blocks }
    requires small { All IsSmall starts.now }
    requires rules { KeepsRules function.now }
    requires limits { IsWithinLimits function.now }
    ensures { IfOk result (λ edges. edges.items ≡ all_numbered function.now starts.now blocks.now) }
{
    let mut edges = Vec::new(alloc);
    edges.push(Edge {
        from: 0,
        to: head_at(starts, 0),
        kind: EdgeKind::Entry,
    })?;
    for block in blocks {
        push_edges(&mut edges, *block, block_at(function, *block), starts)?;
    }
    Ok(edges)
}
