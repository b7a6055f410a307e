//! What holds of the paths to the ends of blocks, and of those from there.
ghost use Rattle.std.specs.Prelude.{◌≡◌, ◌<◌, ◌^◌, ◌↔◌, ◌++◌, ℕ, List, IfOk, IsTrue, length, map, replicate, not, vec_len};
ghost use Rattle.std.specs.List.{AllZip};
ghost use Rattle.point_graph.specs.Numbers.{ArePoints};
ghost use Rattle.expressions.specs.Kept.{Kept};
ghost use Rattle.expressions.specs.Tables.{IsEventOf, IsTable};
ghost use Rattle.flow_paths.specs.Paths.{ArcsWithin};
ghost use Rattle.flow_paths.specs.Spreads.{IsSet};
ghost use Rattle.flow_paths.specs.Marks.{MeetsUnwritten};
ghost use Rattle.placement.specs.Placements.{arcs_of};
ghost use Rattle.local_sets.specs.Blocks.{IsBlockSets};
ghost use Rattle.local_sets.specs.Heads.{begins_block, ends_block, bits_at_ends, first_sets, later_sets, goals, is_occurrence, lasts, mark_of_event, placed, stop_of_event, stops, with_points};
ghost use Rattle.local_sets.specs.Reaching.{ends_of, IsAvailable, IsWanted, Tells};

use crate::blocks::BlockSets;
use crate::flags::Reach;
use crate::telling::arcs_from;
use crate::validity::on_every_path;
use expressions::Event;
use flow_paths::{Mark, meets_unwritten};
use ir_types::syntax::Function;
use mc_num::NoMemory;
use point_graph::{Point, Points};
use point_numbers::points_are_told;
use std::alloc::Global;

/// Where an expression is available and where it is wanted, by what each reached block does to it.
///
/// `sets` are what `local_sets` gives for the expression. It takes linear time. `NoMemory` where an allocation was
/// refused.
pub fn reach(
    alloc: Global,
    function: &Function<'_>,
    points: &Points,
    sets: &[BlockSets],
) -> Result<Reach, NoMemory>
    requires { ArePoints function.now points.now }
    ensures available { IfOk result (λ reach. (t : Kept) (e : ℕ) → IsTable function.now points.now t → e < length t.exprs
        → AllZip (IsBlockSets function.now t e) points.now.blocks sets.now
        → AllZip (Tells points.now.points (IsAvailable (arcs_of points.now.edges) (IsEventOf function.now points.now t e))) (ends_of points.now.blocks) reach.available.items) }
    ensures wanted { IfOk result (λ reach. (t : Kept) (e : ℕ) → IsTable function.now points.now t → e < length t.exprs
        → AllZip (IsBlockSets function.now t e) points.now.blocks sets.now
        → AllZip (Tells points.now.points (IsWanted (arcs_of points.now.edges) (IsEventOf function.now points.now t e))) (ends_of points.now.blocks) reach.wanted.items) }
{
    points_are_told();
    let arcs = arcs_from(alloc, points.edges.as_slice())?;
    let placed = sets_at_points(alloc, points.points.as_slice(), sets)?;
    let wanted = wanted_points(alloc, &arcs, &placed)?;
    let marks = last_marks(alloc, &placed)?;
    let available = on_every_path(alloc, arcs, marks)?;
    Ok(Reach {
        available: at_ends(alloc, points.points.as_slice(), &available)?,
        wanted: at_ends(alloc, points.points.as_slice(), &wanted)?,
    })
}

fn is_block_begin(point: Point) -> bool
    ensures { result ≡ begins_block point }
{
    match point {
        Point::Head(_) => true,
        Point::Start | Point::Instr(_, _) | Point::Term(_) => false,
    }
}

fn is_block_end(point: Point) -> bool
    ensures { result ≡ ends_block point }
{
    match point {
        Point::Head(_) | Point::Term(_) => true,
        Point::Start | Point::Instr(_, _) => false,
    }
}

/// What happens at a point where no block begins.
const NOTHING: BlockSets = BlockSets {
    first: Event::Passes,
    last: Event::Passes,
    forced: 0,
};

fn first_sets(sets: &[BlockSets]) -> BlockSets
    ensures { result ≡ first_sets sets.now }
{
    match sets {
        [first, ..] => *first,
        [] => NOTHING,
    }
}

fn later_sets(sets: &[BlockSets]) -> &[BlockSets]
    ensures { result.now ≡ later_sets sets.now }
{
    match sets {
        [_, later @ ..] => later,
        [] => sets,
    }
}

/// For each point the sets of the block that begins there.
fn sets_at_points(
    alloc: Global,
    points: &[Point],
    sets: &[BlockSets],
) -> Result<Vec<BlockSets>, NoMemory>
    ensures { IfOk result (λ list. list.items ≡ placed points.now sets.now) }
{
    let mut list = Vec::new(alloc);
    let mut left = sets;
    for point in points {
        if is_block_begin(*point) {
            list.push(first_sets(left))?;
            left = later_sets(left);
        } else {
            list.push(NOTHING)?;
        }
    }
    Ok(list)
}

/// The bits of heads and of terminators, of which there is one for each point.
fn at_ends(alloc: Global, points: &[Point], bits: &[bool]) -> Result<Vec<bool>, NoMemory>
    requires { length bits.now ≡ length points.now }
    ensures { IfOk result (λ flags. flags.items ≡ bits_at_ends points.now bits.now) }
{
    let mut flags = Vec::new(alloc);
    for (number, point) in points.iter().enumerate() {
        if is_block_end(*point) {
            flags.push(bits[number])?;
        }
    }
    Ok(flags)
}

fn mark_of(event: Event) -> Mark
    ensures { result ≡ mark_of_event event }
{
    match event {
        Event::Occurs => Mark::Write,
        Event::Kills => Mark::Kill,
        Event::Bars | Event::Passes => Mark::Pass,
    }
}

fn stop_of(event: Event) -> Mark
    ensures { result ≡ stop_of_event event }
{
    match event {
        Event::Occurs | Event::Kills => Mark::Write,
        Event::Bars | Event::Passes => Mark::Pass,
    }
}

fn is_occurrence(event: Event) -> bool
    ensures { result ≡ is_occurrence event }
{
    match event {
        Event::Occurs => true,
        Event::Kills | Event::Bars | Event::Passes => false,
    }
}

fn last_marks(alloc: Global, sets: &[BlockSets]) -> Result<Vec<Mark>, NoMemory>
    ensures { IfOk result (λ marks. marks.items ≡ lasts sets.now) }
{
    Ok(sets.iter().map(|s| mark_of(s.last)).collect(alloc)?)
}

fn stop_marks(alloc: Global, sets: &[BlockSets]) -> Result<Vec<Mark>, NoMemory>
    ensures { IfOk result (λ marks. marks.items ≡ stops sets.now) }
{
    Ok(sets.iter().map(|s| stop_of(s.first)).collect(alloc)?)
}

fn goal_bits(alloc: Global, sets: &[BlockSets]) -> Result<Vec<bool>, NoMemory>
    ensures { IfOk result (λ bits. bits.items ≡ goals sets.now) }
{
    Ok(sets.iter().map(|s| is_occurrence(s.first)).collect(alloc)?)
}

/// Marks that pass, one for each of `count` places.
fn passing_marks(alloc: Global, count: usize) -> Result<Vec<Mark>, NoMemory>
    ensures { IfOk result (λ marks. marks.items ≡ replicate count Mark.Pass) }
{
    Ok(vec![in alloc; Mark::Pass; count]?)
}

/// The points from which some path meets an occurrence before a kill, where each head stands for its block.
fn wanted_points(
    alloc: Global,
    arcs: &[(u32, u32)],
    sets: &[BlockSets],
) -> Result<Vec<bool>, NoMemory>
    requires numbered { length sets.now < 2 ^ 32 }
    requires within { ArcsWithin arcs.now (length sets.now) }
    ensures len { IfOk result (λ bits. vec_len bits ≡ length sets.now) }
    ensures bits { IfOk result (λ bits. (v : ℕ) → IsSet bits.items v ↔ MeetsUnwritten arcs.now (with_points arcs.now (stops sets.now)) (goals sets.now) v) }
{
    let at_point = stop_marks(alloc, sets)?;
    let at_edge = passing_marks(alloc, arcs.len())?;
    let goals = goal_bits(alloc, sets)?;
    meets_unwritten(alloc, arcs, &at_point, &at_edge, goals)
}
