//! What the flow and the ranks of an entry don't show.

ghost use Rattle.std.specs.Prelude.{◌≡◌, ◌≢◌, ◌+◌, ◌<◌, ◌≤◌, ◌^◌, ℕ, Bool, false, All, IfOk, MatchOption, length, slice_index_or};
ghost use Rattle.std.specs.List.Sorted.{IsStrictlyIncreasing};
ghost use Rattle.flow_graph.specs.Paths.{AreReached};
ghost use Rattle.point_graph.specs.Numbers.{ArePoints};
ghost use Rattle.expressions.specs.declared.syntax.Event.{Event as EventOf};
ghost use Rattle.expressions.specs.Tables.{IsEventOf, IsTable};
ghost use Rattle.profile.specs.Counts.{HasSlots, IsUnreachedZero, total};
ghost use Rattle.block_counts.specs.Counts.{AreBlockCounts};
ghost use Rattle.flow_net.specs.Network.{IsValid, IsWithin, IsBalanced, flow_value};
ghost use Rattle.flow_check.specs.Faults.{IsFirstStuck, RanksFall};
ghost use Rattle.placement.specs.Costs.{cost_of};
ghost use Rattle.placement.specs.Placements.{arcs_of};
ghost use Rattle.best_choice.specs.Best.{IsPlacementOn};
ghost use Rattle.best_placement.specs.Laws.{Certifies, ranked};
ghost use Rattle.function_graphs.specs.Graphs.{IsIn, graph_of};
ghost use Rattle.entry_check.specs.Faults.{FailsBy};
ghost use Rattle.entry_check.specs.Parts.{IsFlowFault, IsNetworkIn, HasPlaces, rank_at};

use crate::fault::Fault;
use crate::shown::Shown;
use block_counts::{BlockCounts, block_counts};
use counted_costs::cost_by_blocks;
use expressions::Table;
use flow_check::{check_flow, check_ranks};
use flow_net::{Flow, Net, value};
use function_graphs::placements_agree;
use ir_types::syntax::Function;
use mc_num::NoMemory;
use placement::Placement;
use places_check::check_places;
use point_graph::Points;
use profile::FnCounts;
use reduction::BlockNet;
use std::alloc::Global;

/// What a flow and ranks of the block network of an expression don't show of a placement: the first fault in the order of
/// `Fault`. `NoMemory` where an allocation was refused.
pub fn proof_fault(
    alloc: Global,
    function: &Function<'_>,
    points: &Points,
    table: &Table<'_, '_>,
    e: u32,
    counts: &FnCounts,
    placement: &Placement,
    full: &BlockNet,
    shown: &Shown,
) -> Result<Option<Fault>, NoMemory>
    requires defined { 0 < length function.now.blocks }
    requires points { ArePoints function.now points.now }
    requires table { IsTable function.now points.now table.now }
    requires expression { e < length table.now.exprs }
    requires slots { HasSlots function.now counts.now }
    requires unreached { IsUnreachedZero function.now counts.now }
    requires total { total counts.now < 2 ^ 62 }
    requires listed { IsPlacementOn (arcs_of points.now.edges) (length points.now.points) (IsEventOf function.now points.now table.now e) placement.now }
    requires network { IsNetworkIn function.now points.now table.now counts.now e full.now }
    requires places { HasPlaces full.now.net shown.now }
    ensures { IfOk result (λ fault. (reached : ℕ → Bool) (event : ℕ → EventOf) → IsIn function.now points.now table.now e reached event → MatchOption fault
        (Certifies (graph_of function.now points.now counts.now reached event) full.now.net shown.now.flow (rank_at shown.now) placement.now)
        (FailsBy (graph_of function.now points.now counts.now reached event) full.now.net shown.now.flow (rank_at shown.now) placement.now)) }
{
    placements_agree();
    if let Some(fault) = flow_fault(alloc, &full.net, &shown.flow)? {
        return Ok(Some(fault));
    }
    let by_block = block_counts(alloc, function, counts)?;
    if let Some((cost, sum)) = cost_and_sum(
        function,
        points,
        counts,
        &by_block,
        placement,
        full,
        &shown.flow,
    ) {
        return Ok(Some(Fault::Value(cost, sum)));
    }
    if let Some(node) = first_stuck(alloc, &full.net, shown)? {
        return Ok(Some(Fault::Rank(node)));
    }
    let sink_side = ranked_nodes(alloc, &shown.ranks)?;
    if check_places(function, points, table, e, &sink_side, placement) {
        Ok(None)
    } else {
        Ok(Some(Fault::Places))
    }
}

/// What is wrong with a flow.
fn flow_fault(alloc: Global, net: &Net, flow: &Flow) -> Result<Option<Fault>, NoMemory>
    requires valid { IsValid net.now }
    requires amounts { length flow.now.amounts.items ≡ length net.now.arcs.items }
    requires few { length net.now.arcs.items < 2 ^ 32 }
    ensures { IfOk result (λ fault. MatchOption fault (IsWithin net.now flow.now × IsBalanced net.now flow.now) (IsFlowFault net.now flow.now)) }
{
    let mut sums = vec![in alloc; 0; net.nodes as usize]?;
    match check_flow(net, flow, &mut sums) {
        Some((true, arc)) => Ok(Some(Fault::Capacity(arc))),
        Some((false, node)) => Ok(Some(Fault::Balance(node))),
        None => Ok(None),
    }
}

/// What a placement costs, and the value of a flow with what each placement pays besides, where they differ.
fn cost_and_sum(
    function: &Function<'_>,
    points: &Points,
    counts: &FnCounts,
    by_block: &BlockCounts,
    placement: &Placement,
    full: &BlockNet,
    flow: &Flow,
) -> Option<(u128, u128)>
    requires slots { HasSlots function.now counts.now }
    requires unreached { IsUnreachedZero function.now counts.now }
    requires total { total counts.now < 2 ^ 62 }
    requires counts { AreBlockCounts function.now counts.now by_block.now }
    requires inserted_ascending { IsStrictlyIncreasing placement.now.inserted }
    requires inserted { All (λ edge. edge < length points.now.edges) placement.now.inserted }
    requires kept_ascending { IsStrictlyIncreasing placement.now.kept }
    requires kept { All (λ point. point < length points.now.points) placement.now.kept }
    requires valid { IsValid full.now.net }
    requires bounded { full.now.constant < 2 ^ 104 }
    requires within { IsWithin full.now.net flow.now }
    ensures { (reached : ℕ → Bool) → AreReached function.now reached → MatchOption result
        (cost_of function.now counts.now reached points.now placement.now ≡ flow_value full.now.net flow.now + full.now.constant)
        (λ pair. (pair.0 ≡ cost_of function.now counts.now reached points.now placement.now) × (pair.1 ≡ flow_value full.now.net flow.now + full.now.constant) × (pair.0 ≢ pair.1)) }
{
    let cost = cost_by_blocks(function, points, counts, by_block, placement);
    let sum = value(&full.net, flow) + full.constant;
    if cost == sum { None } else { Some((cost, sum)) }
}

/// The first node of a rank above 0 from which no residual arc leads to the sink or to a node of a lower rank above 0.
fn first_stuck(alloc: Global, net: &Net, shown: &Shown) -> Result<Option<u32>, NoMemory>
    requires valid { IsValid net.now }
    requires within { IsWithin net.now shown.now.flow }
    requires places { HasPlaces net.now shown.now }
    ensures { IfOk result (λ node. MatchOption node (RanksFall net.now shown.now.flow (rank_at shown.now)) (IsFirstStuck net.now shown.now.flow (rank_at shown.now))) }
{
    let mut marks = vec![in alloc; false; net.nodes as usize]?;
    Ok(check_ranks(net, &shown.flow, &shown.ranks, &mut marks))
}

/// For each node whether it is the sink or has a rank above 0.
fn ranked_nodes(alloc: Global, ranks: &[u32]) -> Result<Vec<bool>, NoMemory>
    requires { 2 ≤ length ranks.now }
    ensures len { IfOk result (λ side. length side.items ≡ length ranks.now) }
    ensures each { IfOk result (λ side. (v : ℕ) → slice_index_or side.items v false ≡ ranked (λ w. slice_index_or ranks.now w 0) v) }
{
    let mut side = Vec::new(alloc);
    for (node, rank) in ranks.iter().enumerate() {
        side.push(node == 1 || 0 < *rank)?;
    }
    Ok(side)
}
