//! The best placement of an expression by the counts of a function.
#![tactic(auto)]

mod flows;
mod networks;

ghost use Rattle.std.specs.Prelude.{◌≡◌, ℕ, Bool, ◌+◌, ◌*◌, ◌<◌, ◌≤◌, ◌^◌, IfOk, length};
ghost use Rattle.point_graph.specs.Numbers.{ArePoints};
ghost use Rattle.expressions.specs.declared.syntax.Event.{Event};
ghost use Rattle.expressions.specs.Tables.{IsTable};
ghost use Rattle.profile.specs.Counts.{HasSlots, IsUnreachedZero, total};
ghost use Rattle.flow_net.specs.declared.Net.{Net};
ghost use Rattle.best_choice.specs.Best.{IsBestIn};
ghost use Rattle.best_placement.specs.Laws.{IsBlockNetwork};
ghost use Rattle.function_graphs.specs.Graphs.{graph_of, IsIn};
ghost use Rattle.local_sets.specs.declared.flags.Reach.{Reach};
ghost use Rattle.reduced_flows.specs.Flows.{IsReachOf};
ghost use Rattle.mc_solve.specs.Parts.{needed_nodes};
ghost use Rattle.mc_solve.specs.Solved.{IsShown, IsSolved};

use crate::flows::flow_of;
use crate::networks::networks_of;
use expressions::Table;
use flow_net::Flow;
use ir_types::syntax::Function;
use latest_cut::{Cut, latest};
use max_flow::Steps;
use mc_num::NoMemory;
use placement::Placement;
use point_graph::Points;
use profile::FnCounts;
use read_off::read_off;
use std::alloc::Global;
use std::sync::ledger::Ledger;

/// The best placement of an expression, with what shows that it is the best.
#[derive(Drop)]
pub struct Solved {
    pub placement: Placement,
    /// A maximum flow of the block network, an amount for each of its arcs.
    pub flow: Flow,
    /// The latest least side of the block network, and the rank of each of its nodes.
    pub cut: Cut,
}

/// The best placement of the expression of this number: a correct one that costs least by the counts, and of those the
/// one that lives least.
///
/// It is read off the latest minimum cut of the block network of the expression. Minimum cuts by the counts of a run are
/// the method of Cai and Xue (2003), and the latest one is that of Xue and Cai (2006). The flow is looked for in the part
/// of the network that is wanted and not available; `steps` counts its phases. `NoMemory` where an allocation was refused.
pub fn solve<L: Ledger>(
    alloc: Global,
    function: &Function<'_>,
    points: &Points,
    table: &Table<'_, '_>,
    e: u32,
    counts: &FnCounts,
    steps: &mut Steps<L>,
) -> Result<Solved, NoMemory>
    requires defined { 0 < length function.now.blocks }
    requires points { ArePoints function.now points.now }
    requires table { IsTable function.now points.now table.now }
    requires expression { e < length table.now.exprs }
    requires slots { HasSlots function.now counts.now }
    requires unreached { IsUnreachedZero function.now counts.now }
    requires total { total counts.now < 2 ^ 62 }
    ensures best { IfOk result (λ s. IsBestIn function.now points.now table.now e counts.now s.placement) }
    ensures solved { IfOk result (λ s. (reached : ℕ → Bool) (event : ℕ → Event) (net : Net) → IsIn function.now points.now table.now e reached event
        → IsBlockNetwork (graph_of function.now points.now counts.now reached event) net → IsSolved function.now points.now counts.now reached event net s) }
    ensures shown { IfOk result (IsShown function.now points.now table.now e counts.now) }
    ensures phases { steps.new ≤ steps.old + (2 + 2 * length points.now.blocks) }
    ensures needed_phases { (reach : Reach) → IsReachOf function.now points.now table.now e reach → steps.new ≤ steps.old + needed_nodes reach points.now.blocks }
{
    let nets = networks_of(alloc, function, points, table, e, counts)?;
    let flow = flow_of(alloc, &nets, steps)?;
    let cut = latest(alloc, &nets.full.net, &flow)?;
    let placement = read_off(alloc, function, points, table, e, &cut.sink_side)?;
    Ok(Solved {
        placement,
        flow,
        cut,
    })
}
