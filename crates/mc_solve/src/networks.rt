//! The block network of an expression, and the part of it that is needed.
ghost use Rattle.std.specs.Prelude.{◌≡◌, ℕ, Bool, ◌+◌, ◌*◌, ◌<◌, ◌≤◌, ◌^◌, IfOk, length};
ghost use Rattle.point_graph.specs.Numbers.{ArePoints};
ghost use Rattle.expressions.specs.declared.syntax.Event.{Event};
ghost use Rattle.expressions.specs.Tables.{IsTable};
ghost use Rattle.profile.specs.Counts.{HasSlots, IsUnreachedZero, total};
ghost use Rattle.flow_net.specs.Network.{IsValid};
ghost use Rattle.best_placement.specs.Laws.{IsBlockNetwork};
ghost use Rattle.function_graphs.specs.Graphs.{graph_of, IsIn};
ghost use Rattle.local_sets.specs.declared.flags.Reach.{Reach};
ghost use Rattle.reduced_flows.specs.Flows.{IsReachOf};
ghost use Rattle.mc_solve.specs.Parts.{IsPartOf, needed_nodes};

use expressions::Table;
use ir_types::syntax::Function;
use local_sets::{local_sets, reach};
use mc_num::NoMemory;
use point_graph::Points;
use profile::FnCounts;
use reduced_flows::reduced_flows_are_maximum;
use reduction::{BlockNet, Reduced, network, reduce};
use std::alloc::Global;

/// The block network of an expression, and what of it is wanted and not available.
#[derive(Drop)]
pub struct Networks {
    pub full: BlockNet,
    pub needed: Reduced,
}

/// The networks of the expression of this number.
pub fn networks_of(
    alloc: Global,
    function: &Function<'_>,
    points: &Points,
    table: &Table<'_, '_>,
    e: u32,
    counts: &FnCounts,
) -> Result<Networks, NoMemory>
    requires defined { 0 < length function.now.blocks }
    requires points { ArePoints function.now points.now }
    requires table { IsTable function.now points.now table.now }
    requires expression { e < length table.now.exprs }
    requires slots { HasSlots function.now counts.now }
    requires unreached { IsUnreachedZero function.now counts.now }
    requires total { total counts.now < 2 ^ 62 }
    ensures network { IfOk result (λ nets. (reached : ℕ → Bool) (event : ℕ → Event) → IsIn function.now points.now table.now e reached event
        → IsBlockNetwork (graph_of function.now points.now counts.now reached event) nets.full.net) }
    ensures nodes { IfOk result (λ nets. nets.full.net.nodes ≡ 2 + 2 * length points.now.blocks) }
    ensures valid { IfOk result (λ nets. IsValid nets.full.net) }
    ensures part { IfOk result (λ nets. IsPartOf nets.full.net nets.needed) }
    ensures needed { IfOk result (λ nets. (reach : Reach) → IsReachOf function.now points.now table.now e reach → nets.needed.net.nodes ≡ needed_nodes reach points.now.blocks) }
    ensures valid_part { IfOk result (λ nets. IsValid nets.needed.net) }
{
    reduced_flows_are_maximum();
    let sets = local_sets(alloc, function, points, table, e)?;
    let full = network(alloc, function, points, &sets, counts)?;
    let reach = reach(alloc, function, points, &sets)?;
    let needed = reduce(alloc, &full, &reach)?;
    Ok(Networks { full, needed })
}
