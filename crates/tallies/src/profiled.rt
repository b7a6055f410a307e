//! How often an expression is computed, by the counts of a function.
ghost use Rattle.std.specs.Prelude.{◌≡◌, ◌≤◌, ◌*◌, ◌/◌, ◌^◌, ℕ, Bool};
ghost use Rattle.flow_graph.specs.Paths.{AreReached};
ghost use Rattle.point_graph.specs.Numbers.{ArePoints};
ghost use Rattle.profile.specs.Counts.{total};
ghost use Rattle.block_counts.specs.Counts.{AreBlockCounts};
ghost use Rattle.placement.specs.Costs.{cost_of};
ghost use Rattle.tallies.specs.Tallies.{count_of};
ghost use Rattle.tallies.specs.Steps.{AreOwnCounts, IsInRange};

use block_counts::BlockCounts;
use counted_costs::cost_by_blocks;
use ir_types::syntax::Function;
use placement::{BASE, Placement};
use point_graph::Points;
use profile::FnCounts;

/// The profiled part of what a placement costs: the sum of the counts of its places.
pub(crate) fn profiled(
    function: &Function<'_>,
    points: &Points,
    counts: &FnCounts,
    by_block: &BlockCounts,
    placement: &Placement,
) -> u128
    requires points { ArePoints function.now points.now }
    requires counts { AreOwnCounts function.now counts.now }
    requires by_block { AreBlockCounts function.now counts.now by_block.now }
    requires placement { IsInRange points.now placement.now }
    ensures sum { (reached : ℕ → Bool) → AreReached function.now reached → result ≡ count_of function.now counts.now reached points.now placement.now }
    ensures part { (reached : ℕ → Bool) → AreReached function.now reached → result ≡ cost_of function.now counts.now reached points.now placement.now / BASE }
    ensures small { result ≤ 2 ^ 20 * total counts.now }
{
    cost_by_blocks(function, points, counts, by_block, placement) / BASE
}
