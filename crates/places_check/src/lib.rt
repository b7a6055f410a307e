//! The check that a placement is the one read off a set of nodes, without memory.
#![tactic(auto)]

ghost use Rattle.std.specs.Prelude.{◌≡◌, ◌+◌, ◌*◌, ◌<◌, ◌↔◌, ℕ, Bool, IsTrue, false, length, slice_index_or};
ghost use Rattle.point_graph.specs.Numbers.{ArePoints};
ghost use Rattle.expressions.specs.Tables.{IsEventOf, IsTable};
ghost use Rattle.expressions.specs.declared.syntax.Event.{Event};
ghost use Rattle.profile.specs.declared.counts.FnCounts.{FnCounts};
ghost use Rattle.placement.specs.Placements.{arcs_of};
ghost use Rattle.best_choice.specs.Best.{IsPlacementOn};
ghost use Rattle.best_placement.specs.Laws.{IsReadOffOn};
ghost use Rattle.function_graphs.specs.Graphs.{IsIn, graph_of};

mod cursor;
mod walking;

use crate::cursor::Cursor;
use crate::walking::{Expression, pass_block};
use expressions::Table;
use function_graphs::{functions_have_graphs, placements_agree};
use ir_types::syntax::Function;
use placement::Placement;
use point_graph::{Points, block_at};
use read_off::read_off_is_bits;

/// Whether the placement is the one that is read off a set of nodes of the block network of an expression.
///
/// `e` is the number of the expression. `sink_side` has a flag for each node: the source, the sink, and then a head and
/// a terminator for each reached block, in order. It takes no memory.
pub fn check_places(
    function: &Function<'_>,
    points: &Points,
    table: &Table<'_, '_>,
    e: u32,
    sink_side: &[bool],
    placement: &Placement,
) -> bool
    requires defined { 0 < length function.now.blocks }
    requires points { ArePoints function.now points.now }
    requires table { IsTable function.now points.now table.now }
    requires expression { e < length table.now.exprs }
    requires nodes { length sink_side.now ≡ 2 + 2 * length points.now.blocks }
    requires placement { IsPlacementOn (arcs_of points.now.edges) (length points.now.points) (IsEventOf function.now points.now table.now e) placement.now }
    ensures { (counts : FnCounts) (reached : ℕ → Bool) (event : ℕ → Event) → IsIn function.now points.now table.now e reached event
        → IsTrue result ↔ IsReadOffOn (graph_of function.now points.now counts reached event) (λ v. slice_index_or sink_side.now v false) placement.now }
{
    functions_have_graphs();
    placements_agree();
    read_off_is_bits();
    let expression = Expression {
        function,
        points,
        table,
        number: e,
    };
    let mut inserted = Cursor::new(placement.inserted.as_slice());
    let mut kept = Cursor::new(placement.kept.as_slice());
    inserted.pass(sink_side[2]);
    kept.pass(false);
    let blocks = points.blocks.as_slice();
    for (place, number) in blocks.iter().enumerate() {
        let block = block_at(function, *number);
        pass_block(
            &mut inserted,
            &mut kept,
            &expression,
            sink_side,
            place,
            block,
        );
    }
    inserted.is_done() && kept.is_done()
}
