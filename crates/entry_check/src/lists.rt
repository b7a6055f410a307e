//! Whether the lists of an entry are a placement.

ghost use Rattle.std.specs.Prelude.{◌<◌, ◌↔◌, IsTrue, All, length};
ghost use Rattle.std.specs.List.Sorted.{IsStrictlyIncreasing};
ghost use Rattle.point_graph.specs.Numbers.{ArePoints};
ghost use Rattle.expressions.specs.Tables.{IsEventOf, IsTable};
ghost use Rattle.expressions.specs.declared.syntax.Event.TheVariants.{Occurs};
ghost use Rattle.placement.specs.Placements.{arcs_of};
ghost use Rattle.best_choice.specs.Best.{IsPlacementOn};

use expressions::{Event, Table, event};
use ir_types::syntax::Function;
use placement::Placement;
use point_graph::Points;

/// Whether the lists are strictly ascending lists of edges and of occurrences of the expression of this number. It takes
/// linear time and no memory.
pub fn are_listed(
    function: &Function<'_>,
    points: &Points,
    table: &Table<'_, '_>,
    e: u32,
    placement: &Placement,
) -> bool
    requires points { ArePoints function.now points.now }
    requires table { IsTable function.now points.now table.now }
    requires expression { e < length table.now.exprs }
    ensures { IsTrue result ↔ IsPlacementOn (arcs_of points.now.edges) (length points.now.points) (IsEventOf function.now points.now table.now e) placement.now }
{
    ascend_below(placement.inserted.as_slice(), points.edges.len())
        && are_occurrences(function, points, table, e, placement.kept.as_slice())
}

/// Whether the numbers are strictly ascending and below a limit.
fn ascend_below(numbers: &[u32], limit: usize) -> bool
    ensures { IsTrue result ↔ (IsStrictlyIncreasing numbers.now × All (λ n. n < limit) numbers.now) }
{
    ascend(numbers) && numbers.iter().all(|number| (*number as usize) < limit)
}

/// Whether each number is below the next.
fn ascend(numbers: &[u32]) -> bool
    ensures { IsTrue result ↔ IsStrictlyIncreasing numbers.now }
{
    for place in 1..numbers.len() {
        if numbers[place] <= numbers[place - 1] {
            return false;
        }
    }
    true
}

/// Whether the numbers are an ascending list of points at which the expression occurs.
fn are_occurrences(
    function: &Function<'_>,
    points: &Points,
    table: &Table<'_, '_>,
    e: u32,
    numbers: &[u32],
) -> bool
    requires table { IsTable function.now points.now table.now }
    requires expression { e < length table.now.exprs }
    ensures { IsTrue result ↔ (IsStrictlyIncreasing numbers.now × All (λ v. v < length points.now.points) numbers.now × All (λ v. IsEventOf function.now points.now table.now e v Occurs) numbers.now) }
{
    ascend_below(numbers, points.points.len()) && occur(function, points, table, e, numbers)
}

/// Whether the expression occurs at each of these points.
fn occur(
    function: &Function<'_>,
    points: &Points,
    table: &Table<'_, '_>,
    e: u32,
    numbers: &[u32],
) -> bool
    requires table { IsTable function.now points.now table.now }
    requires expression { e < length table.now.exprs }
    requires within { All (λ v. v < length points.now.points) numbers.now }
    ensures { IsTrue result ↔ All (λ v. IsEventOf function.now points.now table.now e v Occurs) numbers.now }
{
    for point in numbers {
        if !occurs(function, points, table, e, *point) {
            return false;
        }
    }
    true
}

/// Whether the expression occurs at this point.
fn occurs(
    function: &Function<'_>,
    points: &Points,
    table: &Table<'_, '_>,
    e: u32,
    point: u32,
) -> bool
    requires table { IsTable function.now points.now table.now }
    requires expression { e < length table.now.exprs }
    requires point { point < length points.now.points }
    ensures { IsTrue result ↔ IsEventOf function.now points.now table.now e point Occurs }
{
    matches!(event(function, points, table, e, point), Event::Occurs)
}
