//! What placements make of a module is determined, however its functions were numbered.
#![tactic(auto)]

ghost use Rattle.one_transformed.specs.Laws.{BestStays, OneNumbering, OneTransformed};

use applied::applied_stands;
use placed_moves::placed_is_told;
use point_numbers::points_are_told;

/// A function has one numbering of its points and edges, and one table.
pub fn one_numbering()
    ensures { OneNumbering }
{
    points_are_told();
}

/// The best placement by one numbering is the best one by each other.
pub fn best_stays()
    ensures { BestStays }
{}

/// A module has one module with given placements applied.
pub fn one_transformed()
    ensures { OneTransformed }
{
    applied_stands();
    placed_is_told();
    points_are_told();
}
