//! What is placed in a function.
use expressions::Table;
use ir_types::items::Items;
use placement::Placement;
use point_graph::Points;

/// The points and the expressions of a defined function, with one placement for each of its expressions.
#[derive(Drop)]
pub struct Placed<'m, 'a> {
    pub points: Points,
    pub table: Table<'m, 'a>,
    pub placements: Items<Placement>,
}
