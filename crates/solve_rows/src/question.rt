//! What is asked of `solve`.

use expressions::Table;
use ir_types::syntax::Function;
use point_graph::Points;
use profile::FnCounts;

/// An expression of a function, with the counts of the function.
#[derive(Clone, Copy)]
pub struct Question<'q, 'a> {
    pub function: &'q Function<'a>,
    pub points: &'q Points,
    pub table: &'q Table<'q, 'a>,
    pub counts: &'q FnCounts,
    pub e: u32,
}
