//! Points and edges.
use ir_types::items::Items;

/// A point of a function. Blocks are numbered from 0 in their function, and instructions from 0 in their block.
#[derive(Clone, Copy, Debug, PartialEq, Eq)]
pub enum Point {
    /// Before the entry block.
    Start,
    /// Before the instructions of a block.
    Head(u32),
    /// An instruction of a block.
    Instr(u32, u32),
    /// The terminator of a block.
    Term(u32),
}

/// What an edge is. Slots are numbered from 0 in their block.
#[derive(Clone, Copy, Debug, PartialEq, Eq)]
pub enum EdgeKind {
    /// From Start to the head of the entry block.
    Entry,
    /// From a point of a block to its next point.
    Inside(u32),
    /// From the terminator of a block through a slot of it.
    Slot(u32, u32),
}

/// An edge, with the numbers of the points that it joins.
#[derive(Clone, Copy, Debug, PartialEq, Eq)]
pub struct Edge {
    pub from: u32,
    pub to: u32,
    pub kind: EdgeKind,
}

/// The numbers of a block's head and of the edge behind it.
#[derive(Clone, Copy, Debug, PartialEq, Eq)]
pub struct BlockStart {
    pub point: u32,
    pub edge: u32,
}

/// The points and the edges of a function. A point's number is its place in `points`, and an edge's in `edges`.
#[derive(Debug, Drop)]
pub struct Points {
    /// The blocks that paths from the entry meet, in text order.
    pub blocks: Items<u32>,
    /// Start, and then for each of these blocks its head, its instructions and its terminator.
    pub points: Items<Point>,
    /// The edge from Start, and then for each of these blocks its inside edges and its slots, in order.
    pub edges: Items<Edge>,
    /// Where the points and the edges of a block begin, for each block of the function. What stands here for a block
    /// that isn't one of `blocks` says nothing.
    pub starts: Items<BlockStart>,
}
