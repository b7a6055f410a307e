//! What a certificate says.
use ir_types::items::Items;
use placement::Placement;

/// The placement of one expression, with what shows that no correct one costs less. An expression that can trap has
/// no flow and no ranks.
#[derive(Debug, Drop)]
pub struct Entry {
    pub placement: Placement,
    /// The amount on each arc of the block network, below 2^120.
    pub flow: Option<Items<u128>>,
    /// The rank of each node of the block network from node 2 on; 0 for a node on the source's side.
    pub ranks: Option<Items<u32>>,
}

/// One list of entries for each function with blocks, with one entry for each expression of its table.
#[derive(Debug, Drop)]
pub struct Certificate {
    pub functions: Items<Items<Entry>>,
}
