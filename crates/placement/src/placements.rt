//! Where an expression is computed.
use ir_types::items::Items;

/// Where an expression is computed in place of at each of its occurrences: at edges of the point graph, and at those
/// occurrences that are kept. The other occurrences are deleted. Both lists are ascending.
#[derive(Debug, Drop)]
pub struct Placement {
    /// The numbers of the edges at which it is inserted.
    pub inserted: Items<u32>,
    /// The numbers of the points whose occurrences are kept.
    pub kept: Items<u32>,
}
