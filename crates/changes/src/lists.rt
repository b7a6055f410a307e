//! The changes of a function and of its blocks.
use ir_types::items::Items;

/// What becomes of an instruction. Temporaries are numbered from 0 in their function.
#[derive(Clone, Copy, Debug, PartialEq, Eq)]
pub enum Action {
    /// It stays.
    Stays,
    /// It is a deleted occurrence, and becomes a load of this temporary.
    Loads(u32),
    /// It is a kept occurrence behind which its temporary is live: a store to this temporary follows it.
    Stores(u32),
}

/// What changes in a block. The lists are empty for a block that no path from the entry meets.
#[derive(Debug, Drop)]
pub struct BlockChanges {
    /// The number of the edge to the block's place 0; the edges to its other places follow.
    pub first_edge: u32,
    /// The number of the block's slot 0; its other slots follow.
    pub first_slot: u32,
    /// For each place of the block, its instructions and then its terminator, the temporaries whose expressions are
    /// inserted on the edge to it, ascending.
    pub inside: Items<Items<u32>>,
    /// For each slot of the block, the temporaries whose expressions are inserted on it, ascending.
    pub slots: Items<Items<u32>>,
    /// For each instruction of the block, what becomes of it.
    pub actions: Items<Action>,
}

/// What changes in a function.
#[derive(Debug, Drop)]
pub struct Changes {
    /// The number of the prefix of made names.
    pub prefix: u32,
    /// For each temporary the number of its expression in the function's table, ascending. The temporaries are the
    /// variables behind those of the function.
    pub temps: Items<u32>,
    /// The temporaries whose expressions are inserted on the edge from Start, ascending.
    pub entry: Items<u32>,
    /// For each block of the function what changes in it.
    pub blocks: Items<BlockChanges>,
}
