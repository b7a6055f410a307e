//! What the checker answers.

/// Why a certificate or a text is refused. Functions that have blocks, and the expressions of each, are counted from 0.
#[derive(Clone, Copy, Debug, PartialEq, Eq)]
pub enum Reason {
    /// The lists of the certificate don't fit the module: there isn't one list of entries for each function that has
    /// blocks, with one entry for each expression, or the entries of a function insert at 2^28 edges or more, or the
    /// lists of an entry aren't strictly ascending lists of edges and of occurrences.
    Shape {
        function: u32,
        expression: u32,
    },
    /// The entry of an expression that can't trap has no flow or ranks of the right lengths.
    Missing {
        function: u32,
        expression: u32,
    },
    /// The smallest deleted occurrence that some path reaches without a value.
    Incorrect {
        function: u32,
        expression: u32,
        point: u32,
    },
    /// The expression can trap, and this is the smallest inserted edge that leads to a point that isn't inevitable.
    Unsafe {
        function: u32,
        expression: u32,
        edge: u32,
    },
    /// The first arc whose amount is above its capacity.
    Capacity {
        function: u32,
        expression: u32,
        arc: u32,
    },
    /// The first node but the source and the sink that isn't balanced.
    Balance {
        function: u32,
        expression: u32,
        node: u32,
    },
    /// The cost of the placement, and the flow's value with the constant, which isn't that.
    Value {
        function: u32,
        expression: u32,
        cost: u128,
        sum: u128,
    },
    /// The first node of a rank above 0 that has no residual arc to the sink or to a node of a lower rank above 0.
    Rank {
        function: u32,
        expression: u32,
        node: u32,
    },
    /// The placement isn't the one that is read off the nodes of rank above 0.
    Places {
        function: u32,
        expression: u32,
    },
    /// The text isn't that of the module with the placements applied: the first byte that differs, or the shorter length.
    Text {
        byte: u64,
    },
}

/// Whether a certificate and a text are those of a module and its counts.
#[derive(Clone, Copy, Debug, PartialEq, Eq)]
pub enum Verdict {
    Yes,
    No(Reason),
}
