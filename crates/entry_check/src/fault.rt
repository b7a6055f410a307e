//! What is wrong with an entry of a certificate.

/// What is wrong with an entry of a certificate: the first of these, in this order.
#[derive(Clone, Copy, Debug, PartialEq, Eq)]
pub enum Fault {
    /// `inserted` isn't a strictly ascending list of edges, or `kept` isn't one of occurrences of the expression.
    Lists,
    /// There is no flow, or there are no ranks, or not one amount for each arc or one rank for each node from node 2 on.
    Missing,
    /// The smallest deleted occurrence that some path reaches without a value.
    Incorrect(u32),
    /// The expression can trap, and this is the smallest inserted edge that leads to a point that isn't inevitable.
    Unsafe(u32),
    /// The first arc whose amount is above its capacity.
    Capacity(u32),
    /// The first node but the source and the sink that isn't balanced.
    Balance(u32),
    /// The placement's cost, and the flow's value with the constant, which isn't that.
    Value(u128, u128),
    /// The first node of a rank above 0 that has no residual arc to the sink or to a node of a lower rank above 0.
    Rank(u32),
    /// The placement isn't the one that is read off the nodes of rank above 0.
    Places,
}
