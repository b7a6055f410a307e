//! The graphs of expressions in functions: the laws of cheapest placements hold of them.
#![tactic(auto)]

ghost use Rattle.function_graphs.specs.Best.{LatestIsBest, CertifiedIsBest};
ghost use Rattle.function_graphs.specs.Graphs.{EventsExist, FunctionsHaveGraphs, PlacementsAgree};
ghost use Rattle.function_graphs.specs.Networks.{NetworksAreValid};
ghost use Rattle.function_graphs.specs.Sets.{SetsAgree};

/// Each point is something to an expression of a table.
pub fn events_exist()
    ensures { EventsExist }
{}

/// The points and edges of a function, the events of an expression and the weights of counts are a
/// graph of blocks, as the laws of cheapest placements want one.
pub fn functions_have_graphs()
    ensures { FunctionsHaveGraphs }
{}

/// On that graph a placement is correct, is live and costs just as it does in the function.
pub fn placements_agree()
    ensures { PlacementsAgree }
{}

/// The sets of a function's blocks are those of the blocks of the graph.
pub fn sets_agree()
    ensures { SetsAgree }
{}

/// The block network of an expression is valid, where all counts of the function together are below 2^64.
pub fn networks_are_valid()
    ensures { NetworksAreValid }
{}

/// What is read off the latest least side of the block network is the best placement of the expression.
pub fn latest_is_best()
    ensures { LatestIsBest }
{}

/// So is a placement with a flow of its cost and with falling ranks.
pub fn certified_is_best()
    ensures { CertifiedIsBest }
{}
