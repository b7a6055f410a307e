//! The cheapest placements of an expression are those read off the least sides of its block network.
#![tactic(auto)]

ghost use Rattle.best_placement.specs.Laws.{LiveIsASide, ReadOffIsCorrect, ReadOffIsCheapest, ReadOffLivesLeast, ReadOffCostsTheFlow, CertifiedIsBest, ReadOffExists, NetworkIsValid};
ghost use Rattle.best_placement.specs.Reduction.{PartSidesWiden};
ghost use Rattle.best_placement.specs.Shapes.{ShapesAreGraphs, SomeSuit};

/// The live nodes of a correct placement are a side, and what it lets in, with the constant, is at
/// most the placement's cost.
pub fn live_is_a_side()
    ensures { LiveIsASide }
{}

/// What is read off a side is correct, and costs what the side lets in and the constant.
pub fn read_off_is_correct()
    ensures { ReadOffIsCorrect }
{}

/// What is read off a least side costs no more than any correct placement.
pub fn read_off_is_cheapest()
    ensures { ReadOffIsCheapest }
{}

/// Each correct placement that is as cheap as the one read off the latest side is live wherever
/// that one is.
pub fn read_off_lives_least()
    ensures { ReadOffLivesLeast }
{}

/// What is read off a least side costs the value of a maximum flow and the constant.
pub fn read_off_costs_the_flow()
    ensures { ReadOffCostsTheFlow }
{}

/// A placement with a flow of its cost and with falling ranks is cheapest and lives least.
pub fn certified_is_best()
    ensures { CertifiedIsBest }
{}

/// Blocks of suitable shapes, numbered in order, are a point graph.
pub fn shapes_are_graphs()
    ensures { ShapesAreGraphs }
{}

/// Each set of nodes has a placement that is read off it.
pub fn read_off_exists()
    ensures { ReadOffExists }
{}

/// There are shapes, events and weights that suit, so the laws speak of something.
pub fn some_suit()
    ensures { SomeSuit }
{}

/// The block network is valid, where its capacities stay below the bound.
pub fn network_is_valid()
    ensures { NetworkIsValid }
{}

/// Each side of a part of a network that leaves out the free nodes and those that lead nowhere is
/// widened to a side of the whole that lets in as much.
pub fn part_sides_widen()
    ensures { PartSidesWiden }
{}
