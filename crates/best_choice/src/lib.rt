//! An expression has one best placement: a correct one that costs least, and of those lives least.
#![tactic(auto)]

ghost use Rattle.best_choice.specs.Best.{OneBest, OneBestIn};

/// Where each edge weighs something, there is at most one best placement.
pub fn one_best()
    ensures { OneBest }
{}

/// By the counts of a function there is at most one best placement of an expression.
pub fn one_best_in()
    ensures { OneBestIn }
{}
