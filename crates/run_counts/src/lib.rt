//! One law: the counts of a run that returned are accepted.
#![tactic(auto)]

ghost use Rattle.run_counts.specs.Counted.{AcceptsReturned};

/// The counts of a run of a module that returned within fewer than 2^62 steps are accepted: what enters a block leaves it unless it
/// returns, nothing leaves a block that no path meets, and all counts together are no more than the steps.
pub fn returned_counts_are_accepted()
    ensures { AcceptsReturned }
{}
