//! A tree without a problem means a module that keeps its rules.
#![tactic(auto)]

ghost use Rattle.tree_rules.specs.Admitted.{AdmitsTrees};

/// The module that a tree without a problem means breaks no rule and is within the limits, where tokens can spell the
/// tree and it has at most 2^26 items. It does nothing when it runs.
pub fn checked_trees()
    ensures { AdmitsTrees }
{}
