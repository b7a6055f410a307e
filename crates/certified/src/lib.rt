//! When a certificate is that of a module and its counts.
#![tactic(auto)]

mod placements;

ghost use Rattle.certified.specs.Laws.{CertifiedAreBest, GoodIsBest, OneCertified};

use function_graphs::{certified_is_best, events_exist};
use one_transformed::{best_stays, one_numbering, one_transformed};
pub use placements::placements_of;

/// The placement of a good entry of an expression that can't trap is the best one.
pub fn good_is_best()
    ensures { GoodIsBest }
{
    certified_is_best();
    events_exist();
}

/// A good certificate has one module.
pub fn one_certified()
    ensures { OneCertified }
{
    one_transformed();
}

/// The placements that a good certificate names for expressions that can't trap are the best ones.
pub fn certified_are_best()
    ensures { CertifiedAreBest }
{
    best_stays();
    good_is_best();
    one_numbering();
}
