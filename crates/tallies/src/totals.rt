//! The sums of tallies.
ghost use Rattle.std.specs.Prelude.{◌≡◌, ◌-◌, ◌^◌};
ghost use Rattle.tallies.specs.Sums.{AreAtMost, no_totals, one_tally, plus, totals_in};

use crate::tally::Tally;

/// The sums over tallies.
#[derive(Clone, Copy, Debug, PartialEq, Eq)]
pub struct Totals {
    /// How many expressions there are.
    pub expressions: u128,
    /// How often they are computed where they occur.
    pub old: u128,
    /// How often they are computed where they are placed.
    pub new: u128,
    /// At how many edges they are inserted, in all.
    pub inserted: u128,
    /// How many occurrences are kept.
    pub kept: u128,
    /// How many occurrences are deleted.
    pub deleted: u128,
}

impl Totals {
    /// The sums over no tallies.
    pub(crate) fn none() -> Totals
        ensures { result ≡ no_totals }
    {
        Totals {
            expressions: 0,
            old: 0,
            new: 0,
            inserted: 0,
            kept: 0,
            deleted: 0,
        }
    }

    /// Those of one tally.
    fn of(tally: &Tally) -> Totals
        ensures { result ≡ one_tally tally.now }
    {
        Totals {
            expressions: 1,
            old: tally.old,
            new: tally.new,
            inserted: tally.inserted as u128,
            kept: tally.kept as u128,
            deleted: tally.deleted as u128,
        }
    }

    /// These and others together.
    pub(crate) fn plus(self, others: Totals) -> Totals
        requires { AreAtMost (2 ^ 128 - 1) (plus self others) }
        ensures { result ≡ plus self others }
    {
        Totals {
            expressions: self.expressions + others.expressions,
            old: self.old + others.old,
            new: self.new + others.new,
            inserted: self.inserted + others.inserted,
            kept: self.kept + others.kept,
            deleted: self.deleted + others.deleted,
        }
    }

    /// The sums over tallies.
    pub(crate) fn over(tallies: &[Tally]) -> Totals
        requires { AreAtMost (2 ^ 128 - 1) (totals_in tallies.now) }
        ensures { result ≡ totals_in tallies.now }
    {
        let mut totals = Totals::none();
        for tally in tallies {
            totals = totals.plus(Totals::of(tally));
        }
        totals
    }
}
