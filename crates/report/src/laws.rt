//! The texts of placements are determined.
ghost use Rattle.std.specs.Prelude.{◌≡◌, ℕ, List};
ghost use Rattle.ir_types.specs.Program.{Program};
ghost use Rattle.profile.specs.declared.counts.FnCounts.{FnCounts};
ghost use Rattle.placement.specs.declared.placements.Placement.{Placement};
ghost use Rattle.report.specs.Report.{IsReport, IsSummary};

use tallies::one_tallying;

/// By its counts the placements of a module have one report, and one summary for each number.
pub fn one_report()
    ensures report { (m : Program) (counts : List FnCounts) (placements : List (List Placement)) (one other : List ℕ) → IsReport m counts placements one → IsReport m counts placements other → one ≡ other }
    ensures summary { (n : ℕ) (m : Program) (counts : List FnCounts) (placements : List (List Placement)) (one other : List ℕ) → IsSummary n m counts placements one → IsSummary n m counts placements other → one ≡ other }
{
    one_tallying();
}
