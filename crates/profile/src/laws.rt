//! Laws of profiles. Each function does nothing: its contract is the law.
ghost use Rattle.std.specs.Prelude.{ℕ, List};
ghost use Rattle.ir_types.specs.Program.{Program};
ghost use Rattle.ir_types.specs.WellFormed.{IsWellFormed};
ghost use Rattle.profile.specs.declared.counts.FnCounts.{FnCounts};
ghost use Rattle.profile.specs.Counts.{IsAccepted};
ghost use Rattle.profile.specs.Text.{prof_text};
ghost use Rattle.profile.specs.Reading.{HasOneAnswer, Reads};

/// A text is the profile of one list of counts at most, or is refused for one reason at most, and not both.
pub fn one_answer()
    ensures { (m : Program) → IsWellFormed m → (bytes : List ℕ) → HasOneAnswer m bytes }
{}

/// What is printed of accepted counts reads back as those counts.
pub fn reads_back()
    ensures { (m : Program) (counts : List FnCounts) → IsAccepted m counts → Reads m (prof_text m counts) counts }
{}
