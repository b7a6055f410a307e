//! Two wordings of validity.
ghost use Rattle.std.specs.Prelude.{◌↔◌, List};
ghost use Rattle.flow_paths.specs.declared.marks.Mark.{Mark};
ghost use Rattle.flow_paths.specs.Paths.{Place};
ghost use Rattle.flow_paths.specs.Marks.{ValidBy, WritesLastBy};

/// A law: that some write has no kill after it is the same as that a write comes after the last kill, or that there is a
/// write and no kill.
pub fn after_last_kill()
    ensures { (mark : Place → Mark) (places : List Place) → ValidBy mark places ↔ WritesLastBy mark places }
{}
