//! An expression has one lazy placement.
ghost use Rattle.lazy_motion.specs.Laws.{OneLazyIn};

/// A law: two lazy placements of an expression with ascending lists are the same.
pub fn one_lazy()
    ensures { OneLazyIn }
{}
