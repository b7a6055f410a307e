//! A module does the same with each name as it is spelled.
#![tactic(auto)]

ghost use Rattle.ir_types.specs.Program.{Program};
ghost use Rattle.ir_types.specs.Same.{plain};
ghost use Rattle.ir_machine.specs.Same.{Same};

/// What a module does does not depend on how its names are written: with each name as it is spelled it does the same.
pub fn plain_same()
    ensures { (m m_new : Program) → Same m m_new → Same m (plain m_new) }
{}
