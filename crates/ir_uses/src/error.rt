//! Why a tree has no module.
ghost use Rattle.ir_uses.specs.Answers.{IsAnswer};
ghost use Rattle.ir_uses.specs.declared.error.CheckError.TheVariants.{Broken, NoMemory};
ghost use Rattle.ir_types.specs.Problems.{broken};
ghost use Rattle.std.specs.Prelude.{◌≡◌};

use ir_types::rules::{Problem, Rule};
use ir_types::span::Span;
use std::alloc::{AllocError, AllocFailed};

/// A broken rule of the tree, or want of memory.
#[derive(Clone, Copy, Debug, PartialEq, Eq)]
pub enum CheckError {
    Broken(Problem),
    NoMemory,
}

impl From<AllocError> for CheckError {
    ghost from_gives = { λ _ e. e ≡ NoMemory };

    fn from(_error: AllocError) -> CheckError {
        CheckError::NoMemory
    }
}

impl<T: Drop> From<AllocFailed<T>> for CheckError {
    ghost from_gives = { λ _ e. e ≡ NoMemory };

    fn from(_error: AllocFailed<T>) -> CheckError {
        CheckError::NoMemory
    }
}

/// The error of a rule that is broken at a place.
pub fn broken(rule: Rule, span: Span) -> CheckError
    ensures { result ≡ Broken (record { rule = rule; span = span }) }
{
    CheckError::Broken(Problem { rule, span })
}

/// Refuses a rule that is broken at a place.
pub fn refuse_if(is_broken: bool, rule: Rule, span: Span) -> Result<(), CheckError>
    ensures { IsAnswer result (broken rule span is_broken) }
{
    if is_broken {
        return Err(broken(rule, span));
    }
    Ok(())
}
