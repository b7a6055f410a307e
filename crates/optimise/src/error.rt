//! Why there is no optimised module.
ghost use Rattle.std.specs.Prelude.{◌≡◌};

use mc_num::NoMemory;
use std::alloc::{AllocError, AllocFailed};

/// Why there is no optimised module.
#[derive(Clone, Copy, Debug, PartialEq, Eq)]
pub enum OptimiseError {
    /// In some function the chosen placements insert at 2^28 edges or more, over all of its expressions.
    TooMany,
    /// An allocation was refused.
    NoMemory,
}

impl From<NoMemory> for OptimiseError {
    ghost use Rattle.optimise.specs.declared.error.OptimiseError.TheVariants.{NoMemory};

    ghost from_gives = { λ _ error. error ≡ NoMemory };

    fn from(_: NoMemory) -> OptimiseError {
        OptimiseError::NoMemory
    }
}

impl<T: Drop> From<AllocFailed<T>> for OptimiseError {
    ghost use Rattle.optimise.specs.declared.error.OptimiseError.TheVariants.{NoMemory};

    ghost from_gives = { λ _ error. error ≡ NoMemory };

    fn from(_: AllocFailed<T>) -> OptimiseError {
        OptimiseError::NoMemory
    }
}
