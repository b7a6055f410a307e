//! Reading of a profile.
ghost use Rattle.std.specs.Prelude.{◌≡◌, ◌≤◌, ◌^◌, List, length, IfOk, IfErr, MatchResult};
ghost use Rattle.ir_types.specs.WellFormed.{IsWellFormed};
ghost use Rattle.profile.specs.declared.counts.FnCounts.{FnCounts};
ghost use Rattle.profile.specs.Counts.{HasShape};
ghost use Rattle.profile.specs.Reading.{Reads, Refuses};

use crate::checking::{check_all_reached, check_balances, total_of};
use crate::counts::Profile;
use crate::lines::read_lines;
use crate::shapes::read_counts;
use ir_types::module::Module;
use mc_num::NoMemory;
use std::alloc::{AllocError, Global};
use thiserror::Error;

/// The least sum of all counts that is too great.
const LEAST_TOO_MANY: u128 = 1 << 62;

/// Why a text is no profile of a module. Lines are counted from 1, functions that have blocks and blocks from 0.
#[derive(Clone, Copy, Debug, PartialEq, Eq, Error)]
pub enum ProfileError {
    /// The first line that is of no form.
    #[error("line {0} is of no form")]
    Form(u32),
    /// The first line whose word, number or amount of counts isn't the module's, or that is missing.
    #[error("line {0} isn't the module's")]
    Shape(u32),
    /// The first function and reached block out of balance, with what enters and what leaves.
    #[error("block {1} of function {0} has {2} in and {3} out")]
    Unbalanced(u32, u32, u128, u128),
    /// The first function and unreached block that a count leaves.
    #[error("block {1} of function {0} isn't reached, and is left")]
    Unreached(u32, u32),
    /// All counts sum to 2^62 or more.
    #[error("the counts sum to 2^62 or more")]
    Total,
    /// An allocation was refused.
    #[error("an allocation was refused")]
    NoMemory,
}

impl From<NoMemory> for ProfileError {
    ghost use Rattle.profile.specs.declared.reading.ProfileError.TheVariants.{NoMemory};

    ghost from_gives = { λ _ error. error ≡ NoMemory };

    fn from(_: NoMemory) -> ProfileError {
        ProfileError::NoMemory
    }
}

impl From<AllocError> for ProfileError {
    ghost use Rattle.profile.specs.declared.reading.ProfileError.TheVariants.{NoMemory};

    ghost from_gives = { λ _ error. error ≡ NoMemory };

    fn from(_: AllocError) -> ProfileError {
        ProfileError::NoMemory
    }
}

/// A module keeps its rules. It does nothing.
fn keeps_rules(program: &Module<'_>)
    ensures { IsWellFormed program.now }
{
    let _functions = program.functions();
}

fn read(alloc: Global, bytes: &[u8], program: &Module<'_>) -> Result<Profile, ProfileError>
    requires { length bytes.now ≤ 2 ^ 26 }
    ensures ok { IfOk result (λ p. Reads program.now bytes.now p.functions) }
    ensures shape { IfOk result (λ p. HasShape program.now p.functions) }
    ensures err { IfErr result (λ e. Refuses program.now bytes.now e) }
{
    let lines = read_lines(alloc, bytes)?;
    let functions = read_counts(alloc, program, lines.as_slice())?;
    check_balances(alloc, program, functions.as_slice())?;
    check_all_reached(alloc, program, functions.as_slice())?;
    if total_of(functions.as_slice()) >= LEAST_TOO_MANY {
        return Err(ProfileError::Total);
    }
    Ok(Profile { functions })
}

/// The counts that a text says, if they are accepted.
///
/// The text is refused at the first line that is of no form, else at the first that isn't the module's, else at the first
/// reached block out of balance, else at the first unreached block that is left, else for its sum. `NoMemory` where an
/// allocation was refused.
pub fn read_profile(
    alloc: Global,
    bytes: &[u8],
    program: &Module<'_>,
) -> Result<Profile, ProfileError>
    requires { length bytes.now ≤ 2 ^ 26 }
    ensures ok { IfOk result (λ p. Reads program.now bytes.now p.functions) }
    ensures shape { IfOk result (λ p. HasShape program.now p.functions) }
    ensures err { IfErr result (λ e. Refuses program.now bytes.now e) }
    // the text of accepted counts is read as those counts, unless memory ran out
    ensures exact { (counts : List FnCounts) → Reads program.now bytes.now counts → MatchResult result (λ p. p.functions ≡ counts) (λ e. e ≡ ProfileError.NoMemory) }
{
    keeps_rules(program);
    read(alloc, bytes, program)
}
