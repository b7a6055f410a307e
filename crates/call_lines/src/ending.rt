//! How a call ends.
ghost use Rattle.std.specs.Prelude.{◌≡◌};
ghost use Rattle.call_lines.specs.Ending.{status_of};

use certificate::CertPath;
use checker::Reason;
use ir_reader::Refusal;
use mc_num::{Trap, Width};

/// Why a profile is refused. Lines are counted from 1, functions that have blocks and blocks from 0.
#[derive(Clone, Copy, Debug, PartialEq, Eq)]
pub enum ProfileProblem {
    /// The first line that is of no form.
    Form(u32),
    /// The first line that isn't the module's, or that is missing.
    Shape(u32),
    /// The first function and reached block out of balance, with what enters and what leaves.
    Unbalanced(u32, u32, u128, u128),
    /// The first function and unreached block that a count leaves.
    Unreached(u32, u32),
    /// All counts sum to 2^62 or more.
    Total,
}

/// Why a file is refused.
#[derive(Clone, Copy, Debug, PartialEq, Eq)]
pub enum Problem<'a> {
    /// It has more than 2^26 bytes.
    TooLong,
    /// Its text is refused.
    Text {
        /// Why, and where.
        refusal: Refusal,
        /// The text's bytes at that place, at most 40 of them.
        excerpt: &'a [u8],
    },
    /// The text for the file that is written would have more than 2^26 bytes, or a function in it more than it may, or in
    /// some function the chosen placements insert at 2^28 edges or more.
    Grown,
    /// It has no defined function `main` without parameters.
    NoMain,
    /// The profile has more than 2^26 bytes.
    LongProfile,
    /// The profile is refused.
    BadProfile(ProfileProblem),
    /// The text beside a certificate has more than 2^26 bytes.
    LongOutput,
    /// The bytes of a certificate hold none; the first wrong part.
    BadCertificate(CertPath),
}

/// What a call did.
#[derive(Clone, Copy, Debug, PartialEq, Eq)]
pub enum Done {
    /// It wrote its texts.
    Written,
    /// The checker says yes.
    Checked,
    /// `main` returned this value with its width, or none.
    Returned(Option<(Width, u64)>),
}

/// Why a call stopped before it was done.
#[derive(Clone, Copy, Debug, PartialEq, Eq)]
pub enum Stop<'a> {
    /// The words fit no row.
    Usage,
    /// A file that was read has a problem.
    Refused {
        /// The file's name.
        file: &'a str,
        /// What is wrong with it.
        problem: Problem<'a>,
    },
    /// A file could not be read.
    ReadFault {
        /// The file's name, or `standard input`.
        name: &'a str,
    },
    /// A file could not be written.
    WriteFault {
        /// The file's name, or `standard output`.
        name: &'a str,
    },
    /// An allocation was refused.
    OutOfMemory,
    /// The checker says no.
    No(Reason),
    /// The run came to a trap.
    Trapped(Trap),
    /// So many steps were made, and none ended the run.
    StepLimit(u64),
}

/// The status of the process.
pub fn status_of(ending: &Result<Done, Stop<'_>>) -> u8
    ensures { result ≡ status_of ending.now }
{
    match ending {
        Ok(_) => 0,
        Err(Stop::Refused { .. }) => 1,
        Err(Stop::Usage) => 2,
        Err(Stop::ReadFault { .. }) => 3,
        Err(Stop::WriteFault { .. }) => 4,
        Err(Stop::OutOfMemory) => 5,
        Err(Stop::No(_)) => 6,
        Err(Stop::Trapped(_)) => 7,
        Err(Stop::StepLimit(_)) => 8,
    }
}
