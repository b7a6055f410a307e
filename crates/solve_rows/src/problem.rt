//! Why the program stops before its last case.

use ir_reader::ReadError;
use mc_num::NoMemory;
use profile::ProfileError;
use std::io;

/// Why the program stops before its last case.
#[derive(Debug, Drop)]
pub enum Problem {
    /// A part of a case is missing.
    NotACase,
    Module(ReadError),
    Profile(ProfileError),
    /// A text has more than 2^26 bytes.
    TooLong,
    /// What `solve` gave names no ascending edges and points of the function.
    NotAPlacement,
    NoMemory,
    Streams(io::Error),
}

impl From<NoMemory> for Problem {
    fn from(_: NoMemory) -> Problem {
        Problem::NoMemory
    }
}

impl From<io::Error> for Problem {
    fn from(error: io::Error) -> Problem {
        Problem::Streams(error)
    }
}
