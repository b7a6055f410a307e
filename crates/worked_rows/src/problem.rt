//! Why the rows were not all run.

use mc_num::NoMemory;
use std::alloc::{AllocError, AllocFailed};
use std::io;

/// Why the rows were not all run.
#[derive(Clone, Copy, Debug, PartialEq, Eq)]
pub enum Problem {
    /// A table isn't of its form.
    Form,
    /// A table wasn't read, or a line wasn't printed.
    Outside,
    NoMemory,
}

impl Problem {
    /// The status that the program ends with.
    pub fn status(self) -> u8 {
        match self {
            Problem::Form => 1,
            Problem::Outside => 4,
            Problem::NoMemory => 5,
        }
    }
}

impl From<NoMemory> for Problem {
    fn from(_: NoMemory) -> Problem {
        Problem::NoMemory
    }
}

impl From<AllocError> for Problem {
    fn from(_: AllocError) -> Problem {
        Problem::NoMemory
    }
}

impl<T: Drop> From<AllocFailed<T>> for Problem {
    fn from(_: AllocFailed<T>) -> Problem {
        Problem::NoMemory
    }
}

impl From<io::Error> for Problem {
    fn from(_: io::Error) -> Problem {
        Problem::Outside
    }
}
