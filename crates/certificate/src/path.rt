//! Places in the JSON form of a certificate, and why it is refused.
ghost use Rattle.std.specs.Prelude.{◌≡◌};
ghost use Rattle.certificate.specs.declared.path.CertError.TheVariants.{NoMemory};

use std::alloc::{AllocError, AllocFailed};
use thiserror::Error;

/// The key at which a part stands.
#[derive(Clone, Copy, Debug, PartialEq, Eq)]
pub enum CertKey {
    Whole,
    Version,
    Functions,
    Expressions,
    Flow,
    Inserted,
    Kept,
    Ranks,
}

/// The place of a part: under which function and expression, at which key, and which item there.
#[derive(Clone, Copy, Debug, PartialEq, Eq)]
pub struct CertPath {
    pub function: Option<u64>,
    pub expression: Option<u64>,
    pub key: CertKey,
    pub index: Option<u64>,
}

/// Why no certificate was read.
#[derive(Clone, Copy, Debug, PartialEq, Eq, Error)]
pub enum CertError {
    /// The bytes hold none; this is the first wrong part.
    #[error("no certificate")]
    Form(CertPath),
    /// An allocation was refused.
    #[error("out of memory")]
    NoMemory,
}

impl From<AllocError> for CertError {
    ghost from_gives = { λ _ error. error ≡ NoMemory };

    fn from(_error: AllocError) -> CertError {
        CertError::NoMemory
    }
}

impl<T: Drop> From<AllocFailed<T>> for CertError {
    ghost from_gives = { λ _ error. error ≡ NoMemory };

    fn from(_error: AllocFailed<T>) -> CertError {
        CertError::NoMemory
    }
}
