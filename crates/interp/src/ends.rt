//! How a bounded run ends.
use mc_num::Trap;
use profile::Profile;

/// How a bounded run ended.
#[derive(Debug, Drop)]
pub enum RunEnd {
    /// `main` returned this value, or none, and the run made these counts.
    Returned(Option<u64>, Profile),
    /// It trapped.
    Trapped(Trap),
    /// It made as many steps as it might, and none ended it.
    StepLimit,
    /// The input failed at a `getchar`.
    ReadFault,
    /// The output failed at a `putchar`.
    WriteFault,
    /// The module has no defined function `main` without parameters.
    NoMain,
}

/// What stops a run before its limit.
#[derive(Debug, Drop)]
pub(crate) enum Stop {
    Returned(Option<u64>),
    Trapped(Trap),
    ReadFault,
    WriteFault,
}
