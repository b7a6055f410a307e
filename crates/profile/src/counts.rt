//! Counts of a module.
use ir_types::items::Items;

/// How often a function was entered and each of its slots was taken. The slots go over all blocks in text order, and
/// over the slots of each in order.
#[derive(Debug, Drop)]
pub struct FnCounts {
    pub entry: u64,
    pub slots: Items<u64>,
}

/// The counts of each function of a module that has blocks, in text order.
#[derive(Debug, Drop)]
pub struct Profile {
    pub functions: Items<FnCounts>,
}
