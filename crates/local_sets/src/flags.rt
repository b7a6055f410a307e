//! Flags for the ends of blocks.

/// Where an expression is available and where it is wanted: a flag for the head and then one for the terminator of each
/// reached block, in order.
#[derive(Debug, Drop)]
pub struct Reach {
    /// Every path from Start has an occurrence after the last kill, or an occurrence and no kill.
    pub available: Vec<bool>,
    /// Some path from there meets an occurrence before a kill.
    pub wanted: Vec<bool>,
}
