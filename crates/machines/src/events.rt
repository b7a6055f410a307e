//! What a step comes to.

use mc_num::Trap;

/// What one step of a machine of frames came to. Functions, blocks and slots are numbered from 0.
#[derive(Clone, Copy, Debug, PartialEq, Eq)]
pub enum Event {
    /// The frame that runs went on in its block, or came back to the one below it.
    Went,
    /// It left a block through a slot: the function, its block and the block's slot.
    Took(u32, u32, u32),
    /// It called the defined function of this number.
    Entered(u32),
    /// It called `getchar`, and waits for the byte.
    Wants,
    /// It called `putchar`, which shows this byte.
    Shows(u8),
    /// The last frame returned this value, or none.
    Returned(Option<u64>),
    /// It trapped.
    Trapped(Trap),
}
