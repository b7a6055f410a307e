//! What placements change in a function, place by place: what its new text is made from.
#![tactic(auto)]

mod lists;

pub use lists::{Action, BlockChanges, Changes};
