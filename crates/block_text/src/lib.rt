//! The new text of a block: groups, copies and stores, place by place.
#![tactic(auto)]

mod copies;
mod grouping;
mod source;
mod text;

pub use text::{NewText, groups, new_text};
