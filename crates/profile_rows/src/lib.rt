//! Rows of profiles, and of the slots that they count.
#![tactic(auto)]

#[cfg(test)]
mod rows;
#[cfg(test)]
mod slots;
