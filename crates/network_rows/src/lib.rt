//! The block networks of expressions of small functions, and the parts of them that are needed.
#![tactic(auto)]

#[cfg(test)]
mod networks;
#[cfg(test)]
mod sources;
#[cfg(test)]
mod tests;
