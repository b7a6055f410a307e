//! Rows of the reader's crates: tokens, phrases, rules and whole texts.
#![tactic(auto)]

#[cfg(test)]
mod names;
#[cfg(test)]
mod phrases;
#[cfg(test)]
mod rules;
#[cfg(test)]
mod texts;
#[cfg(test)]
mod tokens;
