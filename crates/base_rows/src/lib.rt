//! Operations, lists, the outside in memory, the steps of a machine and prefixes of names, by example.
#![tactic(auto)]

#[cfg(test)]
mod copies;
#[cfg(test)]
mod outside;
#[cfg(test)]
mod prefixes;
#[cfg(test)]
mod steps;
#[cfg(test)]
mod values;
