//! Flows and cuts of small networks, compared with all their sides.
#![tactic(auto)]

#[cfg(test)]
mod sides;
#[cfg(test)]
mod tests;
