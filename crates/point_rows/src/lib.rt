//! The points, the edges, the expressions, the events, the block sets and placements of small modules.
#![tactic(auto)]

#[cfg(test)]
mod cost_rows;
#[cfg(test)]
mod costing;
#[cfg(test)]
mod local;
#[cfg(test)]
mod local_rows;
#[cfg(test)]
mod ordering;
#[cfg(test)]
mod placing;
#[cfg(test)]
mod reached;
#[cfg(test)]
mod seen;
#[cfg(test)]
mod sources;
#[cfg(test)]
mod tests;
