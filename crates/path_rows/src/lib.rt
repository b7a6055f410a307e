//! What is said of all paths, by plain bodies over small functions, beside what the calls tell.
#![tactic(auto)]

#[cfg(test)]
mod blocks;
#[cfg(test)]
mod comparing;
#[cfg(test)]
mod graphs;
#[cfg(test)]
mod inevitability;
#[cfg(test)]
mod meeting;
#[cfg(test)]
mod placing;
#[cfg(test)]
mod reaching;
#[cfg(test)]
mod sources;
#[cfg(test)]
mod tests;
