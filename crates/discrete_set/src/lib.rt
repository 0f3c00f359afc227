//! Sets of whole numbers that never change, made from the ranges of a range set: Guava's `ContiguousSet` and the set that
//! its `ImmutableRangeSet.asSet` gives over the domain of longs. The members go in rising order.
//!
//! Contracts see a set as its maximal runs of consecutive members, and a number as its rank among those of 64 bits.
#![tactic(auto)]

mod discrete_rows;
mod joined;
mod laws;
mod look_ups;
mod merged;
mod numbers;
mod ranges;
mod run;

pub use discrete_rows::DiscreteRows;
pub use laws::canonical_law;

#[cfg(test)]
mod tests;
