//! Builders of collections that never change afterwards, as Guava's `ImmutableList.Builder` and its fellows. A builder
//! keeps the items in the order of their adding, and only `finish` says what they make.
//!
//! Contracts see a builder as its kind and the list of its items.
#![tactic(auto)]

mod build_fault;
mod builder;
mod counted;
mod finish;
mod firsts;
mod grouped;
mod meets;
mod part;
mod ranges;
mod row;

pub use build_fault::BuildFault;
pub use builder::Builder;
pub use finish::Finish;
pub use row::Row;

#[cfg(test)]
mod tests;
