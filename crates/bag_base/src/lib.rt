//! Bags: elements with counts, as Guava's `LinkedHashMultiset` and `TreeMultiset`. The order of the elements is that in
//! which they came or an order of the elements, and equal ones stand together.
//!
//! Contracts see a bag as the list of its distinct elements, each with its count from 1 to 2147483647. The rows of the
//! collection are the occurrences: each element as often as its count says.
#![tactic(auto)]

mod bag;
mod bag_fault;
mod count_rows;
mod row_kinds;

pub use bag::{Bag, LinkedBag, TreeBag};
pub use bag_fault::BagFault;
pub use count_rows::CountRows;

#[cfg(test)]
mod tests;
