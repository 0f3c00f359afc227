//! The language of predicates and functions on elements.
//!
//! Contracts see a value as its tree. It is a flat list of at most 64 parts, each name before what stands in its
//! brackets, and takes no memory.
#![tactic(auto)]

mod eval;
mod faults;
mod leaves;
mod lent;
mod names;
mod parts;
mod readers;
mod reading;
mod steps;
#[cfg(test)]
mod tests;
mod values;

pub use faults::FnFault;
pub use leaves::{Map, Test};
pub use lent::{FuncRef, PairPredRef, PredRef};
pub use parts::Part;
pub use readers::{read_func, read_pair_pred, read_pred};
pub use values::{Func, PairPred, Pred};
