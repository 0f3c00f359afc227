//! Guava's bimap as a list of pairs: no key and no value stands twice, and each pair is found from either side. The
//! order is that of the first coming, and a pair that takes the place of another stands where that stood.
#![tactic(auto)]

mod bi_fault;
mod key_index;
mod pair_rows;
mod puts;
#[cfg(test)]
mod tests;

pub use bi_fault::BiFault;
pub use pair_rows::PairRows;
