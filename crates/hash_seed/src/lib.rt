//! How the hash indexes of the library hash: each by a seed that its maker hands to it.
//!
//! Whoever knows the seed can choose keys whose hashes collide. So a program that takes keys from others draws its seed
//! from the system when it starts, and hands it to all that it makes; where the keys are the program's own, the fixed
//! seed will do. No contract tells seeds apart.
#![tactic(auto)]

mod seed;
mod seeded_hasher;
#[cfg(test)]
mod tests;

pub use seed::{Seed, SeededMap, SeededSet};
pub use seeded_hasher::SeededHasher;
