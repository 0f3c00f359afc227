//! The maps in which names stand, in the order of their binding.
use hash_seed::Seed;

/// A map in the order of its keys' coming, which are hashed by a seed.
pub type IndexMap<K, V> = indexmap::IndexMap<K, V, Seed>;
