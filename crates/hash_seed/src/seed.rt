ghost use Rattle.std.specs.Prelude.{◌≡◌, replicate};
ghost use Rattle.hash_seed.specs.Hashing.{seed_of};

use crate::SeededHasher;
use std::collections::{HashMap, HashSet};
use std::hash::BuildHasher;
use std::io;
use std::random::RandomSource;

/// What a hash index hashes by, in the place of Rust's `RandomState`.
#[derive(Clone, Copy)]
pub struct Seed {
    start: SeededHasher,
}

/// A map that finds its keys by hashes that stand on a seed.
pub type SeededMap<K, V> = HashMap<K, V, Seed>;

/// A set that finds its members by hashes that stand on a seed.
pub type SeededSet<K> = HashSet<K, Seed>;

impl Seed {
    /// The seed that is the same in each run, for keys that nobody chooses to hurt.
    pub fn fixed() -> Seed
        ensures { result ≡ seed_of (replicate 16 0) }
    {
        Seed::of([0; 16])
    }

    /// A seed that nobody knows, drawn from the system. It fails where the system gives no random bytes.
    pub fn drawn(rt: &impl RandomSource) -> io::Result<Seed> {
        let mut bytes = [0; 16];
        rt.fill_bytes(&mut bytes)?;
        Ok(Seed::of(bytes))
    }

    /// The seed of so many bytes.
    pub fn of(bytes: [u8; 16]) -> Seed
        ensures { result ≡ seed_of bytes }
    {
        Seed {
            start: SeededHasher::new(bytes),
        }
    }
}

impl BuildHasher for Seed {
    type Hasher = SeededHasher;

    ghost build_hasher = { λ seed. seed.start };

    fn build_hasher(&self) -> SeededHasher {
        self.start
    }
}
