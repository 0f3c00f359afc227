ghost use Rattle.std.specs.Prelude.{◌≡◌};
ghost use Rattle.std.specs.Hash.FoldHasher as folding;
ghost use Rattle.hash_seed.specs.Hashing.{started};

use std::hash::{FoldHasher, Hasher};

/// Hashes the bytes of a seed, then what is written, and then the seed once more, by the hasher of the standard maps.
///
/// So what is written is folded into a state that nobody outside knows, and the last fold multiplies that by the seed. It is no
/// cryptographic hash: it keeps keys apart that were chosen without the seed.
#[derive(Clone, Copy)]
pub struct SeededHasher {
    fold: FoldHasher,
    seed: [u8; 16],
}

impl SeededHasher {
    /// The hasher that has taken a seed, and no key.
    pub(crate) fn new(seed: [u8; 16]) -> SeededHasher
        ensures { result ≡ started seed }
    {
        let mut fold = FoldHasher::default();
        fold.write(&seed);
        SeededHasher { fold, seed }
    }
}

impl Hasher for SeededHasher {
    ghost write = { λ h bytes. record h { fold = folding.write h.fold bytes } };

    ghost finish = { λ h. folding.finish (folding.write h.fold h.seed) };

    fn finish(&self) -> u64 {
        let mut last = self.fold;
        last.write(&self.seed);
        last.finish()
    }

    fn write(&mut self, bytes: &[u8]) {
        self.fold.write(bytes);
    }
}
