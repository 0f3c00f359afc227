//! Hashes under seeds, and tables that find their keys by them.
use crate::{Seed, SeededMap, SeededSet};
use std::alloc::{AllocError, Global};
use std::hash::BuildHasher;
use std::test::Fail;

/// The squares of 0 to 99 as a map, and whether it has that of 12.
fn squares(alloc: Global, seed: Seed) -> Result<(usize, bool), AllocError> {
    let mut map: SeededMap<u64, u64> = SeededMap::with_hasher(alloc, seed);
    let mut set: SeededSet<u64> = SeededSet::with_hasher(alloc, seed);
    for i in 0..100u64 {
        if map.insert(i, i * i).is_err() {
            return Err(AllocError);
        }
        if set.insert(i * i).is_err() {
            return Err(AllocError);
        }
    }
    Ok((map.len(), map.get(&12) == Some(&144) && set.contains(&144)))
}

#[test]
fn a_number_has_the_hash_of_its_seed(rt: HostRuntime) -> Result<(), Fail> {
    let counted = [0, 1, 2, 3, 4, 5, 6, 7, 8, 9, 10, 11, 12, 13, 14, 15];
    assert_eq!(rt; Seed::fixed().hash_one(1u64), 0xc082_62f9_a0f5_e45e);
    assert_eq!(rt; Seed::of(counted).hash_one(1u64), 0x496c_0940_3eaa_f9a1);
    Ok(())
}

#[test]
fn keys_are_found_again_under_each_seed(rt: HostRuntime) -> Result<(), Fail> {
    let drawn = Seed::drawn(&rt).ok().ok_or("random bytes")?;
    for seed in [Seed::fixed(), drawn] {
        assert_eq!(rt; squares(rt.alloc(), seed).ok(), Some((100, true)));
    }
    Ok(())
}
