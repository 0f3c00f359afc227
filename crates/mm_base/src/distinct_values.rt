//! Values, each once.
ghost use Rattle.std.specs.Prelude.{◌≡◌, IfOk};
ghost use Rattle.mm_base.specs.Exchanging.{each_once};

use crate::linked_keys::add_key;
use elem::{Elem, NoMemory};
use hash_seed::Seed;
use linked_base::FreeLinkedMap;
use std::alloc::Global;

/// The values in order, each once, found again by a seed.
pub fn distinct_values(alloc: Global, seed: Seed, vs: &[Elem]) -> Result<Vec<Elem>, NoMemory>
    ensures { IfOk result (λ values. values.items ≡ each_once vs.now) }
{
    let mut seen = FreeLinkedMap::with_hasher(alloc, seed);
    let mut values = Vec::new(alloc);
    for (_n, v) in vs.iter().enumerate() {
        let added = add_key(&mut seen, v)?;
        if added && values.push(*v).is_err() {
            return Err(NoMemory);
        }
    }
    Ok(values)
}
