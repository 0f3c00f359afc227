//! The keys of linked pairs, in an order of their own.
ghost use Rattle.std.specs.Prelude.{◌≡◌, cond, not, IfOk, OnErr};
ghost use Rattle.std.specs.Map.{keys_of};
ghost use Rattle.elem.specs.Keyed.{without, HasDistinctKeys};
ghost use Rattle.mm_base.specs.KeyedRows.{contains, has_key, with_key};

use crate::FreeFlatPairs;
use elem::{Elem, NoMemory};
use linked_base::FreeLinkedMap;

/// Sees to it that a key is there, last where it is new, and tells whether it is new.
pub fn add_key(keys: &mut FreeLinkedMap<()>, k: &Elem) -> Result<bool, NoMemory>
    ensures answer { IfOk result (λ added. added ≡ not (contains k.now (keys_of keys.old))) }
    ensures keys { IfOk result (λ _. keys_of keys.new ≡ with_key k.now (keys_of keys.old)) }
    ensures back { IfOk result (λ added. cond added (without keys.new k.now) keys.new ≡ keys.old) }
    ensures distinct { IfOk result (λ _. HasDistinctKeys keys.new) }
    ensures err { OnErr result (keys.new ≡ keys.old) }
{
    let added = keys.probe(*k).is_none();
    if added {
        keys.insert(*k, ())?;
    }
    let _len = keys.len();
    Ok(added)
}

/// Takes a key out, where it has no pair left.
pub fn settle_key(pairs: &FreeFlatPairs, keys: &mut FreeLinkedMap<()>, k: &Elem)
    ensures rows { keys.new ≡ cond (has_key pairs.now k.now) keys.old (without keys.old k.now) }
    ensures distinct { HasDistinctKeys keys.new }
{
    if pairs.place_at(k, 0).is_none() {
        keys.remove(*k);
    }
    let _len = keys.len();
}
