//! A key and a value as one key of a hash map.
ghost use Rattle.std.specs.Prelude.{◌≡◌, ◌+◌, ◌<◌, ◌≤◌, Some, None, cond};
ghost use Rattle.std.specs.HashMap as hash;
ghost use Rattle.std.specs.HashMap.{spare};
ghost use Rattle.mm_base.specs.declared.key_values.KeyValue.{KeyValue as Pair};
ghost use Rattle.mm_base.specs.KeyValues.{key_value, same_pair};

use elem::Elem;
use hash_seed::SeededMap;
use std::hash::{Hash, Hasher};

/// A key and a value.
#[derive(Clone, Copy)]
pub struct KeyValue {
    pub key: Elem,
    pub value: Elem,
}

impl PartialEq for KeyValue {
    ghost use Rattle.std.specs.Cmp.{partial_equiv_from_equiv};
    ghost use Rattle.mm_base.specs.KeyValues.{same_pair, same_pair_equiv};

    ghost eq = { same_pair };

    ghost laws = { partial_equiv_from_equiv same_pair_equiv };

    #[tactic(auto, unfolding(crate::specs::KeyValues::same_pair))]
    fn eq(&self, other: &KeyValue) -> bool {
        self.key == other.key && self.value == other.value
    }
}

impl Eq for KeyValue {
    ghost use Rattle.mm_base.specs.KeyValues.{same_pair_equiv};

    ghost laws = { same_pair_equiv };
}

impl Hash for KeyValue {
    ghost use Rattle.mm_base.specs.KeyValues.{pair_hashed, pair_hashed-same};

    ghost hash_input = { pair_hashed };

    ghost respects_eq = { pair_hashed-same };

    fn hash<H: Hasher>(&self, state: &mut H) {
        self.key.hash(state);
        self.value.hash(state);
    }
}

/// The place of a key and a value, where they have one.
pub fn pair_place(places: &SeededMap<KeyValue, usize>, k: &Elem, v: &Elem) -> Option<usize>
    ensures { result ≡ hash.get same_pair places.now (key_value k.now v.now) }
{
    let pair = KeyValue { key: *k, value: *v };
    places.get(&pair).copied()
}

/// Gives a key and a value a place, for which there is room.
pub fn write_pair_place(places: &mut SeededMap<KeyValue, usize>, k: &Elem, v: &Elem, place: usize)
    requires { 0 < spare places.old }
    ensures updates { (q : Pair) → hash.get same_pair places.new q ≡ cond (same_pair (key_value k.now v.now) q) (Some place) (hash.get same_pair places.old q) }
    ensures spare { spare places.old ≤ spare places.new + 1 }
{
    let pair = KeyValue { key: *k, value: *v };
    let _before = places.insert(pair, place);
}

/// Takes the place of a key and a value away.
pub fn forget_pair_place(places: &mut SeededMap<KeyValue, usize>, k: &Elem, v: &Elem)
    ensures updates { (q : Pair) → hash.get same_pair places.new q ≡ cond (same_pair (key_value k.now v.now) q) None (hash.get same_pair places.old q) }
    ensures spare { spare places.old ≤ spare places.new }
{
    let pair = KeyValue { key: *k, value: *v };
    let _place = places.remove(&pair);
}
