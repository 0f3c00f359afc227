//! The keys of a bimap by their values.
ghost use Rattle.std.specs.Prelude.{◌≡◌, ◌<◌, ◌≤◌, Some, None, cond};
ghost use Rattle.std.specs.HashMap.{spare};
ghost use Rattle.std.specs.HashMap as hash;
ghost use Rattle.elem.specs.declared.elements.Elem.{Elem as Element};
ghost use Rattle.elem.specs.Elements.{same};

use elem::Elem;
use hash_seed::SeededMap;

/// The key that has a value.
pub fn key_of(keys: &SeededMap<Elem, Elem>, v: &Elem) -> Option<Elem>
    ensures { result ≡ hash.get same keys.now v.now }
{
    keys.get(v).copied()
}

/// Gives a value its key, for which there is room.
pub fn write_key(keys: &mut SeededMap<Elem, Elem>, v: &Elem, k: &Elem)
    requires { 0 < spare keys.old }
    ensures { (q : Element) → hash.get same keys.new q ≡ cond (same v.now q) (Some k.now) (hash.get same keys.old q) }
{
    let _before = keys.insert(*v, *k);
}

/// Takes a value out, and tells its key.
pub fn take_key(keys: &mut SeededMap<Elem, Elem>, v: &Elem) -> Option<Elem>
    ensures key { result ≡ hash.get same keys.old v.now }
    ensures keys { (q : Element) → hash.get same keys.new q ≡ cond (same v.now q) None (hash.get same keys.old q) }
    ensures spare { spare keys.old ≤ spare keys.new }
{
    keys.remove(v)
}
