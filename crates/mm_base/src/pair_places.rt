//! Pairs that stand once each, beside a map from each to its place.
ghost use Rattle.std.specs.Prelude.{◌≡◌, ◌≤◌, List, [], ◌++◌, Some, None, OnOk, OnErr};
ghost use Rattle.std.specs.HashMap as hash;
ghost use Rattle.std.specs.HashMap.{spare};
ghost use Rattle.elem.specs.declared.elements.Elem.{Elem as Key};
ghost use Rattle.elem.specs.Rows.{first_key};
ghost use Rattle.mm_base.specs.PairRows.{Row, IsLive, IsPut, count_of, has_pair, pairs_of_key, rows_of_pair, without_id, without_pair, without_key};
ghost use Rattle.mm_base.specs.KeyedRows.{HasDistinctPairs};
ghost use Rattle.mm_base.specs.KeyValues.{same_pair};
ghost use Rattle.mm_base.specs.PairPlaces.{FindsPairs};
ghost use Rattle.mm_base.specs.Exchanging.{each_once, IsExchanged};

use crate::FreeFlatPairs;
use crate::key_values::{KeyValue, forget_pair_place, pair_place, write_pair_place};
use elem::{Elem, NoMemory};
use hash_seed::SeededMap;

/// Puts a pair that is not there, last.
pub fn put_pair(
    pairs: &mut FreeFlatPairs,
    places: &mut SeededMap<KeyValue, usize>,
    k: &Elem,
    v: &Elem,
) -> Result<(), NoMemory>
    requires new { first_key (rows_of_pair k.now v.now pairs.old) ≡ None }
    requires found { FindsPairs pairs.old (hash.get same_pair places.old) }
    ensures ok { OnOk result (IsPut None k.now v.now pairs.old pairs.new) }
    ensures err { OnErr result (pairs.new ≡ pairs.old) }
    ensures found { FindsPairs pairs.new (hash.get same_pair places.new) }
{
    if places.reserve(1).is_err() {
        return Err(NoMemory);
    }
    if pairs.link(k, v, None, None).is_err() {
        return Err(NoMemory);
    }
    let place = pairs.last_place().unwrap();
    write_pair_place(places, k, v, place);
    Ok(())
}

/// Removes the pair at a place.
pub fn remove_place(
    pairs: &mut FreeFlatPairs,
    places: &mut SeededMap<KeyValue, usize>,
    place: usize,
)
    requires place { IsLive pairs.old place }
    requires distinct { HasDistinctPairs pairs.old }
    requires found { FindsPairs pairs.old (hash.get same_pair places.old) }
    ensures rows { pairs.new ≡ without_id (Some place) pairs.old }
    ensures found { FindsPairs pairs.new (hash.get same_pair places.new) }
{
    let (key, value) = pairs.pair_at(place);
    pairs.remove_at(place);
    forget_pair_place(places, &key, &value);
}

/// Removes the pair of a key and a value, and tells whether there was one.
pub fn remove_found(
    pairs: &mut FreeFlatPairs,
    places: &mut SeededMap<KeyValue, usize>,
    k: &Elem,
    v: &Elem,
) -> bool
    requires distinct { HasDistinctPairs pairs.old }
    requires found { FindsPairs pairs.old (hash.get same_pair places.old) }
    ensures answer { result ≡ has_pair k.now v.now pairs.old }
    ensures rows { pairs.new ≡ without_pair k.now v.now pairs.old }
    ensures found { FindsPairs pairs.new (hash.get same_pair places.new) }
{
    match pair_place(places, k, v) {
        None => false,
        Some(place) => {
            remove_place(pairs, places, place);
            true
        }
    }
}

/// Removes the first pairs of a key. The map may lack the pairs behind them.
pub fn remove_first_pairs(
    pairs: &mut FreeFlatPairs,
    places: &mut SeededMap<KeyValue, usize>,
    k: &Elem,
    count: usize,
)
    ensures rows { (front back : List Row) → pairs.old ≡ front ++ back → count ≡ count_of k.now front → pairs.new ≡ without_key k.now front ++ back }
    ensures found { (front back : List Row) → pairs.old ≡ front ++ back → count ≡ count_of k.now front → HasDistinctPairs front → FindsPairs front (hash.get same_pair places.old) → FindsPairs (without_key k.now front) (hash.get same_pair places.new) }
    ensures room { spare places.old ≤ spare places.new }
{
    for _step in 0..count {
        if let Some(place) = pairs.place_at(k, 0) {
            let (_key, value) = pairs.pair_at(place);
            pairs.remove_at(place);
            forget_pair_place(places, k, &value);
        }
    }
}

/// Gives the pairs of a key their places in the map, which has those of the rows in front.
pub fn name_pairs(pairs: &FreeFlatPairs, places: &mut SeededMap<KeyValue, usize>, k: &Elem)
    requires { count_of k.now pairs.now ≤ spare places.old }
    ensures { (front added : List Row) → pairs.now ≡ front ++ added → pairs_of_key k.now front ≡ [] → pairs_of_key k.now added ≡ added → HasDistinctPairs pairs.now → FindsPairs front (hash.get same_pair places.old) → FindsPairs pairs.now (hash.get same_pair places.new) }
{
    let count = pairs.count_of(*k);
    let mut at = pairs.place_at(k, 0);
    for _step in 0..count {
        let Some(place) = at else {
            return;
        };
        let (_key, value) = pairs.pair_at(place);
        at = pairs.next_in_key(place);
        write_pair_place(places, k, &value, place);
    }
}

/// Removes the pairs of a key, and puts a pair for each value, last.
pub fn exchange_pairs(
    pairs: &mut FreeFlatPairs,
    places: &mut SeededMap<KeyValue, usize>,
    k: &Elem,
    values: &[Elem],
) -> Result<(), NoMemory>
    requires once { (vs : List Key) × (values.now ≡ each_once vs) }
    requires distinct { HasDistinctPairs pairs.old }
    requires found { FindsPairs pairs.old (hash.get same_pair places.old) }
    ensures ok { OnOk result (IsExchanged k.now values.now pairs.old pairs.new) }
    ensures err { OnErr result (pairs.new ≡ pairs.old) }
    ensures found { FindsPairs pairs.new (hash.get same_pair places.new) }
{
    if places.reserve(values.len()).is_err() {
        return Err(NoMemory);
    }
    let count = pairs.count_of(*k);
    if pairs.append(k, values).is_err() {
        return Err(NoMemory);
    }
    remove_first_pairs(pairs, places, k, count);
    name_pairs(pairs, places, k);
    Ok(())
}

/// Removes the pairs of a key, and tells their number.
pub fn remove_key_pairs(
    pairs: &mut FreeFlatPairs,
    places: &mut SeededMap<KeyValue, usize>,
    k: &Elem,
) -> usize
    requires distinct { HasDistinctPairs pairs.old }
    requires found { FindsPairs pairs.old (hash.get same_pair places.old) }
    ensures answer { result ≡ count_of k.now pairs.old }
    ensures rows { pairs.new ≡ without_key k.now pairs.old }
    ensures found { FindsPairs pairs.new (hash.get same_pair places.new) }
{
    let count = pairs.count_of(*k);
    remove_first_pairs(pairs, places, k, count);
    count
}
