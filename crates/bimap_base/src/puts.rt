//! Pairs put from either side. Room comes first, so that nothing is changed where there is none.
ghost use Rattle.std.specs.Prelude.{◌≡◌, ◌≢◌, ◌<◌, Some, IfOk, OnOk, OnErr};
ghost use Rattle.std.specs.HashMap.{spare};
ghost use Rattle.std.specs.HashMap as hash;
ghost use Rattle.elem.specs.declared.elements.Elem.{Elem as Element};
ghost use Rattle.elem.specs.Elements.{same};
ghost use Rattle.elem.specs.Keyed.{value_at, IsPresent, IsAbsent, HasDistinctKeys};
ghost use Rattle.bimap_base.specs.Pairs.{turned, key_of, freed, with_pair};
ghost use Rattle.bimap_base.specs.PairRows.{IsTurned, without_some, in_place_of};

use crate::key_index::{key_of, take_key, write_key};
use elem::{Elem, NoMemory};
use hash_seed::SeededMap;
use linked_base::FreeLinkedMap;

/// Puts a pair that is not there, and takes the value from another key that has it. The answer is the value before.
pub fn put_pair(
    rows: &mut FreeLinkedMap<Elem>,
    keys: &mut SeededMap<Elem, Elem>,
    k: &Elem,
    v: &Elem,
) -> Result<Option<Elem>, NoMemory>
    requires turned { IsTurned rows.old (hash.get same keys.old) }
    requires new { value_at rows.old k.now ≢ Some v.now }
    ensures answer { IfOk result (λ before. before ≡ value_at rows.old k.now) }
    ensures rows { OnOk result (rows.new ≡ with_pair (freed rows.old k.now v.now) k.now v.now) }
    ensures err { OnErr result (rows.new ≡ rows.old) }
    ensures turned { IsTurned rows.new (hash.get same keys.new) }
{
    if keys.reserve(1).is_err() {
        return Err(NoMemory);
    }
    let before = rows.probe(*k);
    if before.is_some() {
        put_over(rows, keys, k, v);
    } else {
        put_new(rows, keys, k, v)?;
    }
    Ok(before)
}

/// Puts a pair from the side of its value, and takes the key from another value that has it. The answer is the key
/// before.
pub fn flip_put_pair(
    rows: &mut FreeLinkedMap<Elem>,
    keys: &mut SeededMap<Elem, Elem>,
    v: &Elem,
    k: &Elem,
) -> Result<Option<Elem>, NoMemory>
    requires turned { IsTurned rows.old (hash.get same keys.old) }
    requires new { value_at rows.old k.now ≢ Some v.now }
    ensures answer { IfOk result (λ before. before ≡ key_of rows.old v.now) }
    ensures rows { OnOk result (turned rows.new ≡ with_pair (freed (turned rows.old) v.now k.now) v.now k.now) }
    ensures err { OnErr result (rows.new ≡ rows.old) }
    ensures turned { IsTurned rows.new (hash.get same keys.new) }
{
    if keys.reserve(1).is_err() {
        return Err(NoMemory);
    }
    let before = key_of(keys, v);
    if rows.probe(*k).is_some() {
        flip_over(rows, keys, v, k);
    } else {
        flip_new(rows, keys, v, k)?;
    }
    Ok(before)
}

/// Puts a pair in the place of the one with its key.
fn put_over(rows: &mut FreeLinkedMap<Elem>, keys: &mut SeededMap<Elem, Elem>, k: &Elem, v: &Elem)
    requires turned { IsTurned rows.old (hash.get same keys.old) }
    requires key { IsPresent rows.old k.now }
    requires new { value_at rows.old k.now ≢ Some v.now }
    requires room { 0 < spare keys.old }
    ensures rows { rows.new ≡ with_pair (freed rows.old k.now v.now) k.now v.now }
    ensures turned { IsTurned rows.new (hash.get same keys.new) }
{
    let _len = rows.len();
    let_go(rows, keys, v);
    let old = rows.replace(*k, *v);
    take_key(keys, &old);
    write_key(keys, v, k);
}

/// Puts a pair of a new key last.
fn put_new(
    rows: &mut FreeLinkedMap<Elem>,
    keys: &mut SeededMap<Elem, Elem>,
    k: &Elem,
    v: &Elem,
) -> Result<(), NoMemory>
    requires turned { IsTurned rows.old (hash.get same keys.old) }
    requires key { IsAbsent rows.old k.now }
    requires room { 0 < spare keys.old }
    ensures rows { OnOk result (rows.new ≡ with_pair (freed rows.old k.now v.now) k.now v.now) }
    ensures err { OnErr result (rows.new ≡ rows.old) }
    ensures turned { IsTurned rows.new (hash.get same keys.new) }
{
    let _len = rows.len();
    rows.insert(*k, *v)?;
    let_go(rows, keys, v);
    write_key(keys, v, k);
    Ok(())
}

/// Gives a key that is there another value, in the place of the pair with that value, else last.
fn flip_over(rows: &mut FreeLinkedMap<Elem>, keys: &mut SeededMap<Elem, Elem>, v: &Elem, k: &Elem)
    requires turned { IsTurned rows.old (hash.get same keys.old) }
    requires key { IsPresent rows.old k.now }
    requires new { value_at rows.old k.now ≢ Some v.now }
    requires room { 0 < spare keys.old }
    ensures rows { turned rows.new ≡ with_pair (freed (turned rows.old) v.now k.now) v.now k.now }
    ensures turned { IsTurned rows.new (hash.get same keys.new) }
{
    let _len = rows.len();
    let before = key_of(keys, v);
    let old = rows.replace(*k, *v);
    rows.move_before(*k, before);
    let_go(rows, keys, v);
    take_key(keys, &old);
    write_key(keys, v, k);
}

/// Puts a pair of a new key in the place of the one with its value, else last.
fn flip_new(
    rows: &mut FreeLinkedMap<Elem>,
    keys: &mut SeededMap<Elem, Elem>,
    v: &Elem,
    k: &Elem,
) -> Result<(), NoMemory>
    requires turned { IsTurned rows.old (hash.get same keys.old) }
    requires key { IsAbsent rows.old k.now }
    requires room { 0 < spare keys.old }
    ensures rows { OnOk result (turned rows.new ≡ with_pair (freed (turned rows.old) v.now k.now) v.now k.now) }
    ensures err { OnErr result (rows.new ≡ rows.old) }
    ensures turned { IsTurned rows.new (hash.get same keys.new) }
{
    let _len = rows.len();
    put_in_place(rows, &key_of(keys, v), k, v)?;
    write_key(keys, v, k);
    Ok(())
}

/// Puts a row of a new key in the place of that of `old`, or last where there is no `old`.
fn put_in_place(
    rows: &mut FreeLinkedMap<Elem>,
    old: &Option<Elem>,
    k: &Elem,
    v: &Elem,
) -> Result<(), NoMemory>
    requires old { (x : Element) → old.now ≡ Some x → IsPresent rows.old x }
    requires key { IsAbsent rows.old k.now }
    ensures ok { OnOk result (rows.new ≡ in_place_of rows.old old.now (k.now, v.now)) }
    ensures err { OnErr result (rows.new ≡ rows.old) }
{
    match old {
        None => rows.insert(*k, *v),
        Some(key) => rows.rekey(*key, *k, *v),
    }
}

/// Takes out the row of the key that the index gives to a value.
pub fn let_go(rows: &mut FreeLinkedMap<Elem>, keys: &SeededMap<Elem, Elem>, v: &Elem)
    ensures rows { rows.new ≡ without_some (hash.get same keys.now v.now) rows.old }
    ensures distinct { HasDistinctKeys rows.new }
{
    if let Some(key) = key_of(keys, v) {
        rows.remove(key);
    }
    let _len = rows.len();
}
