ghost use Rattle.std.specs.Prelude.{◌≡◌, ◌⊎◌, cond, is_some, List, [], ◌∷◌, ◌++◌, length, slice_get, None, Some, OnOk, OnErr, IfOk, IfSome};
ghost use Rattle.std.specs.Option.{option_map};
ghost use Rattle.elem.specs.declared.elements.Elem.{Elem as Key};
ghost use Rattle.elem.specs.Elements.{same};
ghost use Rattle.elem.specs.Rows.{first_key, last_key, key_after, key_before, set_row};
ghost use Rattle.elem.specs.Keyed.{value_at, IsPresent, IsAbsent, HasDistinctKeys, with_value, without};
ghost use Rattle.linked_base.specs.Moving.{put_before};

use crate::links::Ends;
use crate::row_nodes::{
    AllRows, Node, key_at, new_node, place_of, row_at_place, take_place, write_place, write_row,
};
use crate::thread::{link_before, nth, unlink};
use elem::{Elem, NoMemory};
use hash_seed::{Seed, SeededMap};
use slab::Slab;
use std::alloc::Global;
use std::marker::Model;

/// Rows of a key and a value with distinct keys, a new key last, as `java.util`'s `LinkedHashMap`. Its calls are not
/// counted.
#[derive(Drop)]
pub struct FreeLinkedMap<V: Copy> {
    nodes: Slab<Node<V>>,
    index: SeededMap<Elem, usize>,
    ends: Ends,
}

impl<V: Copy> Model for FreeLinkedMap<V> {
    ghost use Rattle.std.specs.Prelude.{List};
    ghost use Rattle.elem.specs.declared.elements.Elem.{Elem as Key};

    ghost Value = { List (Key × V) };

    ghost use Rattle.std.specs.HashMap.{hash_map_len};
    ghost use Rattle.linked_base.specs.LinkedMap.{rows_now, places, IsRowsOf};

    ghost view = { λ m. rows_now m.nodes m.ends m.index };

    ghost invariant = { λ m. IsRowsOf m.nodes m.ends m.index (places m.nodes m.ends (hash_map_len m.index)) };
}

impl<V: Copy> FreeLinkedMap<V> {
    /// A map with no rows, under the fixed seed.
    pub fn new(alloc: Global) -> FreeLinkedMap<V>
        ensures { result ≡ [] }
    {
        FreeLinkedMap::with_hasher(alloc, Seed::fixed())
    }

    /// A map with no rows, whose keys are hashed by a seed.
    pub fn with_hasher(alloc: Global, seed: Seed) -> FreeLinkedMap<V>
        ensures { result ≡ [] }
    {
        FreeLinkedMap {
            nodes: Slab::new(alloc),
            index: SeededMap::with_hasher(alloc, seed),
            ends: Ends {
                first: None,
                last: None,
            },
        }
    }

    /// The number of rows.
    pub fn len(&self) -> usize
        ensures len { result ≡ length self.now }
        ensures distinct { HasDistinctKeys self.now }
    {
        self.index.len()
    }

    /// The value of a key.
    pub fn probe(&self, k: Elem) -> Option<V>
        ensures { result ≡ value_at self.now k }
    {
        let place = *self.index.get(&k)?;
        Some(self.nodes[place].value)
    }

    /// The key of the first row.
    pub fn first(&self) -> Option<Elem>
        ensures { result ≡ first_key self.now }
    {
        key_at(&self.nodes, self.ends.first)
    }

    /// The key of the last row.
    pub fn last(&self) -> Option<Elem>
        ensures { result ≡ last_key self.now }
    {
        key_at(&self.nodes, self.ends.last)
    }

    /// Row number `i`, counted from 0.
    pub fn row_at(&self, i: usize) -> Option<(Elem, V)>
        ensures { result ≡ slice_get self.now i }
    {
        let place = nth::<AllRows, Node<V>>(&self.nodes, &self.ends, i)?;
        let node = &self.nodes[place];
        Some((node.key, node.value))
    }

    /// The key after `k`.
    pub fn after(&self, k: Elem) -> Option<Elem>
        requires { IsPresent self.now k }
        ensures { result ≡ key_after (same k) self.now }
    {
        let place = self.index[&k];
        key_at(&self.nodes, self.nodes[place].links.next)
    }

    /// The key before `k`.
    pub fn before(&self, k: Elem) -> Option<Elem>
        requires { IsPresent self.now k }
        ensures { result ≡ key_before (same k) self.now }
    {
        let place = self.index[&k];
        key_at(&self.nodes, self.nodes[place].links.previous)
    }

    /// The first row.
    pub fn first_row(&self) -> Option<(Elem, V)>
        ensures key { option_map (λ row. row.0) result ≡ first_key self.now }
        ensures value { IfSome result (λ row. value_at self.now row.0 ≡ Some row.1) }
    {
        row_at_place(&self.nodes, self.ends.first)
    }

    /// The last row.
    pub fn last_row(&self) -> Option<(Elem, V)>
        ensures key { option_map (λ row. row.0) result ≡ last_key self.now }
        ensures value { IfSome result (λ row. value_at self.now row.0 ≡ Some row.1) }
    {
        row_at_place(&self.nodes, self.ends.last)
    }

    /// The row after that of `k`.
    pub fn row_after(&self, k: Elem) -> Option<(Elem, V)>
        requires { IsPresent self.now k }
        ensures key { option_map (λ row. row.0) result ≡ key_after (same k) self.now }
        ensures value { IfSome result (λ row. value_at self.now row.0 ≡ Some row.1) }
    {
        let place = self.index[&k];
        row_at_place(&self.nodes, self.nodes[place].links.next)
    }

    /// The row before that of `k`.
    pub fn row_before(&self, k: Elem) -> Option<(Elem, V)>
        requires { IsPresent self.now k }
        ensures key { option_map (λ row. row.0) result ≡ key_before (same k) self.now }
        ensures value { IfSome result (λ row. value_at self.now row.0 ≡ Some row.1) }
    {
        let place = self.index[&k];
        row_at_place(&self.nodes, self.nodes[place].links.previous)
    }

    /// Adds a row, last.
    pub fn insert(&mut self, k: Elem, v: V) -> Result<(), NoMemory>
        requires { IsAbsent self.old k }
        ensures ok { OnOk result (self.new ≡ self.old ++ (k, v) ∷ []) }
        ensures err { OnErr result (self.new ≡ self.old) }
    {
        if self.nodes.reserve(1).is_err() {
            return Err(NoMemory);
        }
        if self.index.reserve(1).is_err() {
            return Err(NoMemory);
        }
        let node = new_node(&k, v);
        let place = self.nodes.insert_reserved(node);
        link_before::<AllRows, Node<V>>(&mut self.nodes, &mut self.ends, place, None);
        write_place(&mut self.index, &k, place);
        Ok(())
    }

    /// Gives a key another value, and tells the one before. The row keeps its place.
    pub fn replace(&mut self, k: Elem, v: V) -> V
        requires { IsPresent self.old k }
        ensures value { value_at self.old k ≡ Some result }
        ensures rows { self.new ≡ with_value self.old k v }
    {
        let place = self.index[&k];
        let before = self.nodes[place].value;
        write_row(&mut self.nodes, place, &k, v);
        before
    }

    /// Gives a key a value, in the place of its row or in a new row, last. It tells the value before, and takes memory
    /// only for a new key.
    pub fn put(&mut self, k: Elem, v: V) -> Result<Option<V>, NoMemory>
        ensures before { IfOk result (λ before. before ≡ value_at self.old k) }
        ensures rows { OnOk result (self.new ≡ cond (is_some (value_at self.old k)) (with_value self.old k v) (self.old ++ (k, v) ∷ [])) }
        ensures err { OnErr result (self.new ≡ self.old) }
        ensures memory { OnErr result (value_at self.old k ≡ None) }
    {
        let Some(found) = place_of(&self.index, &Some(k)) else {
            self.insert(k, v)?;
            return Ok(None);
        };
        let before = self.nodes[found].value;
        write_row(&mut self.nodes, found, &k, v);
        Ok(Some(before))
    }

    /// Removes the row of a key, and tells its value.
    pub fn remove(&mut self, k: Elem) -> Option<V>
        ensures value { result ≡ value_at self.old k }
        ensures rows { self.new ≡ without self.old k }
    {
        let place = take_place(&mut self.index, &k)?;
        unlink::<AllRows, Node<V>>(&mut self.nodes, &mut self.ends, place);
        let node = self.nodes.remove(place);
        Some(node.value)
    }

    /// Puts the row of `new` and `v` in the place of the row of `old`.
    pub fn rekey(&mut self, old: Elem, new: Elem, v: V) -> Result<(), NoMemory>
        requires old { IsPresent self.old old }
        requires new { IsAbsent self.old new ⊎ (new ≡ old) }
        ensures ok { OnOk result (self.new ≡ set_row (same old) self.old (new, v)) }
        ensures err { OnErr result (self.new ≡ self.old) }
    {
        if self.index.reserve(1).is_err() {
            return Err(NoMemory);
        }
        let place = take_place(&mut self.index, &old).unwrap();
        write_place(&mut self.index, &new, place);
        write_row(&mut self.nodes, place, &new, v);
        Ok(())
    }

    /// Moves the row of `k` before the row of `next`, or last where there is no `next`.
    pub fn move_before(&mut self, k: Elem, next: Option<Elem>)
        requires key { IsPresent self.old k }
        requires next { (x : Key) → next ≡ Some x → IsPresent (without self.old k) x }
        ensures { (v : V) → value_at self.old k ≡ Some v → self.new ≡ put_before next (k, v) (without self.old k) }
    {
        let next_place = place_of(&self.index, &next);
        let place = self.index[&k];
        unlink::<AllRows, Node<V>>(&mut self.nodes, &mut self.ends, place);
        link_before::<AllRows, Node<V>>(&mut self.nodes, &mut self.ends, place, next_place);
    }

    /// Puts the row of a key last, and tells its value. It takes no memory.
    pub fn to_end(&mut self, k: Elem) -> V
        requires { IsPresent self.old k }
        ensures value { value_at self.old k ≡ Some result }
        ensures rows { self.new ≡ without self.old k ++ (k, result) ∷ [] }
    {
        let place = self.index[&k];
        let value = self.nodes[place].value;
        unlink::<AllRows, Node<V>>(&mut self.nodes, &mut self.ends, place);
        let next = None;
        link_before::<AllRows, Node<V>>(&mut self.nodes, &mut self.ends, place, next);
        value
    }

    /// Removes every row, and gives the memory back.
    pub fn clear(&mut self)
        ensures { self.new ≡ [] }
    {
        self.nodes.clear();
        self.nodes.shrink_to_fit();
        self.index.clear();
        self.index.shrink_to_fit();
        self.ends = Ends {
            first: None,
            last: None,
        };
    }
}
