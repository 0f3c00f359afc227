//! The nodes of a linked map's rows, and the index from a key to the place of its node.
ghost use Rattle.std.specs.Prelude.{◌≡◌, refl, ℕ, ◌+◌, ◌<◌, ◌≤◌, Some, None, cond, IsSome, OnSome, IfNone};
ghost use Rattle.std.specs.Option.{option_and_then};
ghost use Rattle.std.specs.HashMap.{hash_map_len, spare, IsUnchanged};
ghost use Rattle.std.specs.HashMap as hash;
ghost use Rattle.slab.specs.Slab.{ContainsKey};
ghost use Rattle.elem.specs.declared.elements.Elem.{Elem as Key};
ghost use Rattle.elem.specs.Elements.{same};
ghost use Rattle.linked_base.specs.Thread.{Rewrites};
ghost use Rattle.linked_base.specs.LinkedMap.{key_of, row_at};

use crate::links::{Links, Threaded};
use elem::Elem;
use hash_seed::SeededMap;
use slab::Slab;

/// The thread through all rows.
pub struct AllRows;

/// A row and its place in the thread.
#[derive(Clone, Copy)]
pub struct Node<V: Copy> {
    pub key: Elem,
    pub value: V,
    pub links: Links,
}

impl<V: Copy> Threaded<AllRows> for Node<V> {
    ghost links = { λ n. n.links };

    ghost with_links = { λ n l. record n { links = l } };

    ghost links_back = { λ n. refl };

    ghost links_of_set = { λ n l. refl };

    ghost set_twice = { λ n l m. refl };

    fn links(&self) -> Links {
        self.links
    }

    fn set_links(&mut self, to: Links) {
        self.links = to;
    }
}

/// A node that is in no thread.
pub fn new_node<V: Copy>(k: &Elem, v: V) -> Node<V>
    ensures { result ≡ record { key = k.now; value = v; links = record { previous = None; next = None } } }
{
    Node {
        key: *k,
        value: v,
        links: Links {
            previous: None,
            next: None,
        },
    }
}

/// The key of the node at a place.
pub fn key_at<V: Copy>(nodes: &Slab<Node<V>>, place: Option<usize>) -> Option<Elem>
    requires { (p : ℕ) → place ≡ Some p → ContainsKey nodes.now p }
    ensures { result ≡ key_of nodes.now place }
{
    match place {
        None => None,
        Some(place) => Some(nodes[place].key),
    }
}

/// The row of the node at a place.
pub fn row_at_place<V: Copy>(nodes: &Slab<Node<V>>, place: Option<usize>) -> Option<(Elem, V)>
    requires { (p : ℕ) → place ≡ Some p → ContainsKey nodes.now p }
    ensures { result ≡ option_and_then (row_at nodes.now) place }
{
    match place {
        None => None,
        Some(place) => {
            let node = &nodes[place];
            Some((node.key, node.value))
        }
    }
}

/// Writes the row of the node at `place`, and leaves its links.
pub fn write_row<V: Copy>(nodes: &mut Slab<Node<V>>, place: usize, k: &Elem, v: V)
    ensures { Rewrites (λ n. record n { key = k.now; value = v }) (Some place) nodes.old nodes.new }
{
    if let Some(node) = nodes.get_mut(place) {
        node.key = *k;
        node.value = v;
    }
}

/// Gives a key a place, for which there is room.
pub fn write_place(index: &mut SeededMap<Elem, usize>, k: &Elem, place: usize)
    requires { 0 < spare index.old }
    ensures updates { (q : Key) → hash.get same index.new q ≡ cond (same k.now q) (Some place) (hash.get same index.old q) }
    ensures len { hash.get same index.old k.now ≡ None → hash_map_len index.new ≡ hash_map_len index.old + 1 }
{
    let _before = index.insert(*k, place);
}

/// Takes a key's place out of the index.
pub fn take_place(index: &mut SeededMap<Elem, usize>, k: &Elem) -> Option<usize>
    ensures place { result ≡ hash.get same index.old k.now }
    ensures updates { (q : Key) → hash.get same index.new q ≡ cond (same k.now q) None (hash.get same index.old q) }
    ensures len { OnSome result (hash_map_len index.new + 1 ≡ hash_map_len index.old) }
    ensures kept { IfNone result (IsUnchanged index.old index.new) }
    ensures spare { spare index.old ≤ spare index.new }
{
    index.remove(k)
}

/// The place of a key, where there is a key.
pub fn place_of(index: &SeededMap<Elem, usize>, k: &Option<Elem>) -> Option<usize>
    ensures { result ≡ option_and_then (hash.get same index.now) k.now }
{
    match k {
        None => None,
        Some(key) => index.get(key).copied(),
    }
}
