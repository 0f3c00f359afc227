//! Walks along the thread through all pairs, to a pair that is the first of its key.
ghost use Rattle.std.specs.Prelude.{◌≡◌, ℕ, List, ◌++◌, Option, Some, None};
ghost use Rattle.std.specs.List.{filter};
ghost use Rattle.slab.specs.Slab.{ContainsKey};
ghost use Rattle.elem.specs.declared.elements.Elem.{Elem as Key};
ghost use Rattle.linked_base.specs.declared.links.Ends.{Ends};
ghost use Rattle.linked_base.specs.declared.group.Group.{Group};
ghost use Rattle.linked_base.specs.Thread.{head_or, last_or};
ghost use Rattle.mm_base.specs.PairNodes.{key_of, is_head, ArePairs};

use crate::pair_nodes::PairNode;
use elem::Elem;
use slab::Slab;

/// The first such place from `from` on.
pub fn next_head(nodes: &Slab<PairNode>, from: Option<usize>) -> Option<usize>
    ensures there { (p : ℕ) → result ≡ Some p → ContainsKey nodes.now p }
    ensures head { (us vs : List ℕ) (all : Ends) (find : Key → Option Group) → ArePairs nodes.now all find (us ++ vs) → from ≡ head_or None vs → result ≡ head_or None (filter (is_head nodes.now) vs) }
{
    let mut at = from;
    for _step in 0..nodes.len() {
        let Some(place) = at else {
            return None;
        };
        let Some(node) = nodes.get(place) else {
            return None;
        };
        if node.of_key.previous.is_none() {
            return Some(place);
        }
        at = node.all.next;
    }
    None
}

/// The last such place up to `from`.
pub fn previous_head(nodes: &Slab<PairNode>, from: Option<usize>) -> Option<usize>
    ensures there { (p : ℕ) → result ≡ Some p → ContainsKey nodes.now p }
    ensures head { (us vs : List ℕ) (all : Ends) (find : Key → Option Group) → ArePairs nodes.now all find (us ++ vs) → from ≡ last_or None us → result ≡ last_or None (filter (is_head nodes.now) us) }
{
    let mut at = from;
    for _step in 0..nodes.len() {
        let Some(place) = at else {
            return None;
        };
        let Some(node) = nodes.get(place) else {
            return None;
        };
        if node.of_key.previous.is_none() {
            return Some(place);
        }
        at = node.all.previous;
    }
    None
}

/// The key of the node at a place.
pub fn key_at(nodes: &Slab<PairNode>, place: Option<usize>) -> Option<Elem>
    requires { (p : ℕ) → place ≡ Some p → ContainsKey nodes.now p }
    ensures { result ≡ key_of nodes.now place }
{
    match place {
        None => None,
        Some(place) => Some(nodes[place].key),
    }
}
