//! Nodes of pairs, with a thread through all and a thread through those of each key.
ghost use Rattle.std.specs.Prelude.{◌≡◌, refl, ℕ, ◌+◌, ◌<◌, ◌≤◌, List, [], ◌∷◌, ◌++◌, Option, Some, None};
ghost use Rattle.std.specs.List.{filter};
ghost use Rattle.slab.specs.Slab.{get, ContainsKey, HasRoomFor, slab_len};
ghost use Rattle.elem.specs.declared.elements.Elem.{Elem as Key};
ghost use Rattle.linked_base.specs.declared.group.Group.{Group as KeyGroup};
ghost use Rattle.linked_base.specs.Thread.{head_or, links_at, Rewrites};
ghost use Rattle.linked_base.specs.Group.{group_or_none, of_key, has, IsGroup};
ghost use Rattle.linked_base.specs.Places.{id_rows};
ghost use Rattle.mm_base.specs.PairNodes.{key_links, the_node, key_at, value_at, core_at, with_group, ArePairs};

use elem::{Elem, same};
use linked_base::group::{Group, join, leave};
use linked_base::thread::{Ends, Links, Threaded, link_before, unlink};
use slab::Slab;

/// The thread through all pairs.
pub struct AllPairs;

/// The thread through the pairs of a key.
pub struct PairsOfKey;

/// A pair and its places in the two threads.
#[derive(Clone, Copy)]
pub struct PairNode {
    pub key: Elem,
    pub value: Elem,
    pub all: Links,
    pub of_key: Links,
}

impl Threaded<AllPairs> for PairNode {
    ghost links = { λ n. n.all };

    ghost with_links = { λ n l. record n { all = l } };

    ghost links_back = { λ n. refl };

    ghost links_of_set = { λ n l. refl };

    ghost set_twice = { λ n l m. refl };

    fn links(&self) -> Links {
        self.all
    }

    fn set_links(&mut self, to: Links) {
        self.all = to;
    }
}

impl Threaded<PairsOfKey> for PairNode {
    ghost links = { λ n. n.of_key };

    ghost with_links = { λ n l. record n { of_key = l } };

    ghost links_back = { λ n. refl };

    ghost links_of_set = { λ n l. refl };

    ghost set_twice = { λ n l m. refl };

    fn links(&self) -> Links {
        self.of_key
    }

    fn set_links(&mut self, to: Links) {
        self.of_key = to;
    }
}

/// A node that is in no thread.
fn new_node(k: &Elem, v: &Elem) -> PairNode
    ensures { result ≡ the_node k.now v.now }
{
    let none = Links {
        previous: None,
        next: None,
    };
    PairNode {
        key: *k,
        value: *v,
        all: none,
        of_key: none,
    }
}

/// Puts a new node into both threads: before `next` in all, and before `next_in_key` in its key's.
pub fn link_pair(
    nodes: &mut Slab<PairNode>,
    all: &mut Ends,
    group: &mut Group,
    k: &Elem,
    v: &Elem,
    next: Option<usize>,
    next_in_key: Option<usize>,
) -> usize
    requires room { HasRoomFor nodes.old 1 }
    requires next { (p : ℕ) → next ≡ Some p → ContainsKey nodes.old p }
    requires next_in_key { (p : ℕ) → next_in_key ≡ Some p → ContainsKey nodes.old p }
    requires counted { group.old.count ≤ slab_len nodes.old }
    ensures pairs { (us vs : List ℕ) (find : Key → Option KeyGroup) → next ≡ head_or None vs → next_in_key ≡ head_or None (of_key (key_at nodes.old) k.now vs) → group.old ≡ group_or_none (find k.now) → ArePairs nodes.old all.old find (us ++ vs) → ArePairs nodes.new all.new (with_group k.now group.new find) (us ++ result ∷ vs) }
    ensures rows { (us vs : List ℕ) (find : Key → Option KeyGroup) → ArePairs nodes.old all.old find (us ++ vs) → id_rows (core_at nodes.new) (us ++ result ∷ vs) ≡ id_rows (core_at nodes.old) us ++ (result, (k.now, v.now)) ∷ id_rows (core_at nodes.old) vs }
    ensures fresh { get nodes.old result ≡ None }
    ensures count { 0 < group.new.count }
{
    let node = new_node(k, v);
    let place = nodes.insert_reserved(node);
    link_before::<AllPairs, PairNode>(nodes, all, place, next);
    join::<PairsOfKey, PairNode>(nodes, group, place, next_in_key);
    place
}

/// Takes the node at `place` out of both threads and the slab.
pub fn unlink_pair(nodes: &mut Slab<PairNode>, all: &mut Ends, group: &mut Group, place: usize)
    requires place { ContainsKey nodes.old place }
    requires counted { 0 < group.old.count }
    ensures pairs { (us vs : List ℕ) (find : Key → Option KeyGroup) (k : Key) → key_at nodes.old place ≡ Some k → group.old ≡ group_or_none (find k) → ArePairs nodes.old all.old find (us ++ place ∷ vs) → ArePairs nodes.new all.new (with_group k group.new find) (us ++ vs) }
    ensures rows { (us vs : List ℕ) (find : Key → Option KeyGroup) → ArePairs nodes.old all.old find (us ++ place ∷ vs) → id_rows (core_at nodes.new) (us ++ vs) ≡ id_rows (core_at nodes.old) us ++ id_rows (core_at nodes.old) vs }
{
    unlink::<AllPairs, PairNode>(nodes, all, place);
    leave::<PairsOfKey, PairNode>(nodes, group, place);
    nodes.remove(place);
}

/// Puts the node at `place` last in both threads.
pub fn move_last(nodes: &mut Slab<PairNode>, all: &mut Ends, group: &mut Group, place: usize)
    requires place { ContainsKey nodes.old place }
    requires counted { 0 < group.old.count }
    requires fits { group.old.count ≤ slab_len nodes.old }
    ensures pairs { (us vs : List ℕ) (find : Key → Option KeyGroup) (k : Key) → key_at nodes.old place ≡ Some k → group.old ≡ group_or_none (find k) → ArePairs nodes.old all.old find (us ++ place ∷ vs) → ArePairs nodes.new all.new (with_group k group.new find) ((us ++ vs) ++ place ∷ []) }
    ensures rows { (ps : List ℕ) → id_rows (core_at nodes.new) ps ≡ id_rows (core_at nodes.old) ps }
    ensures count { 0 < group.new.count }
{
    unlink::<AllPairs, PairNode>(nodes, all, place);
    leave::<PairsOfKey, PairNode>(nodes, group, place);
    link_before::<AllPairs, PairNode>(nodes, all, place, None);
    join::<PairsOfKey, PairNode>(nodes, group, place, None);
}

/// Writes the value of the node at `place`.
pub fn write_value(nodes: &mut Slab<PairNode>, place: usize, v: &Elem)
    ensures nodes { Rewrites (λ n. record n { value = v.now }) (Some place) nodes.old nodes.new }
    ensures len { slab_len nodes.new ≡ slab_len nodes.old }
{
    if let Some(node) = nodes.get_mut(place) {
        node.value = *v;
    }
}

/// The place of the first node of a group with a value.
pub fn find_value(nodes: &Slab<PairNode>, group: &Group, v: &Elem) -> Option<usize>
    ensures { (ps : List ℕ) → IsGroup (links_at key_links nodes.now) group.now ps → result ≡ head_or None (filter (λ p. has v.now (value_at nodes.now p)) ps) }
{
    let mut at = group.ends.first;
    for _step in 0..group.count {
        let Some(place) = at else {
            return None;
        };
        let Some(node) = nodes.get(place) else {
            return None;
        };
        if same(v, &node.value) {
            return Some(place);
        }
        at = node.of_key.next;
    }
    None
}
