//! Groups: for each key, a thread through the nodes that have it, and their number.
ghost use Rattle.std.specs.Prelude.{◌≡◌, ℕ, ◌+◌, ◌<◌, List, ◌∷◌, ◌++◌, Option, Some, None, cond, IsSome};
ghost use Rattle.std.specs.HashMap.{spare};
ghost use Rattle.std.specs.HashMap as hash;
ghost use Rattle.slab.specs.Slab.{get, ContainsKey, slab_len};
ghost use Rattle.elem.specs.declared.elements.Elem.{Elem as Key};
ghost use Rattle.elem.specs.Elements.{same};
ghost use Rattle.linked_base.specs.Thread.{head_or, Avoids, links_at, KeepsRest};
ghost use Rattle.linked_base.specs.Group.{group_or_none, some_used, no_group, IsGroup};

use crate::links::{Ends, Threaded};
use crate::thread::{link_before, unlink};
use elem::Elem;
use hash_seed::SeededMap;
use slab::Slab;

/// The nodes of a key: the ends of their thread, and how many they are.
#[derive(Clone, Copy, Debug)]
pub struct Group {
    pub ends: Ends,
    pub count: usize,
}

impl Group {
    /// A group with nothing in it.
    pub fn none() -> Group
        ensures { result ≡ no_group }
    {
        Group {
            ends: Ends {
                first: None,
                last: None,
            },
            count: 0,
        }
    }
}

/// Puts the node at `place` into a group before the place `next`, or last where there is none.
pub fn join<W, T: Threaded<W>>(
    nodes: &mut Slab<T>,
    group: &mut Group,
    place: usize,
    next: Option<usize>,
)
    requires place { ContainsKey nodes.old place }
    requires next { (p : ℕ) → next ≡ Some p → ContainsKey nodes.old p }
    requires counted { group.old.count < slab_len nodes.old }
    ensures group { (us vs : List ℕ) → next ≡ head_or None vs → Avoids (Some place) (us ++ vs) → IsGroup (links_at T.links nodes.old) group.old (us ++ vs) → IsGroup (links_at T.links nodes.new) group.new (us ++ place ∷ vs) }
    ensures others { (us vs : List ℕ) (p : ℕ) → next ≡ head_or None vs → IsGroup (links_at T.links nodes.old) group.old (us ++ vs) → Avoids (Some p) (us ++ place ∷ vs) → get nodes.new p ≡ get nodes.old p }
    ensures count { group.new.count ≡ group.old.count + 1 }
    ensures len { slab_len nodes.new ≡ slab_len nodes.old }
    ensures rest { (p : ℕ) → KeepsRest T.with_links (get nodes.old p) (get nodes.new p) }
{
    let _len = nodes.len();
    link_before::<W, T>(nodes, &mut group.ends, place, next);
    group.count += 1;
}

/// Takes the node at `place` out of its group. It stays in the slab, with its old links.
pub fn leave<W, T: Threaded<W>>(nodes: &mut Slab<T>, group: &mut Group, place: usize)
    requires place { ContainsKey nodes.old place }
    requires counted { 0 < group.old.count }
    ensures group { (us vs : List ℕ) → IsGroup (links_at T.links nodes.old) group.old (us ++ place ∷ vs) → IsGroup (links_at T.links nodes.new) group.new (us ++ vs) }
    ensures others { (us vs : List ℕ) (p : ℕ) → IsGroup (links_at T.links nodes.old) group.old (us ++ place ∷ vs) → Avoids (Some p) (us ++ vs) → get nodes.new p ≡ get nodes.old p }
    ensures count { group.new.count + 1 ≡ group.old.count }
    ensures len { slab_len nodes.new ≡ slab_len nodes.old }
    ensures rest { (p : ℕ) → KeepsRest T.with_links (get nodes.old p) (get nodes.new p) }
{
    unlink::<W, T>(nodes, &mut group.ends, place);
    group.count -= 1;
}

/// The group of a key, with nothing in it where there is none.
pub fn group_of(groups: &SeededMap<Elem, Group>, k: &Elem) -> Group
    ensures { result ≡ group_or_none (hash.get same groups.now k.now) }
{
    match groups.get(k) {
        Some(group) => *group,
        None => Group::none(),
    }
}

/// Gives a key its group, for which there is room.
pub fn write_group(groups: &mut SeededMap<Elem, Group>, k: &Elem, group: Group)
    requires room { 0 < spare groups.old }
    requires used { 0 < group.count }
    ensures { (q : Key) → hash.get same groups.new q ≡ cond (same k.now q) (some_used group) (hash.get same groups.old q) }
{
    let _before = groups.insert(*k, group);
}

/// Gives a key that has a group another one, or none where nothing is in it.
pub fn keep_group(groups: &mut SeededMap<Elem, Group>, k: &Elem, group: Group)
    requires { IsSome (hash.get same groups.old k.now) }
    ensures { (q : Key) → hash.get same groups.new q ≡ cond (same k.now q) (some_used group) (hash.get same groups.old q) }
{
    if group.count == 0 {
        groups.remove(k);
    } else {
        let _before = groups.insert(*k, group);
    }
}
