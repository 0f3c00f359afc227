//! Threads: doubly linked lists through the nodes of a slab.
//!
//! `IsThread` says that a thread is a list of places. What a call does to the thread, it does for each list that the
//! thread may be.
ghost use Rattle.std.specs.Prelude.{◌≡◌, ◌≢◌, ℕ, List, [], ◌∷◌, ◌++◌, Option, Some, None, MatchOption, slice_get};
ghost use Rattle.slab.specs.Slab.{get, ContainsKey, slab_len};
ghost use Rattle.linked_base.specs.Thread.{head_or, last_or, Avoids, Apart, IsThread, links_at, Rewrites, KeepsRest};

pub use crate::links::{Ends, Links, Threaded};
use slab::Slab;

/// Puts the node at `place` into a thread before the place `next`, or last where there is none.
pub fn link_before<W, T: Threaded<W>>(
    nodes: &mut Slab<T>,
    ends: &mut Ends,
    place: usize,
    next: Option<usize>,
)
    requires place { ContainsKey nodes.old place }
    requires next { (p : ℕ) → next ≡ Some p → ContainsKey nodes.old p }
    ensures thread { (us vs : List ℕ) → next ≡ head_or None vs → Avoids (Some place) (us ++ vs) → IsThread (links_at T.links nodes.old) ends.old (us ++ vs) → IsThread (links_at T.links nodes.new) ends.new (us ++ place ∷ vs) }
    ensures others { (us vs : List ℕ) (p : ℕ) → next ≡ head_or None vs → IsThread (links_at T.links nodes.old) ends.old (us ++ vs) → Avoids (Some p) (us ++ place ∷ vs) → get nodes.new p ≡ get nodes.old p }
    ensures len { slab_len nodes.new ≡ slab_len nodes.old }
    ensures rest { (p : ℕ) → KeepsRest T.with_links (get nodes.old p) (get nodes.new p) }
{
    let previous = before::<W, T>(nodes, ends, next);
    write_links::<W, T>(nodes, place, Links { previous, next });
    set_next::<W, T>(nodes, ends, previous, Some(place));
    set_previous::<W, T>(nodes, ends, next, Some(place));
}

/// Takes the node at `place` out of its thread. It stays in the slab, with its old links.
pub fn unlink<W, T: Threaded<W>>(nodes: &mut Slab<T>, ends: &mut Ends, place: usize)
    requires { ContainsKey nodes.old place }
    ensures thread { (us vs : List ℕ) → IsThread (links_at T.links nodes.old) ends.old (us ++ place ∷ vs) → IsThread (links_at T.links nodes.new) ends.new (us ++ vs) }
    ensures others { (us vs : List ℕ) (p : ℕ) → IsThread (links_at T.links nodes.old) ends.old (us ++ place ∷ vs) → Avoids (Some p) (us ++ vs) → get nodes.new p ≡ get nodes.old p }
    ensures len { slab_len nodes.new ≡ slab_len nodes.old }
    ensures rest { (p : ℕ) → KeepsRest T.with_links (get nodes.old p) (get nodes.new p) }
{
    let links = nodes[place].links();
    set_next::<W, T>(nodes, ends, links.previous, links.next);
    set_previous::<W, T>(nodes, ends, links.next, links.previous);
}

/// The place number `i` of a thread, counted from 0.
pub fn nth<W, T: Threaded<W>>(nodes: &Slab<T>, ends: &Ends, i: usize) -> Option<usize>
    ensures { (ps : List ℕ) → IsThread (links_at T.links nodes.now) ends.now ps → result ≡ slice_get ps i }
{
    let mut at = ends.first;
    for _step in 0..i {
        match at {
            None => return None,
            Some(place) => match nodes.get(place) {
                None => return None,
                Some(node) => at = node.links().next,
            },
        }
    }
    at
}

/// The place before `next` in a thread, or the last where there is no `next`.
fn before<W, T: Threaded<W>>(nodes: &Slab<T>, ends: &Ends, next: Option<usize>) -> Option<usize>
    requires { (p : ℕ) → next ≡ Some p → ContainsKey nodes.now p }
    ensures { (us vs : List ℕ) → next ≡ head_or None vs → IsThread (links_at T.links nodes.now) ends.now (us ++ vs) → result ≡ last_or None us }
{
    match next {
        None => ends.last,
        Some(place) => nodes[place].links().previous,
    }
}

/// Writes the links of the node at `place`.
fn write_links<W, T: Threaded<W>>(nodes: &mut Slab<T>, place: usize, to: Links)
    ensures nodes { Rewrites (λ n. T.with_links n to) (Some place) nodes.old nodes.new }
    ensures len { slab_len nodes.new ≡ slab_len nodes.old }
{
    if let Some(node) = nodes.get_mut(place) {
        node.set_links(to);
    }
}

/// Lets `to` follow the node at `at`. With no node it is the first place that changes.
fn set_next<W, T: Threaded<W>>(
    nodes: &mut Slab<T>,
    ends: &mut Ends,
    at: Option<usize>,
    to: Option<usize>,
)
    ensures nodes { Rewrites (λ n. T.with_links n (record (T.links n) { next = to })) at nodes.old nodes.new }
    ensures len { slab_len nodes.new ≡ slab_len nodes.old }
    ensures ends { MatchOption at (ends.new ≡ record ends.old { first = to }) (λ _. ends.new ≡ ends.old) }
{
    match at {
        None => ends.first = to,
        Some(place) => {
            if let Some(node) = nodes.get_mut(place) {
                let previous = node.links().previous;
                node.set_links(Links { previous, next: to });
            }
        }
    }
}

/// Lets `to` stand before the node at `at`. With no node it is the last place that changes.
fn set_previous<W, T: Threaded<W>>(
    nodes: &mut Slab<T>,
    ends: &mut Ends,
    at: Option<usize>,
    to: Option<usize>,
)
    ensures nodes { Rewrites (λ n. T.with_links n (record (T.links n) { previous = to })) at nodes.old nodes.new }
    ensures len { slab_len nodes.new ≡ slab_len nodes.old }
    ensures ends { MatchOption at (ends.new ≡ record ends.old { last = to }) (λ _. ends.new ≡ ends.old) }
{
    match at {
        None => ends.last = to,
        Some(place) => {
            if let Some(node) = nodes.get_mut(place) {
                let next = node.links().next;
                node.set_links(Links { previous: to, next });
            }
        }
    }
}
