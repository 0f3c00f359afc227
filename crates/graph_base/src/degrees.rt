//! The nodes of a graph in order, each with the numbers of the edges that leave it and enter it.
ghost use Rattle.std.specs.Prelude.{◌≡◌, ◌<◌, ◌≤◌, pos, List, [], ◌∷◌, ◌++◌, Some, None, cond, not, IsSome, IfOk, OnErr};
ghost use Rattle.std.specs.Map.{keys_of};
ghost use Rattle.elem.specs.declared.elements.Elem.{Elem as Key};
ghost use Rattle.elem.specs.Elements.{same};
ghost use Rattle.elem.specs.Keyed.{value_at, IsPresent, without};
ghost use Rattle.mm_base.specs.KeyedRows.{contains};
ghost use Rattle.graph_base.specs.declared.degrees.Degrees.{Degrees as Counts};
ghost use Rattle.graph_base.specs.Degrees.{degree_by};
ghost use Rattle.graph_base.specs.Edges.{Edge};
ghost use Rattle.graph_base.specs.Counted.{no_degrees, with_new, AreCounted};

use crate::ways::Way;
use elem::{Elem, NoMemory};
use linked_base::FreeLinkedMap;

/// How many edges leave a node and enter it.
#[derive(Clone, Copy)]
pub struct Degrees {
    pub leaving: usize,
    pub entering: usize,
}

/// A node's degree, by its counts.
pub fn degree_by(directed: bool, way: Way, leaving: usize, entering: usize) -> i32
    requires leaving { leaving ≤ 1073741823 }
    requires entering { entering ≤ 1073741823 }
    ensures { result ≡ pos (degree_by directed way leaving entering) }
{
    let both = (leaving + entering) as i32;
    if !directed {
        return both;
    }
    match way {
        Way::Both => both,
        Way::Into => entering as i32,
        Way::Out => leaving as i32,
    }
}

/// Puts a node without edges last, where it is new, and tells whether it is.
pub fn put_node(nodes: &mut FreeLinkedMap<Degrees>, a: &Elem) -> Result<bool, NoMemory>
    ensures answer { IfOk result (λ new. new ≡ not (contains a.now (keys_of nodes.old))) }
    ensures rows { IfOk result (λ new. nodes.new ≡ with_new new a.now nodes.old) }
    ensures err { OnErr result (nodes.new ≡ nodes.old) }
{
    if nodes.probe(*a).is_some() {
        return Ok(false);
    }
    let none = Degrees {
        leaving: 0,
        entering: 0,
    };
    nodes.insert(*a, none)?;
    Ok(true)
}

/// Takes back a node that was put last.
pub fn take_back(nodes: &mut FreeLinkedMap<Degrees>, a: &Elem, new: bool)
    ensures { nodes.new ≡ cond new (without nodes.old a.now) nodes.old }
{
    if new {
        nodes.remove(*a);
    }
}

/// Puts two nodes as `put_node` does, one after the other.
pub fn put_nodes(
    nodes: &mut FreeLinkedMap<Degrees>,
    a: &Elem,
    b: &Elem,
) -> Result<(bool, bool), NoMemory>
    ensures first { IfOk result (λ new. new.0 ≡ not (contains a.now (keys_of nodes.old))) }
    ensures second { IfOk result (λ new. new.1 ≡ not (contains b.now (keys_of (with_new new.0 a.now nodes.old)))) }
    ensures rows { IfOk result (λ new. nodes.new ≡ with_new new.1 b.now (with_new new.0 a.now nodes.old)) }
    ensures err { OnErr result (nodes.new ≡ nodes.old) }
{
    let first = put_node(nodes, a)?;
    match put_node(nodes, b) {
        Ok(second) => Ok((first, second)),
        Err(_) => {
            take_back(nodes, a, first);
            Err(NoMemory)
        }
    }
}

/// Writes the counts of a node.
fn write_degrees(nodes: &mut FreeLinkedMap<Degrees>, a: &Elem, leaving: usize, entering: usize)
    requires { IsPresent nodes.old a.now }
    ensures keys { keys_of nodes.new ≡ keys_of nodes.old }
    ensures found { (x : Key) → value_at nodes.new x ≡ cond (same a.now x) (Some (record { leaving = leaving; entering = entering })) (value_at nodes.old x) }
{
    let degrees = Degrees { leaving, entering };
    nodes.replace(*a, degrees);
}

/// Counts an edge at both its ends.
pub fn count_edge(nodes: &mut FreeLinkedMap<Degrees>, from: &Elem, to: &Elem)
    requires from { IsPresent nodes.old from.now }
    requires to { IsPresent nodes.old to.now }
    requires room { (x : Key) (d : Counts) → value_at nodes.old x ≡ Some d → (d.leaving < 1073741824) × (d.entering < 1073741824) }
    ensures keys { keys_of nodes.new ≡ keys_of nodes.old }
    ensures counted { (edges : List Edge) (v : Key) → AreCounted (value_at nodes.old) edges → AreCounted (value_at nodes.new) (edges ++ (from.now, to.now, v) ∷ []) }
{
    let before = nodes.probe(*from).unwrap();
    write_degrees(nodes, from, before.leaving + 1, before.entering);
    let between = nodes.probe(*to).unwrap();
    write_degrees(nodes, to, between.leaving, between.entering + 1);
}

/// Counts an edge no longer.
pub fn uncount_edge(nodes: &mut FreeLinkedMap<Degrees>, from: &Elem, to: &Elem)
    requires { (us : List Edge) × (v : Key) × (vs : List Edge) × AreCounted (value_at nodes.old) (us ++ (from.now, to.now, v) ∷ vs) }
    ensures keys { keys_of nodes.new ≡ keys_of nodes.old }
    ensures counted { (us : List Edge) (v : Key) (vs : List Edge) → AreCounted (value_at nodes.old) (us ++ (from.now, to.now, v) ∷ vs) → AreCounted (value_at nodes.new) (us ++ vs) }
{
    let before = nodes.probe(*from).unwrap();
    write_degrees(nodes, from, before.leaving - 1, before.entering);
    let between = nodes.probe(*to).unwrap();
    write_degrees(nodes, to, between.leaving, between.entering - 1);
}
