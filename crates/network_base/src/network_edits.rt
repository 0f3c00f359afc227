//! Edges put and removed, and what their nodes count.
ghost use Rattle.std.specs.Prelude.{◌≡◌, ◌≤◌, ◌&&◌, [], ◌∷◌, ◌++◌, not, length, None, is_some, OnOk, OnErr};
ghost use Rattle.std.specs.Map.{keys_of};
ghost use Rattle.elem.specs.declared.elements.Elem.{Elem as Key};
ghost use Rattle.elem.specs.Elements.{same};
ghost use Rattle.elem.specs.Keyed.{value_at};
ghost use Rattle.mm_base.specs.KeyedRows.{with_key};
ghost use Rattle.graph_base.specs.Counted.{AreCounted};
ghost use Rattle.graph_base.specs.Edges.{joins, without_edges_at};
ghost use Rattle.network_base.specs.Networks.{ends_of, without_edge};

use crate::named_edges::NamedEdges;
use elem::{Elem, NoMemory, same};
use graph_base::degrees::{Degrees, count_edge, put_nodes, take_back, uncount_edge};
use linked_base::FreeLinkedMap;

/// Whether ends are those of an edge from `a` to `b`, without directions either way round.
pub fn are_joined(directed: bool, a: &Elem, b: &Elem, from: &Elem, to: &Elem) -> bool
    ensures { (x : Key) → result ≡ joins directed a.now b.now (from.now, to.now, x) }
{
    let along = same(a, from) && same(b, to);
    let against = same(b, from) && same(a, to);
    along || (!directed && against)
}

/// Whether an edge is a loop where none is allowed.
pub fn is_refused(loops: bool, a: &Elem, b: &Elem) -> bool
    ensures { result ≡ (not loops && same a.now b.now) }
{
    !loops && same(a, b)
}

/// Puts a new edge between two nodes, last, and before it the nodes that are new.
pub fn put_new_edge(
    nodes: &mut FreeLinkedMap<Degrees>,
    edges: &mut NamedEdges,
    a: &Elem,
    b: &Elem,
    x: &Elem,
) -> Result<(), NoMemory>
    requires absent { ends_of x.now edges.old ≡ None }
    requires counted { AreCounted (value_at nodes.old) edges.old }
    requires small { length edges.old ≤ 1073741823 }
    ensures counted { OnOk result (AreCounted (value_at nodes.new) edges.new) }
    ensures keys { OnOk result (keys_of nodes.new ≡ with_key b.now (with_key a.now (keys_of nodes.old))) }
    ensures edges { OnOk result (edges.new ≡ edges.old ++ (a.now, b.now, x.now) ∷ []) }
    ensures nodes_kept { OnErr result (nodes.new ≡ nodes.old) }
    ensures edges_kept { OnErr result (edges.new ≡ edges.old) }
{
    let (first, second) = put_nodes(nodes, a, b)?;
    if edges.add(a, b, x).is_err() {
        take_back(nodes, b, second);
        take_back(nodes, a, first);
        return Err(NoMemory);
    }
    count_edge(nodes, a, b);
    Ok(())
}

/// Removes an edge, and tells whether it was there.
pub fn drop_edge(nodes: &mut FreeLinkedMap<Degrees>, edges: &mut NamedEdges, x: &Elem) -> bool
    requires { AreCounted (value_at nodes.old) edges.old }
    ensures answer { result ≡ is_some (ends_of x.now edges.old) }
    ensures edges { edges.new ≡ without_edge x.now edges.old }
    ensures keys { keys_of nodes.new ≡ keys_of nodes.old }
    ensures counted { AreCounted (value_at nodes.new) edges.new }
{
    let _len = edges.len();
    match edges.remove(x) {
        None => false,
        Some((from, to)) => {
            uncount_edge(nodes, &from, &to);
            true
        }
    }
}

/// Removes the edges at a node.
pub fn drop_edges_at(nodes: &mut FreeLinkedMap<Degrees>, edges: &mut NamedEdges, a: &Elem)
    requires { AreCounted (value_at nodes.old) edges.old }
    ensures edges { edges.new ≡ without_edges_at a.now edges.old }
    ensures keys { keys_of nodes.new ≡ keys_of nodes.old }
    ensures counted { AreCounted (value_at nodes.new) edges.new }
{
    let count = edges.count_at(a);
    for _step in 0..count {
        let _len = edges.len();
        let Some((_from, _to, x)) = edges.first_at(a) else {
            return;
        };
        drop_edge(nodes, edges, &x);
    }
}
