//! Edges put and removed, and the nodes with them.
ghost use Rattle.std.specs.Prelude.{◌≡◌, ◌≤◌, ℕ, ◌&&◌, not, length, None, OnOk, OnErr};
ghost use Rattle.std.specs.Map.{keys_of};
ghost use Rattle.elem.specs.Elements.{same};
ghost use Rattle.elem.specs.Keyed.{value_at};
ghost use Rattle.mm_base.specs.KeyedRows.{with_key};
ghost use Rattle.graph_base.specs.Edges.{edge_joining, value_joining, with_edge, without_edge, incident, without_edges_at};
ghost use Rattle.graph_base.specs.Counted.{AreCounted};

use crate::degrees::{Degrees, count_edge, put_nodes, take_back, uncount_edge};
use crate::edge_rows::EdgeRows;
use elem::{Elem, NoMemory, same};
use linked_base::FreeLinkedMap;

/// Whether an edge is a loop where none is allowed.
pub fn is_refused(loops: bool, a: &Elem, b: &Elem) -> bool
    ensures { result ≡ (not loops && same a.now b.now) }
{
    !loops && same(a, b)
}

/// Puts an edge between two nodes that no edge joins, last, and before it the nodes that are new.
pub fn put_new_edge(
    nodes: &mut FreeLinkedMap<Degrees>,
    edges: &mut EdgeRows,
    a: &Elem,
    b: &Elem,
    v: &Elem,
) -> Result<(), NoMemory>
    requires absent { edge_joining edges.old.directed a.now b.now edges.old.edges ≡ None }
    requires counted { AreCounted (value_at nodes.old) edges.old.edges }
    requires small { length edges.old.edges ≤ 1073741823 }
    ensures counted { OnOk result (AreCounted (value_at nodes.new) edges.new.edges) }
    ensures keys { OnOk result (keys_of nodes.new ≡ with_key b.now (with_key a.now (keys_of nodes.old))) }
    ensures edges { OnOk result (edges.new ≡ record edges.old { edges = with_edge edges.old.directed a.now b.now v.now edges.old.edges }) }
    ensures nodes_kept { OnErr result (nodes.new ≡ nodes.old) }
    ensures edges_kept { OnErr result (edges.new ≡ edges.old) }
{
    let (first, second) = put_nodes(nodes, a, b)?;
    if edges.add(a, b, v).is_err() {
        take_back(nodes, b, second);
        take_back(nodes, a, first);
        return Err(NoMemory);
    }
    count_edge(nodes, a, b);
    Ok(())
}

/// Removes the edge between two nodes, and tells its value.
pub fn drop_edge(
    nodes: &mut FreeLinkedMap<Degrees>,
    edges: &mut EdgeRows,
    a: &Elem,
    b: &Elem,
) -> Option<Elem>
    requires { AreCounted (value_at nodes.old) edges.old.edges }
    ensures value { result ≡ value_joining edges.old.directed a.now b.now edges.old.edges }
    ensures edges { edges.new ≡ record edges.old { edges = without_edge edges.old.directed a.now b.now edges.old.edges } }
    ensures keys { keys_of nodes.new ≡ keys_of nodes.old }
    ensures counted { AreCounted (value_at nodes.new) edges.new.edges }
{
    let _len = edges.len();
    let (from, to, value) = edges.remove(a, b)?;
    uncount_edge(nodes, &from, &to);
    Some(value)
}

/// Removes the edges at a node.
pub fn drop_edges_at(nodes: &mut FreeLinkedMap<Degrees>, edges: &mut EdgeRows, a: &Elem)
    requires { AreCounted (value_at nodes.old) edges.old.edges }
    ensures edges { edges.new ≡ record edges.old { edges = without_edges_at a.now edges.old.edges } }
    ensures keys { keys_of nodes.new ≡ keys_of nodes.old }
    ensures counted { AreCounted (value_at nodes.new) edges.new.edges }
{
    let count = edges.count_at(a);
    for _step in 0..count {
        let _len = edges.len();
        let Some((from, to, _value)) = edges.incident_at(a, 0) else {
            return;
        };
        drop_edge(nodes, edges, &from, &to);
    }
}
