//! Steps at the foot of a path: what can be made of a range set, a range map or a graph.
ghost use Rattle.std.specs.Prelude.{◌≡◌};
ghost use Rattle.vocabulary.specs.LeafShapes as spec;

use crate::{RowSort, Shape};
use elem::{Elem, Span};

/// The steps from what stands at the foot of a path to something else there, by what they take. They apply to range
/// sets, range maps and graphs, and no other step leads to one of these.
#[derive(Clone, Copy)]
pub enum LeafForm {
    /// `RangeSet.complement`: live; what is not covered. Adding removes below, and removing adds.
    Complement,
    /// `RangeSet.subRangeSet`, `RangeMap.subRangeMap`: live; what lies in a range. Only a range that it encloses can be
    /// added, and what is removed is cut to it.
    Part,
    /// `RangeSet.asRanges`, `RangeMap.asMapOfRanges`: live; each write is refused.
    Ranges,
    /// `ValueGraph.nodes`: live; each write is refused.
    Nodes,
    /// `ValueGraph.edges`: live; each write is refused.
    Edges,
    /// `Graphs.transpose`: live; each direction reversed, each write is refused.
    Transpose,
    /// A step that names a node: live; each write is refused, and each read while the graph lacks the node.
    Near(Near),
    /// `ImmutableRangeSet`, `ImmutableGraph` as views: live; each write is refused.
    Lock,
}

/// What stands near a node of a graph.
#[derive(Clone, Copy)]
pub enum Near {
    /// `ValueGraph.adjacentNodes`: the other end of each edge at the node, once.
    Adjacent,
    /// `ValueGraph.successors`: the other end of each edge that leaves the node.
    Successors,
    /// `ValueGraph.predecessors`: the other end of each edge that enters the node.
    Predecessors,
    /// `ValueGraph.incidentEdges`: the edges at the node.
    Incident,
}

/// A step at the foot of a path, with its arguments.
#[derive(Clone, Copy)]
pub enum LeafStep {
    Complement,
    Part(Span),
    Ranges,
    Nodes,
    Edges,
    Transpose,
    Near(Near, Elem),
    Lock,
}

/// The shape that such a step gives on a view of a shape, where the table has it.
pub fn leaf_shape(shape: Shape, step: LeafForm) -> Option<Shape>
    ensures { result ≡ spec.leaf_shape shape step }
{
    match shape {
        Shape::RangeSet => on_range_set(step),
        Shape::RangeMap => on_range_map(step),
        Shape::Graph { directed } => on_graph(directed, step),
        _ => None,
    }
}

fn on_range_set(step: LeafForm) -> Option<Shape>
    ensures { result ≡ spec.on_range_set step }
{
    match step {
        LeafForm::Complement | LeafForm::Part | LeafForm::Lock => Some(Shape::RangeSet),
        LeafForm::Ranges => Some(Shape::Rows(RowSort::Range)),
        _ => None,
    }
}

fn on_range_map(step: LeafForm) -> Option<Shape>
    ensures { result ≡ spec.on_range_map step }
{
    match step {
        LeafForm::Part | LeafForm::Lock => Some(Shape::RangeMap),
        LeafForm::Ranges => Some(Shape::Rows(RowSort::RangeEntry)),
        _ => None,
    }
}

fn on_graph(directed: bool, step: LeafForm) -> Option<Shape>
    ensures { result ≡ spec.on_graph directed step }
{
    match step {
        LeafForm::Transpose | LeafForm::Lock => Some(Shape::Graph { directed }),
        LeafForm::Edges | LeafForm::Near(Near::Incident) => Some(Shape::Rows(RowSort::Pair {
            directed,
        })),
        LeafForm::Nodes | LeafForm::Near(_) => Some(Shape::Set { sorted: false }),
        _ => None,
    }
}
