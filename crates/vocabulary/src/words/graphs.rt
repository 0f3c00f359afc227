//! The words of value graphs and their rows.

use crate::Action::{self, Call, Step};
use crate::{CallForm as On, LeafForm, Near, OnElement, OnPair, OnTriple, StepForm as By};

/// The steps of a graph.
pub const GRAPH_STEPS: [(&[u8], Action); 7] = [
    (b"nodes", Step(By::Leaf(LeafForm::Nodes))),
    (b"edges", Step(By::Leaf(LeafForm::Edges))),
    (
        b"adjacentNodes",
        Step(By::Leaf(LeafForm::Near(Near::Adjacent))),
    ),
    (
        b"predecessors",
        Step(By::Leaf(LeafForm::Near(Near::Predecessors))),
    ),
    (
        b"successors",
        Step(By::Leaf(LeafForm::Near(Near::Successors))),
    ),
    (
        b"incidentEdges",
        Step(By::Leaf(LeafForm::Near(Near::Incident))),
    ),
    (b"transpose", Step(By::Leaf(LeafForm::Transpose))),
];

/// The calls of a graph.
pub const GRAPHS: [(&[u8], Action); 9] = [
    (b"hasEdge", Call(On::Pair(OnPair::HasEdge))),
    (b"edgeValue", Call(On::Pair(OnPair::EdgeValue))),
    (b"degree", Call(On::Element(OnElement::Degree))),
    (b"inDegree", Call(On::Element(OnElement::InDegree))),
    (b"outDegree", Call(On::Element(OnElement::OutDegree))),
    (b"addNode", Call(On::Element(OnElement::AddNode))),
    (b"removeNode", Call(On::Element(OnElement::RemoveNode))),
    (b"putEdgeValue", Call(On::Triple(OnTriple::PutEdge))),
    (b"removeEdge", Call(On::Pair(OnPair::RemoveEdge))),
];

/// The words of a set of pairs.
pub const PAIRS: [(&[u8], Action); 2] = [
    (b"contains", Call(On::Pair(OnPair::ContainsEnds))),
    (b"remove", Call(On::Pair(OnPair::RemoveEnds))),
];
