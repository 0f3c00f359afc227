use thiserror::Error;

/// Why a call of a graph gives no answer.
#[derive(Clone, Copy, Debug, PartialEq, Eq, Drop, Error)]
pub enum GraphFault {
    /// An edge from a node to itself in a graph without loops.
    #[error("no loops are allowed")]
    Loop,
    /// A node that is not in the graph.
    #[error("no such node")]
    NoNode,
    /// Want of memory.
    #[error("no memory")]
    NoMemory,
}
