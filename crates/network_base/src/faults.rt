use thiserror::Error;

/// Why a network takes no edge.
#[derive(Clone, Copy, Debug, PartialEq, Eq, Drop, Error)]
pub enum NetFault {
    /// The edge joins other nodes.
    #[error("the edge has other ends")]
    Taken,
    /// A new edge from a node to itself in a network without loops.
    #[error("no loops are allowed")]
    Loop,
    /// Want of memory.
    #[error("no memory")]
    NoMemory,
}
