use crate::found::Found;
use elem::Elem;

/// A node that was entered, and the next one of its next nodes that is to be visited.
#[derive(Clone, Copy)]
pub struct Frame {
    pub node: Elem,
    pub next: Option<Elem>,
}

/// The nodes in the order in which they were entered and in that in which they were left, and those that were entered and
/// not left yet, the last one on top.
#[derive(Drop)]
pub struct DepthWalk {
    pub entered: Found,
    pub left: Vec<Elem>,
    pub stack: Vec<Frame>,
}
