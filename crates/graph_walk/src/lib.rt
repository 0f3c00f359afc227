//! Walks through any graph that tells its nodes, and the next nodes of a node, one after another: breadth first, depth first,
//! whether it has a cycle, and its transitive closure, as Guava's `Traverser` and `Graphs`. The order of nodes and edges in
//! the graph decides the order of each answer.
#![tactic(auto)]

mod breadth_walk;
mod closure_pairs;
mod closures;
mod cycles;
mod depth_stack;
mod depth_walk;
mod faults;
mod found;
#[cfg(test)]
mod tests;
#[cfg(test)]
mod two_lists;
mod visits;
mod walkable;

pub use breadth_walk::breadth_first;
pub use closure_pairs::Closure;
pub use closures::closure;
pub use cycles::has_cycle;
pub use depth_walk::{depth_post, depth_pre};
pub use faults::{ClosureFault, WalkFault};
pub use walkable::Walkable;
