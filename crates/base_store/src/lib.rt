//! The bases of a session, and the views over them: a store of both, by their numbers.
//!
//! A base keeps rows in the type of its kind. A view keeps its step and the view below it and nothing else, so it is
//! live: what it shows is what its base holds at the moment.
#![tactic(auto)]

mod refs;
mod store;

pub use refs::{AnyRef, BaseId, Node};
pub use store::{Course, Store};
