//! A session: names, and the lines that are executed over them.
#![tactic(auto)]

mod arguments;
mod bound;
mod calling;
mod environment;
mod evaluating;
mod faults;
mod following;
mod iterating;
mod names;
mod printing;
mod replies;
mod session;
mod taking;
mod typing;

pub use faults::ExecFault;
pub use session::Session;
