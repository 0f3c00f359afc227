//! Lines of the script language: the grammar of a line, and its exact reader.
//!
//! A line is blank, makes a base, names an expression or an iterator, or asks for a value; everything else is a
//! fault. The reader takes no memory and calls nothing to the depth of the line's brackets.
#![tactic(auto)]

mod kinds;
mod lines;
mod news;
mod parts;
mod reader;
mod stages;

pub use kinds::{KindName, LongKind};
pub use lines::{Line, Part, Slice};
pub use news::is_name;
pub use reader::read_line;
