//! What the crates of shelf share: elements and their one spelling, tokens, cuts and ranges between elements, the
//! contract of rows by key, the counter of base calls, and the traits of the outside with their fakes in memory.
//!
//! An element is a whole number of 64 bits or a word of at most 24 bytes. Each element has one spelling, so a text
//! spells one element or none.
#![tactic(auto)]

mod build_kinds;
mod counting;
mod cuts;
mod elements;
mod lexing;
mod memory;
mod orders;
mod outside;
mod places;
mod rows;
mod span_texts;
mod spans;
mod spelling;
mod tokens;
mod windows;
mod words;

pub use build_kinds::BuildKind;
pub use counting::Steps;
pub use cuts::{Cut, lies_between, same_cut};
pub use elements::{Elem, natural_order, same};
pub use lexing::{Ahead, Lexeme, lex, next_lexeme};
pub use memory::{MemInputs, MemSink, path_of};
pub use orders::{ByLength, Compare, Natural, Reverse};
pub use outside::{Failed, Inputs, NoMemory, Sink};
pub use rows::Keyed;
pub use span_texts::{SpanFault, element, known, read_span, write_span};
pub use spans::Span;
pub use spelling::{read_elem, read_number, write_elem};
pub use tokens::{Sign, Token, next_token};
pub use windows::Window;
pub use words::{Word, continues_word, is_digit, starts_word};
