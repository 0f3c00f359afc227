//! Lines: what an expression is for, what is wrong with a word of it, and the words of an iterator.

/// What an expression is for.
#[derive(Clone, Copy)]
pub enum Purpose {
    /// A reply: it shows a view, or ends in a call on one.
    Reply,
    /// A name: its words are steps, and the last may make a new base of a view.
    Name,
    /// An iterator: all its words are steps.
    Iterator,
}

/// What is wrong with a word.
#[derive(Clone, Copy)]
pub enum Fault {
    /// An argument is a name that stands for nothing.
    Name,
    /// The word has no meaning in its place with these arguments.
    Call,
}

/// What is asked of an iterator, as `java.util.Iterator` has it.
#[derive(Clone, Copy)]
pub enum OnIterator {
    HasNext,
    Next,
    Remove,
}
