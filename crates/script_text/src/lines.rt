//! A line, as it is read.
ghost use Rattle.std.specs.Prelude.{◌≡◌, ◌<◌, [], get_or};
ghost use Rattle.script_text.specs.Parts.{part_in};
ghost use Rattle.script_text.specs.Trees.{piece};

use crate::kinds::KindName;
use elem::Word;

/// A piece of the line: its first byte, and the byte behind its last.
#[derive(Clone, Copy, Debug, PartialEq, Eq)]
pub struct Slice {
    pub start: u16,
    pub end: u16,
}

impl Default for Slice {
    ghost use Rattle.std.specs.Prelude.{◌≡◌};
    ghost use Rattle.script_text.specs.Trees.{no_slice};

    ghost is_default = { λ place. place ≡ no_slice };

    /// The empty place at the front of the line.
    fn default() -> Self {
        Slice { start: 0, end: 0 }
    }
}

impl Slice {
    /// The bytes at this place of a line; where the line ends before, those that are there.
    pub fn of<'a>(&self, line: &'a [u8]) -> &'a [u8]
        ensures { result.now ≡ piece line.now self.now }
    {
        let end = line.len().min(self.end as usize);
        let start = end.min(self.start as usize);
        &line[start..end]
    }
}

/// A word behind a dot, the number of its arguments, and the places of the first three; those that are not there are
/// from 0 to 0.
#[derive(Clone, Copy, Debug)]
pub struct Part {
    pub word: Word,
    pub count: u16,
    pub args: [Slice; 3],
}

impl Default for Part {
    ghost use Rattle.std.specs.Prelude.{◌≡◌, [], ◌∷◌};
    ghost use Rattle.script_text.specs.Trees.{part_of};

    ghost is_default = { λ part. part ≡ part_of (record { word = 95 ∷ []; args = [] }) };

    /// The word `_` without arguments.
    fn default() -> Self {
        Part {
            word: Word::default(),
            count: 0,
            args: [Slice { start: 0, end: 0 }; 3],
        }
    }
}

impl Part {
    /// The text of one of the first three arguments, by its number from 0. One that is not there is empty.
    pub fn argument<'a>(&self, line: &'a [u8], i: usize) -> &'a [u8]
        requires { i < 3 }
        ensures { result.now ≡ get_or (part_in line.now self.now).args i [] }
    {
        if i < self.count as usize {
            self.args[i].of(line)
        } else {
            &[]
        }
    }
}

/// What a line is. The words behind the name at the head of an expression stand beside it, as a list of parts.
#[derive(Clone, Copy, Debug)]
pub enum Line {
    /// Nothing but spaces, or a comment.
    Blank,
    /// `new name kind`
    New { name: Word, kind: KindName },
    /// `let name = expression`
    Let { name: Word, head: Word },
    /// `it name = expression`
    It { name: Word, head: Word },
    /// An expression.
    Eval { head: Word },
    /// A line that is not in the grammar.
    Syntax,
    /// A line of more than 1,024 bytes, whatever it holds.
    Long,
}
