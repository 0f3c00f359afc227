ghost use Rattle.std.specs.Prelude.{◌≡◌};
ghost use Rattle.script_text.specs.Names.{kind_text};

use elem::Word;

/// A kind whose name is longer than a word may be.
#[derive(Clone, Copy, Debug, PartialEq, Eq)]
pub enum LongKind {
    UndirectedValueGraphLoops,
    ImmutableSetMultimapBuilder,
    ImmutableListMultimapBuilder,
}

/// What stands for a kind after `new`: a word, or one of the three long names.
#[derive(Clone, Copy, Debug)]
pub enum KindName {
    Word(Word),
    Long(LongKind),
}

impl KindName {
    /// The text of the name.
    pub fn bytes(&self) -> &[u8]
        ensures { result.now ≡ kind_text self.now }
    {
        match self {
            KindName::Word(word) => word.bytes(),
            KindName::Long(LongKind::UndirectedValueGraphLoops) => b"UndirectedValueGraphLoops",
            KindName::Long(LongKind::ImmutableSetMultimapBuilder) => b"ImmutableSetMultimapBuilder",
            KindName::Long(LongKind::ImmutableListMultimapBuilder) =>
                b"ImmutableListMultimapBuilder",
        }
    }
}
