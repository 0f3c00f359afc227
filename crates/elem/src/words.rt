ghost use Rattle.std.specs.Prelude.{◌≡◌, ◌≤◌, length, true};
ghost use Rattle.std.specs.Prelude.{nat_eq, [], ◌∷◌};
ghost use Rattle.std.specs.List.{list_all};
ghost use Rattle.std.specs.Ordering.{nat_cmp, as_partial_cmp};
ghost use Rattle.std.specs.Cmp.{partial_equiv_from_equiv, partial_order_from_agreeing_total};
ghost use Rattle.std.specs.Cmp.Lexicographic.{nat_list_eq_equiv, nat_list_cmp_total, pointwise, slice_cmp};
ghost use Rattle.std.specs.Cmp.Rules.{hashing};
ghost use Rattle.std.specs.Hash as fed;
ghost use Rattle.std.proofs.Common.{refl, rules};
ghost use Rattle.elem.specs.Words.{starts_word, continues_word, is_digit, is_word, word_of};
ghost use Rattle.elem.specs.ElementLaws.{bytes_ties};

use std::cmp::Ordering;
use std::hash::{Hash, Hasher};
use std::marker::Model;

/// The greatest number of bytes of a word.
const MOST_BYTES: usize = 24;

/// A word of 1 to 24 bytes: a letter or `_` first, then letters, digits, `_` and `-`.
///
/// It stands in itself, with no memory beside it. Contracts see the list of its bytes. Words are ordered by their
/// bytes, as Java orders ASCII strings.
#[derive(Clone, Copy, Debug)]
pub struct Word {
    // The bytes past the length are 0.
    bytes: [u8; 24],
    len: usize,
}

impl Model for Word {
    ghost use Rattle.std.specs.Prelude.{List, ℕ, take};
    ghost use Rattle.elem.specs.Words.{IsPacked};

    ghost Value = { List ℕ };

    ghost use Rattle.elem.specs.WordInside.{inside_of, inside_of-view};

    ghost view = { λ w. take w.len w.bytes };

    ghost invariant = { λ w. IsPacked w.bytes w.len };

    ghost inverse = { inside_of };

    ghost inverse_ok = { inside_of-view };
}

impl Word {
    /// The word that the text is, where it is one.
    pub fn new(text: &[u8]) -> Option<Word>
        ensures { result ≡ word_of text.now }
    {
        if !is_word(text) {
            return None;
        }
        let mut bytes = [0; 24];
        let len = text.len();
        bytes[..len].copy_from_slice(text);
        Some(Word { bytes, len })
    }

    /// The text of the word.
    pub fn bytes(&self) -> &[u8]
        ensures value { result.now ≡ self.now }
        ensures word { is_word self.now ≡ true }
        ensures short { length self.now ≤ 24 }
    {
        &self.bytes[..self.len]
    }
}

/// Whether a word may begin with the byte: a letter or `_`.
#[tactic(auto, unfolding(crate::specs::Words::starts_word))]
pub fn starts_word(byte: u8) -> bool
    ensures { result ≡ starts_word byte }
{
    matches!(byte, b'a'..=b'z' | b'A'..=b'Z' | b'_')
}

/// Whether the byte is a decimal digit.
#[tactic(auto, unfolding(crate::specs::Words::is_digit))]
pub fn is_digit(byte: u8) -> bool
    ensures { result ≡ is_digit byte }
{
    matches!(byte, b'0'..=b'9')
}

/// Whether the byte may stand in a word behind its first: a letter, a digit, `_` or `-`.
#[tactic(auto, unfolding(crate::specs::Words::continues_word))]
pub fn continues_word(byte: u8) -> bool
    ensures { result ≡ continues_word byte }
{
    starts_word(byte) || is_digit(byte) || byte == b'-'
}

fn all_continue(text: &[u8]) -> bool
    ensures { result ≡ list_all continues_word text.now }
{
    text.iter().all(|byte| continues_word(*byte))
}

#[tactic(auto, unfolding(crate::specs::Words::is_word))]
fn is_word(text: &[u8]) -> bool
    ensures word { result ≡ is_word text.now }
    ensures short { result ≡ true → length text.now ≤ 24 }
{
    match text {
        [] => false,
        [first, rest @ ..] => starts_word(*first) && rest.len() < MOST_BYTES && all_continue(rest),
    }
}

impl Default for Word {
    ghost is_default = { λ w. w ≡ 95 ∷ [] };

    /// The word `_`.
    fn default() -> Word {
        let mut bytes = [0; 24];
        bytes[0] = b'_';
        Word { bytes, len: 1 }
    }
}

impl PartialEq for Word {
    ghost eq = { pointwise nat_eq };

    ghost laws = { partial_equiv_from_equiv nat_list_eq_equiv };

    fn eq(&self, other: &Word) -> bool {
        self.bytes() == other.bytes()
    }
}

impl Eq for Word {
    ghost laws = { nat_list_eq_equiv };
}

impl PartialOrd for Word {
    ghost partial_cmp = { as_partial_cmp (slice_cmp nat_cmp) };

    ghost laws = { partial_order_from_agreeing_total (slice_cmp nat_cmp) nat_list_cmp_total (λ v w. refl) bytes_ties };

    fn partial_cmp(&self, other: &Word) -> Option<Ordering> {
        Some(self.bytes().cmp(other.bytes()))
    }
}

impl Ord for Word {
    ghost cmp = { slice_cmp nat_cmp };

    ghost total = { nat_list_cmp_total };

    ghost matches_partial_cmp = { λ v w. refl };

    ghost matches_eq = { bytes_ties };

    fn cmp(&self, other: &Word) -> Ordering {
        self.bytes().cmp(other.bytes())
    }
}

impl Hash for Word {
    ghost hash_input = { fed.slice fed.u8 };

    ghost respects_eq = { Prim.search (hashing, rules) };

    fn hash<H: Hasher>(&self, state: &mut H) {
        self.bytes().hash(state);
    }
}
