//! Lines that make a base.
ghost use Rattle.std.specs.Prelude.{◌≡◌, ◌≤◌, length, true, false, MatchOption};
ghost use Rattle.std.specs.List.{list_all, prefix_len};
ghost use Rattle.script_text.specs.Names.{same_codes, is_keyword, has_no_minus, is_name, is_kind, is_long_kind, kind_text, long_text};
ghost use Rattle.script_text.specs.Lines.{first_piece, behind_piece, behind_spaces, space, no_space, is_new};

use crate::kinds::{KindName, LongKind};
use elem::Word;

/// Whether two texts are the same.
pub fn is_text(text: &[u8], other: &[u8]) -> bool
    ensures { result ≡ same_codes text.now other.now }
{
    text == other
}

fn has_no_minus(text: &[u8]) -> bool
    ensures { result ≡ has_no_minus text.now }
{
    text.iter().all(|byte| *byte != b'-')
}

fn is_keyword(text: &[u8]) -> bool
    ensures { result ≡ is_keyword text.now }
{
    is_text(text, b"new") || is_text(text, b"let") || is_text(text, b"it")
}

/// Whether a word may be a name: it has no `-` and is no keyword.
#[tactic(auto, unfolding(crate::specs::Names::is_name))]
pub fn is_name(word: &Word) -> bool
    ensures { result ≡ is_name word.now }
{
    let bytes = word.bytes();
    has_no_minus(bytes) && !is_keyword(bytes)
}

fn long_kind(text: &[u8]) -> Option<LongKind>
    ensures { MatchOption result (is_long_kind text.now ≡ false) (λ k. (is_long_kind text.now ≡ true) × (text.now ≡ long_text k)) }
{
    if is_text(text, b"UndirectedValueGraphLoops") {
        Some(LongKind::UndirectedValueGraphLoops)
    } else if is_text(text, b"ImmutableSetMultimapBuilder") {
        Some(LongKind::ImmutableSetMultimapBuilder)
    } else if is_text(text, b"ImmutableListMultimapBuilder") {
        Some(LongKind::ImmutableListMultimapBuilder)
    } else {
        None
    }
}

/// What the text is for a kind: a word, or one of the three long names.
#[tactic(auto, unfolding(crate::specs::Names::is_kind))]
fn kind_name(text: &[u8]) -> Option<KindName>
    ensures { MatchOption result (is_kind text.now ≡ false) (λ k. (is_kind text.now ≡ true) × (kind_text k ≡ text.now)) }
{
    match Word::new(text) {
        Some(word) => Some(KindName::Word(word)),
        None => match long_kind(text) {
            Some(kind) => Some(KindName::Long(kind)),
            None => None,
        },
    }
}

#[tactic(auto, unfolding(crate::specs::Names::is_name))]
fn name(text: &[u8]) -> Option<Word>
    ensures { MatchOption result (is_name text.now ≡ false) (λ w. (is_name text.now ≡ true) × (w ≡ text.now)) }
{
    match Word::new(text) {
        Some(word) if is_name(&word) => Some(word),
        _ => None,
    }
}

fn space_run(text: &[u8]) -> usize
    ensures len { result ≡ prefix_len space text.now }
    ensures within { result ≤ length text.now }
{
    text.iter().take_while(|byte| **byte == b' ').count()
}

fn piece_run(text: &[u8]) -> usize
    ensures len { result ≡ prefix_len no_space text.now }
    ensures within { result ≤ length text.now }
{
    text.iter().take_while(|byte| **byte != b' ').count()
}

/// The first piece between spaces, and what is behind it.
fn cut_piece(text: &[u8]) -> (&[u8], &[u8])
    ensures piece { result.0.now ≡ first_piece text.now }
    ensures behind { result.1.now ≡ behind_piece text.now }
{
    let text = &text[space_run(text)..];
    text.split_at(piece_run(text))
}

fn is_blank(text: &[u8]) -> bool
    ensures { result ≡ list_all space text.now }
{
    text.iter().all(|byte| *byte == b' ')
}

/// The name and the kind of a line that makes a base: `new`, a name and a kind, with spaces between them.
pub fn new_line(line: &[u8]) -> Option<(Word, KindName)>
    ensures { MatchOption result (is_new line.now ≡ false) (λ r. (is_new line.now ≡ true) × (r.0 ≡ first_piece (behind_piece line.now)) × (kind_text r.1 ≡ first_piece (behind_piece (behind_piece line.now)))) }
{
    let (keyword, rest) = cut_piece(line);
    if !is_text(keyword, b"new") {
        return None;
    }
    let (name_text, rest) = cut_piece(rest);
    let (kind_text, rest) = cut_piece(rest);
    let base_name = name(name_text)?;
    let kind = kind_name(kind_text)?;
    if is_blank(rest) {
        Some((base_name, kind))
    } else {
        None
    }
}
