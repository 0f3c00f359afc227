//! The reader of lines.
ghost use Rattle.std.specs.Prelude.{◌≡◌, ◌↔◌, ◌≤◌, ◌<◌, ℕ, List, length, MatchOption, None, Some};
ghost use Rattle.elem.specs.Lexing.{lexed, lexed_from, with_first};
ghost use Rattle.elem.specs.declared.lexing.Lexeme.{Lexeme as AnyLexeme};
ghost use Rattle.elem.specs.declared.tokens.Token.TheVariants.{Word as word_token};
ghost use Rattle.elem.specs.declared.tokens.Sign.TheVariants.{Equals};
ghost use Rattle.elem.specs.declared.tokens.Token.TheVariants.{Sign as sign_token};
ghost use Rattle.script_text.specs.declared.lines.Slice.{Slice as AnySlice};
ghost use Rattle.script_text.specs.Trees.{Call, Expression, Tree, line_view, expr_view, map_tree, map_expression, part_of};
ghost use Rattle.script_text.specs.Lines.{Bound, is_comment, expression_from, bound_from, line_with, tree_or_fault, form_of, placed_line, line_of, IsLine, HasWord, HasEquals};

use crate::lines::{Line, Part};
use crate::news::{is_name, is_text, new_line};
use crate::parts::read_parts;
use arrayvec::ArrayVec;
use elem::{Ahead, Sign, Token, Word, next_lexeme};

/// The most bytes of a line.
const MOST_BYTES: usize = 1024;

#[tactic(auto, unfolding(crate::specs::Lines::is_comment))]
fn is_comment(line: &[u8]) -> bool
    ensures { result ≡ is_comment line.now }
{
    for byte in line {
        if *byte != b' ' {
            return *byte == b'#';
        }
    }
    false
}

fn expression(line: &[u8], head: Word, at: usize, parts: &mut ArrayVec<Part, 512>) -> Option<()>
    requires short { length line.now ≤ 1024 }
    requires within { at ≤ length line.now }
    ensures { MatchOption result (expression_from line.now head at ≡ None) (λ u. (x : Expression (Call AnySlice)) × (expression_from line.now head at ≡ Some x) × (expr_view head parts.new.items ≡ map_expression part_of x)) }
{
    if !is_name(&head) {
        return None;
    }
    read_parts(line, at, parts)
}

/// The word that stands next, and the place behind it.
fn word_at(line: &[u8], at: usize) -> Option<(Word, usize)>
    requires { at ≤ length line.now }
    ensures word { HasWord line.now at result }
    ensures within { MatchOption result (Unit {0}) (λ r. r.1 ≤ length line.now) }
{
    match next_lexeme(line, at) {
        Ahead::Next(token) => match &token.token {
            Token::Word(word) => Some((*word, token.end)),
            _ => None,
        },
        _ => None,
    }
}

/// The place behind the `=` that stands next.
fn equals_at(line: &[u8], at: usize) -> Option<usize>
    requires { at ≤ length line.now }
    ensures equals { HasEquals line.now at result }
    ensures within { MatchOption result (Unit {0}) (λ r. r ≤ length line.now) }
{
    match next_lexeme(line, at) {
        Ahead::Next(token) => match token.token {
            Token::Sign(Sign::Equals) => Some(token.end),
            _ => None,
        },
        _ => None,
    }
}

/// A name, `=` and an expression: the name, and the name at the expression's head.
fn bound(line: &[u8], at: usize, parts: &mut ArrayVec<Part, 512>) -> Option<(Word, Word)>
    requires short { length line.now ≤ 1024 }
    requires within { at ≤ length line.now }
    ensures { MatchOption result (bound_from line.now at ≡ None) (λ r. (x : Expression (Call AnySlice)) × (bound_from line.now at ≡ Some (r.0, x)) × (expr_view r.1 parts.new.items ≡ map_expression part_of x)) }
{
    let (name, name_end) = word_at(line, at)?;
    let equals_end = equals_at(line, name_end)?;
    let (head, head_end) = word_at(line, equals_end)?;
    if !is_name(&name) {
        return None;
    }
    expression(line, head, head_end, parts)?;
    Some((name, head))
}

/// The line that begins with a word, which the place stands behind.
fn with_word(line: &[u8], word: Word, at: usize, parts: &mut ArrayVec<Part, 512>) -> Line
    requires short { length line.now ≤ 1024 }
    requires within { at ≤ length line.now }
    ensures { line_view result parts.new.items ≡ map_tree part_of (tree_or_fault (line_with word) (lexed_from line.now at)) }
{
    if is_text(word.bytes(), b"let") {
        match bound(line, at, parts) {
            Some((name, head)) => Line::Let { name, head },
            None => Line::Syntax,
        }
    } else if is_text(word.bytes(), b"it") {
        match bound(line, at, parts) {
            Some((name, head)) => Line::It { name, head },
            None => Line::Syntax,
        }
    } else {
        match expression(line, word, at, parts) {
            Some(()) => Line::Eval { head: word },
            None => Line::Syntax,
        }
    }
}

/// The line that the tokens are.
fn statement(line: &[u8], parts: &mut ArrayVec<Part, 512>) -> Line
    requires { length line.now ≤ 1024 }
    ensures { line_view result parts.new.items ≡ map_tree part_of (tree_or_fault form_of (lexed line.now)) }
{
    match next_lexeme(line, 0) {
        Ahead::Nothing => Line::Blank,
        Ahead::Fault => Line::Syntax,
        Ahead::Next(token) => match &token.token {
            Token::Word(word) => with_word(line, *word, token.end, parts),
            _ => Line::Syntax,
        },
    }
}

/// The line, its tests in their order.
#[tactic(auto, unfolding(crate::specs::Lines::placed_line))]
fn placed_line(line: &[u8], parts: &mut ArrayVec<Part, 512>) -> Line
    ensures { line_view result parts.new.items ≡ map_tree part_of (placed_line line.now) }
{
    if line.len() > MOST_BYTES {
        return Line::Long;
    }
    if is_comment(line) {
        return Line::Blank;
    }
    match new_line(line) {
        Some((name, kind)) => Line::New { name, kind },
        None => statement(line, parts),
    }
}

/// What a line is, without its newline. It takes no memory.
///
/// A line of more than 1,024 bytes is `Long` whatever it holds, and what is in no form of the grammar is `Syntax`.
/// The words behind the head of an expression are left in `parts`, in the place of those of an earlier line. The
/// arguments of a part are places in the line, where the tree has the pieces that stand there.
pub fn read_line(line: &[u8], parts: &mut ArrayVec<Part, 512>) -> Line
    ensures placed { line_view result parts.new.items ≡ map_tree part_of (placed_line line.now) }
    ensures grammar { (t : Tree (Call (List ℕ))) → IsLine line.now t ↔ (line_of line.now ≡ t) }
{
    placed_line(line, parts)
}

#[cfg(test)]
mod tests {
    use super::*;
    use crate::lines::Slice;

    fn form(line: &Line) -> &'static str {
        match line {
            Line::Blank => "blank",
            Line::New { .. } => "new",
            Line::Let { .. } => "let",
            Line::It { .. } => "it",
            Line::Eval { .. } => "eval",
            Line::Syntax => "syntax",
            Line::Long => "long",
        }
    }

    fn line_form(text: &[u8]) -> &'static str {
        let mut parts = ArrayVec::new();
        form(&read_line(text, &mut parts))
    }

    #[test]
    fn tells_the_form_of_a_line(rt: HostRuntime) {
        for (text, wanted) in [
            ("", "blank"),
            ("   ", "blank"),
            ("  # any \t\r bytes (", "blank"),
            ("new m LinkedHashMap", "new"),
            (" new  g   UndirectedValueGraphLoops ", "new"),
            ("new b ImmutableSetMultimapBuilder", "new"),
            ("new b ImmutableListMultimapBuilder", "new"),
            ("new b ImmutableListMultimapBuilders", "syntax"),
            ("new m", "syntax"),
            ("new it TreeMap", "syntax"),
            ("new a-b TreeMap", "syntax"),
            ("newm TreeMap", "syntax"),
            ("let e = m.filterValues(even)", "let"),
            ("let z=t", "let"),
            ("let z = ", "syntax"),
            ("it i = s.iterator", "it"),
            ("m", "eval"),
            ("m . put ( 1 , b )", "eval"),
            ("m.filter(and(not(any), lt(3))).size()", "eval"),
            ("r.add([1..3))", "eval"),
            ("r.add((-∞..+∞))", "eval"),
            ("r.add(( 1 .. b ])", "eval"),
            ("m.put(1,)", "syntax"),
            ("m.put(1", "syntax"),
            ("m.put(1))", "syntax"),
            ("m..put", "syntax"),
            ("m.7", "syntax"),
            ("let", "syntax"),
            ("m.put(-0)", "syntax"),
            ("m.put(01)", "syntax"),
            ("m.put(9223372036854775808)", "syntax"),
            ("m.put([-∞..3])", "syntax"),
            ("m.abcdefghijklmnopqrstuvwxy", "syntax"),
            ("m\t.size", "syntax"),
            ("m.size\r", "syntax"),
        ] {
            let line = line_form(text.as_bytes());
            assert!(rt; line == wanted, "{text}: {line}");
        }
    }

    #[test]
    fn meets_any_bytes(rt: HostRuntime) {
        assert!(rt; line_form(&[0xE2]) == "syntax", "a lone byte of ∞");
        assert!(rt; line_form(&[b'('; 1024]) == "syntax", "1,024 brackets");
        assert!(rt; line_form(&[b' '; 1024]) == "blank", "1,024 spaces");
        assert!(rt; line_form(&[b'#'; 1025]) == "long", "a long comment");
    }

    #[test]
    fn gives_the_places_of_arguments(rt: HostRuntime) {
        let mut parts = ArrayVec::new();
        let line = read_line(b"t.put( a , f(1,2),[3 .. 4], 5).size", &mut parts);
        assert!(rt; form(&line) == "eval", "an expression");
        let parts = parts.as_slice();
        assert!(rt;
            parts.len() == 2 && parts[0].count == 4 && parts[1].count == 0,
            "two parts"
        );
        assert!(rt; parts[0].args[0] == Slice { start: 7, end: 8 }, "a");
        assert!(rt; parts[0].args[1] == Slice { start: 11, end: 17 }, "f(1,2)");
        assert!(rt;
            parts[0].args[2] == Slice { start: 18, end: 26 },
            "[3 .. 4]"
        );
        assert!(rt; parts[1].args[0] == Slice { start: 0, end: 0 }, "none");
    }

    #[test]
    fn keeps_a_long_kind(rt: HostRuntime) {
        let mut parts = ArrayVec::new();
        let line = read_line(b"new g UndirectedValueGraphLoops", &mut parts);
        let Line::New { name, kind } = line else {
            assert!(rt; false, "a base");
            return;
        };
        assert!(rt; name.bytes() == b"g".as_slice(), "its name");
        assert!(rt;
            kind.bytes() == b"UndirectedValueGraphLoops".as_slice(),
            "its kind"
        );
    }
}
