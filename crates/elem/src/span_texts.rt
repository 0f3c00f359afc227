//! Reading and writing ranges.
ghost use Rattle.std.specs.Prelude.{◌≡◌, ◌↔◌, ◌≤◌, ◌+◌, ◌++◌, [], length, IfOk, Ok, Err, Some};
ghost use Rattle.elem.specs.Spelling.{spelling};
ghost use Rattle.elem.specs.Elements.{IsElem};
ghost use Rattle.elem.specs.Cuts.{IsCut};
ghost use Rattle.elem.specs.Spans.{IsSpan};
ghost use Rattle.elem.specs.SpanTexts.{element_of, low_of, high_of, span_of, extent, span_text, span_spelling, low_text, high_text, checked, IsSpanText, IsInvalid};
ghost use Rattle.elem.specs.declared.spans.Span.{Span as AnySpan};
ghost use Rattle.elem.specs.declared.span_texts.SpanFault.TheVariants.{NotGrammar, Invalid};

use crate::cuts::Cut;
use crate::elements::Elem;
use crate::lexing::{Lexeme, lex};
use crate::orders::Natural;
use crate::spans::Span;
use crate::spelling::write_elem;
use crate::tokens::{Sign, Token};
use arrayvec::ArrayVec;
use thiserror::Error;

/// Why a text gives no range.
#[derive(Clone, Copy, Debug, PartialEq, Eq, Drop, Error)]
pub enum SpanFault {
    /// The text is not in the grammar of ranges.
    #[error("not a range")]
    NotGrammar,
    /// The lower end is greater than the upper, or the form is `(v..v)`.
    #[error("the ends of the range are out of order")]
    Invalid,
}

/// The element that a token is.
pub fn element(token: &Token) -> Option<Elem>
    ensures { result ≡ element_of token.now }
{
    match token {
        Token::Word(word) => Some(Elem::Text(*word)),
        Token::Number(number) => Some(Elem::Int(*number)),
        Token::Sign(_) => None,
    }
}

fn low_cut(bracket: &Token, end: &Token) -> Option<Cut>
    ensures { result ≡ low_of bracket.now end.now }
{
    match (bracket, end) {
        (Token::Sign(Sign::Open), Token::Sign(Sign::Lowest)) => Some(Cut::Start),
        (Token::Sign(Sign::Open), _) => Some(Cut::Above(element(end)?)),
        (Token::Sign(Sign::OpenSquare), _) => Some(Cut::Below(element(end)?)),
        _ => None,
    }
}

fn high_cut(bracket: &Token, end: &Token) -> Option<Cut>
    ensures { result ≡ high_of bracket.now end.now }
{
    match (bracket, end) {
        (Token::Sign(Sign::Close), Token::Sign(Sign::Highest)) => Some(Cut::End),
        (Token::Sign(Sign::Close), _) => Some(Cut::Below(element(end)?)),
        (Token::Sign(Sign::CloseSquare), _) => Some(Cut::Above(element(end)?)),
        _ => None,
    }
}

#[tactic(auto, unfolding(crate::specs::SpanTexts::span_of))]
fn span_of(tokens: &[Lexeme]) -> Option<Span>
    ensures { result ≡ span_of tokens.now }
{
    let [open, low, dots, high, close] = tokens else {
        return None;
    };
    let Token::Sign(Sign::Dots) = dots.token else {
        return None;
    };
    let lo = low_cut(&open.token, &low.token)?;
    let hi = high_cut(&close.token, &high.token)?;
    Some(Span { lo, hi })
}

#[tactic(auto, unfolding(crate::specs::SpanTexts::extent))]
fn extent(tokens: &[Lexeme]) -> (usize, usize)
    ensures { result ≡ extent tokens.now }
{
    match tokens {
        [] => (0, 0),
        [only] => (only.start, only.end),
        [first, .., last] => (first.start, last.end),
    }
}

/// The range that the text is, its ends in whatever order.
fn parse_span(text: &[u8]) -> Option<Span>
    ensures { result ≡ span_text text.now }
{
    let found: ArrayVec<Lexeme, 5> = lex(text)?;
    let tokens = found.as_slice();
    if extent(tokens) == (0, text.len()) {
        span_of(tokens)
    } else {
        None
    }
}

/// The range that the text is, with any spaces between its tokens and none at its two ends.
///
/// It is `NotGrammar` exactly where the text is no range, and `Invalid` exactly where it is one whose lower end is
/// greater than its upper end, or of the form `(v..v)`.
pub fn read_span(text: &[u8]) -> Result<Span, SpanFault>
    ensures exact { result ≡ checked (span_text text.now) }
    ensures found { IfOk result (λ s. IsSpanText text.now s × IsSpan s) }
    ensures only { (s : AnySpan) → IsSpanText text.now s → result ≡ checked (Some s) }
    ensures not_grammar { (result ≡ Err NotGrammar) ↔ ((s : AnySpan) → IsSpanText text.now s → ⊥) }
    ensures invalid { (result ≡ Err Invalid) ↔ ((s : AnySpan) × IsSpanText text.now s × IsInvalid s) }
{
    checked(parse_span(text))
}

/// The range, where its ends are in order.
fn checked(found: Option<Span>) -> Result<Span, SpanFault>
    ensures { result ≡ checked found }
{
    let Some(span) = found else {
        return Err(SpanFault::NotGrammar);
    };
    if span.hi.is_before::<Natural>(&span.lo) {
        Err(SpanFault::Invalid)
    } else {
        Ok(span)
    }
}

fn put(text: &mut ArrayVec<u8, 64>, bytes: &[u8])
    requires { length text.old.items + length bytes.now ≤ 64 }
    ensures { text.new.items ≡ text.old.items ++ bytes.now }
{
    let _ = text.try_extend_from_slice(bytes);
}

/// Does nothing; its contract says what is known of each element.
pub fn known(element: &Elem)
    ensures { IsElem element.now }
{
    match element {
        Elem::Int(number) => {
            let _value = *number;
        }
        Elem::Text(word) => {
            let _ = word.bytes();
        }
    }
}

fn put_element(text: &mut ArrayVec<u8, 64>, element: Elem)
    requires { length text.old.items + 24 ≤ 64 }
    ensures text { text.new.items ≡ text.old.items ++ spelling element }
    ensures short { length (spelling element) ≤ 24 }
    ensures known { IsElem element }
{
    known(&element);
    let spelled = write_elem(element);
    put(text, spelled.as_slice());
}

fn put_low(text: &mut ArrayVec<u8, 64>, cut: &Cut)
    requires { text.old.items ≡ [] }
    ensures text { text.new.items ≡ low_text cut.now }
    ensures short { length (low_text cut.now) ≤ 25 }
    ensures known { IsCut cut.now }
{
    match cut {
        Cut::Start => put(text, &[b'(', b'-', 0xE2, 0x88, 0x9E]),
        Cut::Below(element) => {
            put(text, b"[");
            put_element(text, *element);
        }
        Cut::Above(element) => {
            put(text, b"(");
            put_element(text, *element);
        }
        Cut::End => (),
    }
}

fn put_high(text: &mut ArrayVec<u8, 64>, cut: &Cut)
    requires { length text.old.items + 25 ≤ 64 }
    ensures text { text.new.items ≡ text.old.items ++ high_text cut.now }
    ensures known { IsCut cut.now }
{
    match cut {
        Cut::Start => (),
        Cut::Below(element) => {
            put_element(text, *element);
            put(text, b")");
        }
        Cut::Above(element) => {
            put_element(text, *element);
            put(text, b"]");
        }
        Cut::End => put(text, &[b'+', 0xE2, 0x88, 0x9E, b')']),
    }
}

/// The one printed spelling of a range, without spaces. It takes no memory.
///
/// A cut that a range has not, an upper end as the lower or a lower end as the upper, is spelled as nothing.
pub fn write_span(s: &Span) -> ArrayVec<u8, 64>
    ensures text { result.items ≡ span_spelling s.now }
    ensures read_back { IsSpan s.now → checked (span_text result.items) ≡ Ok s.now }
{
    let mut text = ArrayVec::new();
    put_low(&mut text, &s.lo);
    put(&mut text, b"..");
    put_high(&mut text, &s.hi);
    text
}

#[cfg(test)]
mod tests {
    use super::*;
    use crate::tokens::next_token;

    #[test]
    fn reads_and_prints_ranges(rt: HostRuntime) {
        for (text, printed) in [
            ("[1..3]", "[1..3]"),
            ("( 1 .. b-2 ]", "(1..b-2]"),
            ("(-∞..-7)", "(-∞..-7)"),
            ("[a..+∞)", "[a..+∞)"),
            ("(-∞..+∞)", "(-∞..+∞)"),
            ("[5..5)", "[5..5)"),
        ] {
            match read_span(text.as_bytes()) {
                Ok(span) => assert!(rt;
                    write_span(&span).as_slice() == printed.as_bytes(),
                    "{text}"
                ),
                Err(fault) => assert!(rt; false, "{text}: {fault}"),
            }
        }
    }

    #[test]
    fn names_the_fault(rt: HostRuntime) {
        for text in ["[3..1]", "(4..4)", "[a..1]"] {
            assert!(rt;
                read_span(text.as_bytes()) == Err(SpanFault::Invalid),
                "{text}"
            );
        }
        for text in [
            "",
            " [1..3]",
            "[1..3] ",
            "[1...3]",
            "[-∞..3]",
            "(1..+∞]",
            "(+∞..3)",
            "[01..3]",
            "[-0..3]",
            "[1..3",
            "1..3",
            "[1..3]]",
        ] {
            assert!(rt;
                read_span(text.as_bytes()) == Err(SpanFault::NotGrammar),
                "{text}"
            );
        }
    }

    #[test]
    fn finds_elements_in_tokens(rt: HostRuntime) {
        let Some((token, len)) = next_token(b"ab-1.c") else {
            assert!(rt; false, "a word");
            return;
        };
        assert!(rt;
            len == 4 && element(&token).is_some(),
            "as long as possible"
        );
    }
}
