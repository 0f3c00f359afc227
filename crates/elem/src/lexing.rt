//! A text as tokens with spaces between them.
ghost use Rattle.std.specs.Prelude.{◌≡◌, ◌≢◌, ◌<◌, ◌≤◌, ◌↔◌, length, slice_index, IfSome, IsSomeAnd, List, Some};
ghost use Rattle.elem.specs.declared.lexing.Lexeme.{Lexeme as AnyLexeme};
ghost use Rattle.elem.specs.Lexing.{lexed_from, lexed, IsAhead, IsBehind, Spells};

use crate::tokens::{Sign, Token, next_token};
use arrayvec::ArrayVec;

/// A token and its place in a text: its first byte, and the byte behind it.
#[derive(Clone, Copy, Debug)]
pub struct Lexeme {
    pub token: Token,
    pub start: usize,
    pub end: usize,
}

impl Default for Lexeme {
    ghost use Rattle.std.specs.Prelude.{◌≡◌};
    ghost use Rattle.elem.specs.declared.tokens.Sign.TheVariants.{Comma};
    ghost use Rattle.elem.specs.declared.tokens.Token.TheVariants.{Sign as sign_token};

    ghost is_default = { λ x. x ≡ record { token = sign_token Comma; start = 0; end = 0 } };

    /// A comma that takes no bytes, at the front of a text.
    fn default() -> Self {
        Lexeme {
            token: Token::Sign(Sign::Comma),
            start: 0,
            end: 0,
        }
    }
}

/// What stands next in a text, behind any spaces.
#[derive(Clone, Copy, Debug)]
pub enum Ahead {
    /// Nothing.
    Nothing,
    /// Bytes that are no token.
    Fault,
    /// A token.
    Next(Lexeme),
}

/// The place of the first byte that is no space, from a place on.
fn behind_spaces(text: &[u8], at: usize) -> usize
    requires { at ≤ length text.now }
    ensures same { lexed_from text.now result ≡ lexed_from text.now at }
    ensures within { (at ≤ result) × (result ≤ length text.now) }
    ensures stop { result < length text.now → slice_index text.now result ≢ 32 }
{
    let mut start = at;
    while start < text.len() {
        if text[start] != b' ' {
            return start;
        }
        start += 1;
    }
    start
}

/// What stands next in a text from a place on, and its place.
pub fn next_lexeme(text: &[u8], at: usize) -> Ahead
    requires { at ≤ length text.now }
    ensures ahead { IsAhead text.now at result }
    ensures place { IsBehind text.now at result }
{
    let start = behind_spaces(text, at);
    if start == text.len() {
        return Ahead::Nothing;
    }
    match next_token(&text[start..]) {
        Some((token, len)) => Ahead::Next(Lexeme {
            token,
            start,
            end: start + len,
        }),
        None => Ahead::Fault,
    }
}

/// The tokens of a text, where it is one of at most `N` tokens with spaces between them.
pub fn lex<const N: usize>(text: &[u8]) -> Option<ArrayVec<Lexeme, N>>
    ensures found { IfSome result (λ v. lexed text.now ≡ Some v.items) }
    ensures only { (xs : List AnyLexeme) → lexed text.now ≡ Some xs → length xs ≤ N → IsSomeAnd result (λ v. v.items ≡ xs) }
    ensures tokens { (xs : List AnyLexeme) → (lexed text.now ≡ Some xs) ↔ Spells 0 xs text.now }
{
    let mut found = ArrayVec::new();
    let mut at = 0;
    loop {
        match next_lexeme(text, at) {
            Ahead::Nothing => return Some(found),
            Ahead::Fault => return None,
            Ahead::Next(lexeme) => {
                if found.is_full() {
                    return None;
                }
                let end = lexeme.end;
                found.push(lexeme);
                at = end;
            }
        }
    }
}

#[cfg(test)]
mod tests {
    use super::*;

    #[test]
    fn cuts_a_text_into_tokens(rt: HostRuntime) {
        let Some(found) = lex::<8>(" let x=1 .. -∞ ".as_bytes()) else {
            assert!(rt; false, "a text of tokens");
            return;
        };
        assert!(rt; found.len() == 6, "six tokens");
        assert!(rt;
            matches!(
                next_lexeme(b"a  ,", 1),
                Ahead::Next(Lexeme {
                    start: 3,
                    end: 4,
                    ..
                })
            ),
            "a comma"
        );
        assert!(rt; lex::<2>(b"a b c").is_none(), "too many");
        for text in [
            "a\tb",
            "-0",
            "007",
            "9223372036854775808",
            "abcdefghijklmnopqrstuvwxy",
            "-",
        ] {
            assert!(rt; lex::<8>(text.as_bytes()).is_none(), "{text}");
        }
        assert!(rt; lex::<8>(&[0xE2]).is_none(), "a lone byte of ∞");
    }
}
