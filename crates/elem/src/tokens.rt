//! The tokens of a line.
ghost use Rattle.std.specs.Prelude.{◌≡◌, ◌≤◌, ℕ, length, IfSome, Some};
ghost use Rattle.std.specs.List.{prefix_len};
ghost use Rattle.elem.specs.Words.{continues_word, is_digit};
ghost use Rattle.elem.specs.declared.tokens.Token.{Token as AnyToken};
ghost use Rattle.elem.specs.Tokens.{begins_infinity, begins_dot, sign_of, kind_at, token_of, token_at, IsTokenAt};

use crate::spelling::read_number;
use crate::words::{Word, continues_word, is_digit, starts_word};

/// A token that is always spelled the same.
#[derive(Clone, Copy, Debug)]
pub enum Sign {
    /// `-∞`
    Lowest,
    /// `+∞`
    Highest,
    /// `..`
    Dots,
    /// `.`
    Dot,
    /// `,`
    Comma,
    /// `(`
    Open,
    /// `)`
    Close,
    /// `[`
    OpenSquare,
    /// `]`
    CloseSquare,
    /// `=`
    Equals,
}

/// A token of a line.
#[derive(Clone, Copy, Debug)]
pub enum Token {
    /// A letter or `_`, then letters, digits, `_` and `-`, at most 24 bytes in all.
    Word(Word),
    /// A whole number of 64 bits, spelled with no leading zero and not as `-0`.
    Number(i64),
    /// A sign.
    Sign(Sign),
}

/// What a token is by its first bytes.
#[derive(Clone, Copy)]
enum Kind {
    Word,
    Number,
    Sign(Sign),
}

#[tactic(auto, unfolding(crate::specs::Tokens::begins_infinity))]
fn begins_with_infinity(bytes: &[u8]) -> bool
    ensures { result ≡ begins_infinity bytes.now }
{
    matches!(bytes, [0xE2, 0x88, 0x9E, ..])
}

#[tactic(auto, unfolding(crate::specs::Tokens::begins_dot))]
fn begins_with_dot(bytes: &[u8]) -> bool
    ensures { result ≡ begins_dot bytes.now }
{
    matches!(bytes, [b'.', ..])
}

#[tactic(auto, unfolding(crate::specs::Tokens::sign_of))]
fn one_byte_sign(byte: u8) -> Option<Sign>
    ensures { result ≡ sign_of byte }
{
    match byte {
        b'.' => Some(Sign::Dot),
        b',' => Some(Sign::Comma),
        b'(' => Some(Sign::Open),
        b')' => Some(Sign::Close),
        b'[' => Some(Sign::OpenSquare),
        b']' => Some(Sign::CloseSquare),
        b'=' => Some(Sign::Equals),
        _ => None,
    }
}

fn word_run(bytes: &[u8]) -> usize
    ensures len { result ≡ prefix_len continues_word bytes.now }
    ensures within { result ≤ length bytes.now }
{
    bytes.iter().take_while(|b| continues_word(**b)).count()
}

fn digit_run(bytes: &[u8]) -> usize
    ensures len { result ≡ prefix_len is_digit bytes.now }
    ensures within { result ≤ length bytes.now }
{
    bytes.iter().take_while(|b| is_digit(**b)).count()
}

#[tactic(auto, unfolding(crate::specs::Tokens::kind_at))]
fn leading_kind(text: &[u8]) -> Option<(Kind, usize)>
    ensures { result ≡ kind_at text.now }
{
    let [first, rest @ ..] = text else {
        return None;
    };
    if starts_word(*first) {
        return Some((Kind::Word, word_run(rest) + 1));
    }
    if *first == b'-' && begins_with_infinity(rest) {
        return Some((Kind::Sign(Sign::Lowest), 4));
    }
    if *first == b'-' || is_digit(*first) {
        return Some((Kind::Number, digit_run(rest) + 1));
    }
    if *first == b'+' && begins_with_infinity(rest) {
        return Some((Kind::Sign(Sign::Highest), 4));
    }
    if *first == b'.' && begins_with_dot(rest) {
        return Some((Kind::Sign(Sign::Dots), 2));
    }
    match one_byte_sign(*first) {
        Some(sign) => Some((Kind::Sign(sign), 1)),
        None => None,
    }
}

fn token_of(kind: Kind, spelled: &[u8]) -> Option<Token>
    ensures { result ≡ token_of kind spelled.now }
{
    match kind {
        Kind::Word => match Word::new(spelled) {
            Some(word) => Some(Token::Word(word)),
            None => None,
        },
        Kind::Number => match read_number(spelled) {
            Some(number) => Some(Token::Number(number)),
            None => None,
        },
        Kind::Sign(sign) => Some(Token::Sign(sign)),
    }
}

/// The token at the front of the text and its length in bytes, the token being as long as possible.
pub fn next_token(text: &[u8]) -> Option<(Token, usize)>
    ensures exact { result ≡ token_at text.now }
    ensures found { IfSome result (λ x. IsTokenAt text.now x.0 x.1) }
    ensures only { (t : AnyToken) (len : ℕ) → IsTokenAt text.now t len → result ≡ Some (t, len) }
{
    let (kind, len) = leading_kind(text)?;
    let token = token_of(kind, &text[..len])?;
    Some((token, len))
}
