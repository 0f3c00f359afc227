//! What may stand next behind the name that an expression begins with.
ghost use Rattle.std.specs.Prelude.{◌≡◌, ◌<◌, ◌^◌};
ghost use Rattle.script_text.specs.Stages.{depth_of, begins, behind, end_step, range_step, same_depth, step, leave, turn_of, may_end, opens};

use elem::{Sign, Token, Word};

/// Where a reader stands within the arguments of a part.
#[derive(Clone, Copy, Debug)]
pub enum Within {
    /// Behind an opening bracket.
    First,
    /// Behind a comma.
    Next,
    /// Behind a word that is an argument or begins one.
    Named,
    /// Behind an argument.
    Done,
    /// Behind the `(` of a range.
    LowAny,
    /// Behind the `[` of a range.
    LowElement,
    /// Behind the lower end of a range.
    Dots,
    /// Behind the `..` of a range.
    High,
    /// Behind the upper end of a range.
    CloseAny,
    /// Behind the `+∞` of a range.
    CloseRound,
}

/// Where a reader stands behind the name that an expression begins with.
#[derive(Clone, Copy, Debug)]
pub enum Stage {
    /// Behind the name, or behind the arguments of a part.
    Ended,
    /// Behind a dot.
    Dotted,
    /// Behind the word of a part.
    Called,
    /// Within the arguments of a part, with this many brackets open besides its own.
    Inside(Within, usize),
}

/// What a token does.
#[derive(Clone, Copy, Debug)]
pub enum Turn {
    /// It goes on.
    To(Stage),
    /// It is the word of a part.
    Part(Word),
    /// It ends an argument of the part, and goes on.
    Argument(Stage),
}

/// What an argument is that begins with the token.
fn begins(token: &Token) -> Option<Within>
    ensures { result ≡ begins token.now }
{
    match token {
        Token::Number(_) => Some(Within::Done),
        Token::Word(_) => Some(Within::Named),
        Token::Sign(Sign::Open) => Some(Within::LowAny),
        Token::Sign(Sign::OpenSquare) => Some(Within::LowElement),
        _ => None,
    }
}

/// Where a reader stands behind an argument and the token.
fn behind(depth: usize, token: &Token) -> Option<(Within, usize)>
    ensures { result ≡ behind depth token.now }
{
    if depth == 0 {
        return None;
    }
    match token {
        Token::Sign(Sign::Comma) => Some((Within::Next, depth)),
        Token::Sign(Sign::Close) => Some((Within::Done, depth - 1)),
        _ => None,
    }
}

fn range_end(token: &Token, next: Within) -> Option<Within>
    ensures { result ≡ end_step token.now next }
{
    match token {
        Token::Number(_) | Token::Word(_) => Some(next),
        Token::Sign(_) => None,
    }
}

/// Where a reader stands behind a token within a range.
fn range_step(at: Within, token: &Token) -> Option<Within>
    ensures { result ≡ range_step at token.now }
{
    match (at, token) {
        (Within::LowAny, Token::Sign(Sign::Lowest)) => Some(Within::Dots),
        (Within::LowAny | Within::LowElement, _) => range_end(token, Within::Dots),
        (Within::Dots, Token::Sign(Sign::Dots)) => Some(Within::High),
        (Within::High, Token::Sign(Sign::Highest)) => Some(Within::CloseRound),
        (Within::High, _) => range_end(token, Within::CloseAny),
        (Within::CloseAny, Token::Sign(Sign::Close | Sign::CloseSquare)) => Some(Within::Done),
        (Within::CloseRound, Token::Sign(Sign::Close)) => Some(Within::Done),
        _ => None,
    }
}

fn with_depth(at: Option<Within>, depth: usize) -> Option<(Within, usize)>
    ensures { result ≡ same_depth depth at }
{
    match at {
        Some(at) => Some((at, depth)),
        None => None,
    }
}

/// One token of an argument, with this many brackets open besides the one of its part.
fn step(at: Within, depth: usize, token: &Token) -> Option<(Within, usize)>
    requires { depth < 2 ^ 32 }
    ensures { result ≡ step at depth token.now }
{
    match (at, token) {
        (Within::First, Token::Sign(Sign::Close)) if depth > 0 => Some((Within::Done, depth - 1)),
        (Within::First | Within::Next, _) => with_depth(begins(token), depth),
        (Within::Named, Token::Sign(Sign::Open)) => Some((Within::First, depth + 1)),
        (Within::Named | Within::Done, _) => behind(depth, token),
        _ => with_depth(range_step(at, token), depth),
    }
}

/// What a token does at the end of the part's arguments, or of one of them.
fn leave(at: Within, depth: usize, token: &Token) -> Option<Turn>
    ensures { result ≡ leave at depth token.now }
{
    if depth > 0 {
        return None;
    }
    match (at, token) {
        (Within::First, Token::Sign(Sign::Close)) => Some(Turn::To(Stage::Ended)),
        (Within::Named | Within::Done, Token::Sign(Sign::Comma)) => Some(Turn::Argument(
            Stage::Inside(Within::Next, 0),
        )),
        (Within::Named | Within::Done, Token::Sign(Sign::Close)) => Some(Turn::Argument(
            Stage::Ended,
        )),
        _ => None,
    }
}

/// What a token does.
pub fn turn_of(stage: Stage, token: &Token) -> Option<Turn>
    requires { depth_of stage < 2 ^ 32 }
    ensures { result ≡ turn_of stage token.now }
{
    match (stage, token) {
        (Stage::Ended | Stage::Called, Token::Sign(Sign::Dot)) => Some(Turn::To(Stage::Dotted)),
        (Stage::Dotted, Token::Word(word)) => Some(Turn::Part(*word)),
        (Stage::Called, Token::Sign(Sign::Open)) => Some(Turn::To(Stage::Inside(Within::First, 0))),
        (Stage::Inside(at, depth), _) => match step(at, depth, token) {
            Some((next, depth)) => Some(Turn::To(Stage::Inside(next, depth))),
            None => leave(at, depth, token),
        },
        _ => None,
    }
}

/// Whether an expression may end here.
pub fn may_end(stage: Stage) -> bool
    ensures { result ≡ may_end stage }
{
    matches!(stage, Stage::Ended | Stage::Called)
}

/// Whether the next token begins an argument of the part.
pub fn opens(stage: Stage) -> bool
    ensures { result ≡ opens stage }
{
    matches!(stage, Stage::Inside(Within::First | Within::Next, 0))
}
