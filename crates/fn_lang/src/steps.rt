//! What is still wanted while a predicate or function is read, and what a token does to it.
ghost use Rattle.std.specs.Prelude.{◌≡◌, None, false};
ghost use Rattle.std.specs.Option.{option_map};
ghost use Rattle.fn_lang.specs.Reading.{shape_of, given_part, step_of, shape_step, inner_step, is_open};

use crate::leaves::{Map, Test};
use crate::names::{Given, Inner, Shape, Sort, shape_of};
use crate::parts::Part;
use elem::{Sign, Token, element};

/// What is still to come.
#[derive(Clone, Copy, Debug)]
pub enum Want {
    /// A closing bracket. It stands first, so that its bytes are zeros and a stack of them is cleared in one go.
    Close,
    /// A predicate or function.
    Tree(Sort),
    /// An opening bracket, and these behind it.
    Open(Inner),
    /// A comma, and these behind it.
    Comma(Inner),
    /// An opening bracket, what is given to the name, and a closing bracket.
    OpenGiven(Given),
    /// What is given to the name.
    Given(Given),
}

impl Default for Want {
    ghost use Rattle.std.specs.Prelude.{◌≡◌};
    ghost use Rattle.fn_lang.specs.declared.steps.Want.TheVariants.{Close};

    ghost is_default = { λ w. w ≡ Close };

    /// A closing bracket.
    fn default() -> Self {
        Want::Close
    }
}

/// What a token does: the part that it makes, what is wanted next and later, and whether empty brackets may follow.
#[derive(Clone, Copy, Debug)]
pub struct Step {
    pub part: Option<Part>,
    pub next: Option<Want>,
    pub later: Option<Want>,
    pub bare: bool,
}

/// The part of a name with what is given to it.
fn given_part(given: Given, token: &Token) -> Option<Part>
    ensures { result ≡ given_part given token.now }
{
    match (given, token) {
        (Given::Plus, Token::Number(number)) => Some(Part::Map(Map::Plus(*number))),
        (Given::Times, Token::Number(number)) => Some(Part::Map(Map::Times(*number))),
        (Given::Below, _) => Some(Part::Test(Test::Below(element(token)?))),
        (Given::Above, _) => Some(Part::Test(Test::Above(element(token)?))),
        (Given::Same, _) => Some(Part::Test(Test::Same(element(token)?))),
        (Given::Const, _) => Some(Part::Map(Map::Const(element(token)?))),
        (Given::Starts, Token::Word(word)) => Some(Part::Test(Test::Starts(*word))),
        (Given::Prefix, Token::Word(word)) => Some(Part::Map(Map::Prefix(*word))),
        _ => None,
    }
}

fn plain(next: Option<Want>, later: Option<Want>) -> Step
    ensures { result ≡ record { part = None; next = next; later = later; bare = false } }
{
    Step {
        part: None,
        next,
        later,
        bare: false,
    }
}

/// What a name does.
fn shape_step(shape: Shape) -> Step
    ensures { result ≡ shape_step shape }
{
    match shape {
        Shape::Alone(part) => Step {
            part: Some(part),
            next: None,
            later: None,
            bare: true,
        },
        Shape::Given(given) => plain(Some(Want::OpenGiven(given)), None),
        Shape::Node(part, inner) => Step {
            part: Some(part),
            next: Some(Want::Open(inner)),
            later: None,
            bare: false,
        },
    }
}

/// What is wanted behind the bracket or comma that these stand behind.
fn inner_step(inner: Inner) -> Step
    ensures { result ≡ inner_step inner }
{
    match inner {
        Inner::One(a) => plain(Some(Want::Tree(a)), Some(Want::Close)),
        Inner::Two(a, b) => plain(Some(Want::Tree(a)), Some(Want::Comma(Inner::One(b)))),
        Inner::Three(a, b, c) => plain(Some(Want::Tree(a)), Some(Want::Comma(Inner::Two(b, c)))),
    }
}

fn name_step(sort: Sort, name: &[u8]) -> Option<Step>
    ensures { result ≡ option_map shape_step (shape_of sort name.now) }
{
    match shape_of(sort, name) {
        Some(shape) => Some(shape_step(shape)),
        None => None,
    }
}

/// What a token does where this is wanted.
pub fn step_of(want: Want, token: &Token) -> Option<Step>
    ensures { result ≡ step_of want token.now }
{
    match (want, token) {
        (Want::Tree(sort), Token::Word(word)) => name_step(sort, word.bytes()),
        (Want::Open(inner), Token::Sign(Sign::Open)) => Some(inner_step(inner)),
        (Want::Comma(inner), Token::Sign(Sign::Comma)) => Some(inner_step(inner)),
        (Want::OpenGiven(given), Token::Sign(Sign::Open)) => {
            Some(plain(Some(Want::Given(given)), Some(Want::Close)))
        }
        (Want::Given(given), _) => match given_part(given, token) {
            Some(part) => Some(Step {
                part: Some(part),
                next: None,
                later: None,
                bare: false,
            }),
            None => None,
        },
        (Want::Close, Token::Sign(Sign::Close)) => Some(plain(None, None)),
        _ => None,
    }
}

/// Whether the token is an opening bracket.
pub fn is_open(token: &Token) -> bool
    ensures { result ≡ is_open token.now }
{
    matches!(token, Token::Sign(Sign::Open))
}
