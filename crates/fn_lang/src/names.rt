//! The names of the language, and what stands in their brackets.
ghost use Rattle.std.specs.Prelude.{◌≡◌};
ghost use Rattle.fn_lang.specs.Reading.{same_codes, shape_of, pred_shape, pair_shape, func_shape};

use crate::leaves::{Map, Test};
use crate::parts::Part;

/// What stands in brackets.
#[derive(Clone, Copy, Debug)]
pub enum Sort {
    Pred,
    PairPred,
    Func,
}

/// A name whose brackets hold an element, a number or a word.
#[derive(Clone, Copy, Debug)]
pub enum Given {
    Plus,
    Times,
    Below,
    Above,
    Same,
    Const,
    Starts,
    Prefix,
}

/// One to three of the sorts, with commas between them and a bracket behind them.
#[derive(Clone, Copy, Debug)]
pub enum Inner {
    One(Sort),
    Two(Sort, Sort),
    Three(Sort, Sort, Sort),
}

/// What a name stands for.
#[derive(Clone, Copy, Debug)]
pub enum Shape {
    /// A part with nothing in its brackets, which may be left out.
    Alone(Part),
    /// A part that takes what is given in its brackets.
    Given(Given),
    /// A part with others in its brackets.
    Node(Part, Inner),
}

fn is_text(text: &[u8], other: &[u8]) -> bool
    ensures { result ≡ same_codes text.now other.now }
{
    text == other
}

#[tactic(auto, unfolding(crate::specs::Reading::pred_shape))]
fn pred_shape(name: &[u8]) -> Option<Shape>
    ensures { result ≡ pred_shape name.now }
{
    if is_text(name, b"any") {
        Some(Shape::Alone(Part::Test(Test::Any)))
    } else if is_text(name, b"isInt") {
        Some(Shape::Alone(Part::Test(Test::IsInt)))
    } else if is_text(name, b"even") {
        Some(Shape::Alone(Part::Test(Test::Even)))
    } else if is_text(name, b"odd") {
        Some(Shape::Alone(Part::Test(Test::Odd)))
    } else if is_text(name, b"lt") {
        Some(Shape::Given(Given::Below))
    } else if is_text(name, b"gt") {
        Some(Shape::Given(Given::Above))
    } else if is_text(name, b"eq") {
        Some(Shape::Given(Given::Same))
    } else if is_text(name, b"starts") {
        Some(Shape::Given(Given::Starts))
    } else if is_text(name, b"and") {
        Some(Shape::Node(Part::And, Inner::Two(Sort::Pred, Sort::Pred)))
    } else if is_text(name, b"or") {
        Some(Shape::Node(Part::Or, Inner::Two(Sort::Pred, Sort::Pred)))
    } else if is_text(name, b"not") {
        Some(Shape::Node(Part::Not, Inner::One(Sort::Pred)))
    } else {
        None
    }
}

#[tactic(auto, unfolding(crate::specs::Reading::pair_shape))]
fn pair_shape(name: &[u8]) -> Option<Shape>
    ensures { result ≡ pair_shape name.now }
{
    if is_text(name, b"key") {
        Some(Shape::Node(Part::Key, Inner::One(Sort::Pred)))
    } else if is_text(name, b"value") {
        Some(Shape::Node(Part::Value, Inner::One(Sort::Pred)))
    } else if is_text(name, b"and") {
        Some(Shape::Node(Part::And, Inner::Two(Sort::PairPred, Sort::PairPred)))
    } else if is_text(name, b"or") {
        Some(Shape::Node(Part::Or, Inner::Two(Sort::PairPred, Sort::PairPred)))
    } else if is_text(name, b"not") {
        Some(Shape::Node(Part::Not, Inner::One(Sort::PairPred)))
    } else {
        None
    }
}

#[tactic(auto, unfolding(crate::specs::Reading::func_shape))]
fn func_shape(name: &[u8]) -> Option<Shape>
    ensures { result ≡ func_shape name.now }
{
    if is_text(name, b"plus") {
        Some(Shape::Given(Given::Plus))
    } else if is_text(name, b"times") {
        Some(Shape::Given(Given::Times))
    } else if is_text(name, b"neg") {
        Some(Shape::Alone(Part::Map(Map::Negate)))
    } else if is_text(name, b"len") {
        Some(Shape::Alone(Part::Map(Map::Length)))
    } else if is_text(name, b"const") {
        Some(Shape::Given(Given::Const))
    } else if is_text(name, b"prefix") {
        Some(Shape::Given(Given::Prefix))
    } else if is_text(name, b"then") {
        Some(Shape::Node(Part::Then, Inner::Two(Sort::Func, Sort::Func)))
    } else if is_text(name, b"when") {
        Some(Shape::Node(Part::When, Inner::Three(Sort::Pred, Sort::Func, Sort::Func)))
    } else {
        None
    }
}

/// What a name stands for where this sort is wanted.
pub fn shape_of(sort: Sort, name: &[u8]) -> Option<Shape>
    ensures { result ≡ shape_of sort name.now }
{
    match sort {
        Sort::Pred => pred_shape(name),
        Sort::PairPred => pair_shape(name),
        Sort::Func => func_shape(name),
    }
}
