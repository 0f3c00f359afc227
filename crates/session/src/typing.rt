//! The typing of the words behind a name.
ghost use Rattle.std.specs.Prelude.{◌≡◌, ◌≤◌, ℕ, true, List, length, IfOk, IfSome};
ghost use Rattle.std.specs.Option.{option_map, option_and_then};
ghost use Rattle.base_store.specs.Stored.{Stored};
ghost use Rattle.script_text.specs.Parts.{part_in};
ghost use Rattle.session.specs.Environment.{NamesWithin, named};
ghost use Rattle.session.specs.Following as spec;
ghost use Rattle.session.specs.Following.{HasCalls, IsTyped, asked, meant_in, parts_in};
ghost use Rattle.session.specs.Targets.{iterator_fault, shape_of};
ghost use Rattle.machine.specs.Languages.{known, only_if};
ghost use Rattle.machine.specs.Meanings as meaning;
ghost use Rattle.machine.specs.Parts.{text_at};
ghost use Rattle.machine.specs.Typing as typing;
ghost use Rattle.machine.specs.Typing.{typed_words};
ghost use Rattle.vocabulary.specs.Fits.{fits};
ghost use Rattle.vocabulary.specs.Known as table;
ghost use Rattle.vocabulary.specs.Shapes as shapes;
ghost use Rattle.vocabulary.specs.Words as words;
ghost use Rattle.vocabulary.specs.StepShapes.{apply_form};
ghost use Rattle.vocabulary.specs.declared.calls.Call.TheVariants as call;
ghost use Rattle.vocabulary.specs.declared.shapes.Shape.{Shape as AnyShape};

use crate::arguments::{fits_step, read_index, read_name};
use crate::bound::Bound;
use crate::names::IndexMap;
use base_store::{AnyRef, Store};
use elem::{Elem, Word, read_elem};
use script_text::Part;
use vocabulary::{
    Action, Call, CallForm, Fault, OnElement, OnIndex, OnIndexed, OnOther, OnPair, Purpose, Shape,
    StepForm, apply_form, fits_with, is_known, signature, sort_of,
};

/// What one word does.
#[derive(Clone, Copy)]
pub enum Typed {
    /// A step whose argument the text fits, and the shape that it gives. The text is read again where the step is made.
    Step(StepForm, Shape),
    Call(Call),
    /// A call with the view of a name.
    With(OnOther, AnyRef),
}

/// The shape of the view to which the words lead from a view of a shape.
///
/// # Errors
///
/// The first fault of the words, from left to right.
#[tactic(auto, using(crate::proofs::TypingLemmas::typing))]
pub fn type_words(
    store: &Store,
    names: &IndexMap<Word, Bound>,
    purpose: Purpose,
    shape: Shape,
    line: &[u8],
    parts: &[Part],
) -> Result<Shape, Fault>
    requires names { NamesWithin (length store.now.nodes) names.now.entries }
    requires short { length line.now ≤ 1024 }
    ensures { result ≡ shape_of (typed_words known store.now.world (named store.now.nodes names.now.entries) purpose shape (parts_in line.now parts.now)) }
{
    let mut on = shape;
    let mut rest = parts;
    while let [part, more @ ..] = rest {
        let typed = type_word(store, names, purpose, more.is_empty(), on, line, part);
        match &typed {
            Ok(word) => {
                let Typed::Step(_, next) = word else {
                    return Ok(on);
                };
                on = *next;
                rest = more;
            }
            Err(fault) => return Err(*fault),
        }
    }
    Ok(on)
}

/// Why words give no iterator: their fault, or the shape of the view to which they lead.
pub fn iterator_fault(typed: &Result<Shape, Fault>) -> Option<Fault>
    ensures { result ≡ iterator_fault typed.now }
{
    match typed {
        Ok(of) if iterates(*of) => None,
        Ok(_) => Some(Fault::Call),
        Err(fault) => Some(*fault),
    }
}

/// Whether views of a shape give iterators.
fn iterates(of: Shape) -> bool
    ensures { result ≡ typing.iterates of }
{
    match of {
        Shape::List | Shape::Set { .. } | Shape::Coll => true,
        Shape::Rows(_) | Shape::Bag { .. } | Shape::Pieces => true,
        _ => false,
    }
}

/// Whether a call may stand where a word stands: last, in an expression that asks for a reply.
fn may_call(purpose: Purpose, is_last: bool) -> bool
    ensures { result ≡ meaning.may_call purpose is_last }
{
    match purpose {
        Purpose::Reply => is_last,
        Purpose::Name | Purpose::Iterator => false,
    }
}

/// What a word does on a view of a shape.
///
/// # Errors
///
/// The first fault of its arguments, and `Call` where no such word with so many arguments has a meaning there.
pub fn type_word(
    store: &Store,
    names: &IndexMap<Word, Bound>,
    purpose: Purpose,
    is_last: bool,
    on: Shape,
    line: &[u8],
    part: &Part,
) -> Result<Typed, Fault>
    requires names { NamesWithin (length store.now.nodes) names.now.entries }
    requires short { length line.now ≤ 1024 }
    ensures meaning { meant_in store.now (text_at (part_in line.now part.now).args 0) result ≡ meaning.typed_word known store.now.world (named store.now.nodes names.now.entries) purpose is_last on (part_in line.now part.now) }
    ensures typed { IfOk result (λ it. IsTyped store.now on (text_at (part_in line.now part.now).args 0) it) }
{
    let a = part.argument(line, 0);
    let b = part.argument(line, 1);
    match known_action(on, part) {
        Some(Action::Step(form)) => type_step(on, a, form),
        Some(Action::Call(form)) if may_call(purpose, is_last) => type_call(
            store, names, on, a, b, form,
        ),
        Some(Action::Call(_)) => Err(Fault::Call),
        Some(Action::Make(_)) => Err(Fault::Call),
        None => Err(Fault::Call),
    }
}

/// What a word does on a view of a shape, where it is known.
fn known_action(on: Shape, part: &Part) -> Option<Action>
    ensures { result ≡ only_if table.is_known (words.signature (shapes.sort_of on) part.now.word part.now.count) }
{
    let action = signature(sort_of(on), part.word.bytes(), part.count as usize)?;
    if is_known(action) { Some(action) } else { None }
}

/// A known step, on a shape that has it, where the text fits its argument.
fn type_step(on: Shape, a: &[u8], form: StepForm) -> Result<Typed, Fault>
    requires known { table.is_known_step form ≡ true }
    requires short { length a.now ≤ 1024 }
    ensures meaning { (s : Stored) → meant_in s a.now result ≡ spec.a_step (asked form a.now) (apply_form on form) }
    ensures typed { (s : Stored) → IfOk result (λ it. IsTyped s on a.now it) }
{
    match apply_form(on, form) {
        Some(next) if fits_step(form, a) => Ok(Typed::Step(form, next)),
        _ => Err(Fault::Call),
    }
}

/// A known call of a form that views of the shape have, with its arguments, the first two of which are `a` and `b`.
fn type_call(
    store: &Store,
    names: &IndexMap<Word, Bound>,
    on: Shape,
    a: &[u8],
    b: &[u8],
    form: CallForm,
) -> Result<Typed, Fault>
    requires names { NamesWithin (length store.now.nodes) names.now.entries }
    requires known { table.is_known_call form ≡ true }
    requires had { HasCalls on form }
    ensures meaning { (text third : List ℕ) → meant_in store.now text result ≡ meaning.call_typed store.now.world (named store.now.nodes names.now.entries) on form a.now b.now third }
    ensures typed { (text : List ℕ) → IfOk result (λ it. IsTyped store.now on text it) }
{
    match form {
        CallForm::Ask(word) => Ok(Typed::Call(Call::Ask(word))),
        CallForm::Element(word) => a_call(element_call(word, read_elem(a))),
        CallForm::Index(word) => a_call(index_call(word, read_index(a))),
        CallForm::Indexed(word) => a_call(indexed_call(word, read_index(a), read_elem(b))),
        CallForm::Pair(word) => a_call(pair_call(word, read_elem(a), read_elem(b))),
        CallForm::Other(word) => type_other(store, names, on, word, a),
        _ => Err(Fault::Call),
    }
}

/// A known call with the view of a name, on a shape that has it with the shape of that view.
fn type_other(
    store: &Store,
    names: &IndexMap<Word, Bound>,
    on: Shape,
    word: OnOther,
    text: &[u8],
) -> Result<Typed, Fault>
    requires names { NamesWithin (length store.now.nodes) names.now.entries }
    requires known { table.is_known_other word ≡ true }
    ensures meaning { (first : List ℕ) → meant_in store.now first result ≡ meaning.if_fits (meaning.call_with store.now.world on word) (meaning.view_named (named store.now.nodes names.now.entries) text.now) }
    ensures typed { (first : List ℕ) → IfOk result (λ it. IsTyped store.now on first it) }
{
    let Some(name) = read_name(text) else {
        return Err(Fault::Call);
    };
    let Some(bound) = names.get(&name) else {
        return Err(Fault::Name);
    };
    let Bound::View(other) = *bound else {
        return Err(Fault::Call);
    };
    if fits_with(on, word, store.shape(other)) {
        Ok(Typed::With(word, other))
    } else {
        Err(Fault::Call)
    }
}

fn a_call(call: Option<Call>) -> Result<Typed, Fault>
    ensures meaning { (s : Stored) (text : List ℕ) → meant_in s text result ≡ spec.a_call call }
    ensures typed { (s : Stored) (on : AnyShape) (text : List ℕ) → IfSome call (λ it. (fits on it ≡ true) × (table.is_known_call (table.form_of_call it) ≡ true)) → IfOk result (λ it. IsTyped s on text it) }
{
    match call {
        Some(call) => Ok(Typed::Call(call)),
        None => Err(Fault::Call),
    }
}

fn element_call(word: OnElement, x: Option<Elem>) -> Option<Call>
    ensures { result ≡ option_map (λ x. call.Element word x) x }
{
    Some(Call::Element(word, x?))
}

fn index_call(word: OnIndex, i: Option<Option<usize>>) -> Option<Call>
    ensures { result ≡ option_map (λ i. call.Index word i) i }
{
    Some(Call::Index(word, i?))
}

fn indexed_call(word: OnIndexed, i: Option<Option<usize>>, x: Option<Elem>) -> Option<Call>
    ensures { result ≡ option_and_then (λ i. option_map (λ x. call.Indexed word i x) x) i }
{
    Some(Call::Indexed(word, i?, x?))
}

fn pair_call(word: OnPair, k: Option<Elem>, v: Option<Elem>) -> Option<Call>
    ensures { result ≡ option_and_then (λ k. option_map (λ v. call.Pair word k v) v) k }
{
    Some(Call::Pair(word, k?, v?))
}
