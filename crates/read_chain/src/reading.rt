//! The calls that only read.
ghost use Rattle.std.specs.Prelude.{◌≡◌, ◌<◌, ◌≤◌, ◌+◌, length, true, nat_lt, Ok, ◌≢◌, Err};
ghost use Rattle.base_store.specs.Stored.{view_in};
ghost use Rattle.read_chain.specs.ListLookUps.{is_asked_at_once};
ghost use Rattle.read_chain.specs.Reads.{element_told, is_looked_up, shown_in, told};
ghost use Rattle.machine.specs.CallRefusals.{index_refusal};
ghost use Rattle.machine.specs.Answering.{unless_refused};
ghost use Rattle.machine.specs.Answers as answers;
ghost use Rattle.vocabulary.specs.Fits as spec;
ghost use Rattle.vocabulary.specs.Known.{form_of_call, is_known_ask, is_known_call, is_known_element};
ghost use Rattle.vocabulary.specs.Needs.{needs_of};
ghost use Rattle.vocabulary.specs.Shapes.{is_keyed, is_list};
ghost use Rattle.machine.specs.Shown.{item_shown};
ghost use Rattle.machine.specs.Views.{shape_at};
ghost use Rattle.vocabulary.specs.declared.calls.Call.TheVariants as calls;
ghost use Rattle.vocabulary.specs.declared.refusals.Refusal.TheVariants.{NoMemory};
ghost use Rattle.vocabulary.specs.declared.steps.Needs.TheVariants as needs;

use crate::reads::{
    contains, first, has_key, has_value, index_of, is_empty, item_at, last, map_get, size,
};
use base_store::{AnyRef, Store};
use elem::{Elem, Steps};
use std::sync::ledger::Ledger;
use vocabulary::{Answer, Ask, Call, Item, OnElement, OnPair, Refusal, key_of};

/// Answers a known call that only reads.
pub fn read<L: Ledger>(
    store: &Store,
    n: AnyRef,
    call: &Call,
    steps: &mut Steps<L>,
) -> Result<Answer, Refusal>
    requires node { n < length store.now.nodes }
    requires fits { spec.fits (shape_at store.now.world (view_in store.now n)) call.now ≡ true }
    requires known { is_known_call (form_of_call call.now) ≡ true }
    requires reads { needs_of call.now ≡ needs.Nothing }
    ensures answer { result ≡ told store.now.world (view_in store.now n) call.now }
    ensures memory { result ≢ Err NoMemory }
    ensures steps { is_looked_up (shape_at store.now.world (view_in store.now n)) call.now ≡ true → steps.new ≤ steps.old + 1 }
    ensures at_once { is_asked_at_once store.now.world (view_in store.now n) call.now ≡ true → steps.new ≤ steps.old + 1 }
{
    match call {
        Call::Ask(word) => read_ask(store, n, *word, steps),
        Call::Element(word, x) => Ok(read_element(store, n, *word, x, steps)),
        Call::Index(_, i) => read_item(store, n, *i, steps),
        Call::Pair(OnPair::ContainsEntry | OnPair::RemoveEntry, k, v) => Ok(Answer::Truth(contains(
            store,
            n,
            &Item::Entry(*k, *v),
            steps,
        ))),
        _ => unreachable!(),
    }
}

/// Answers a call that takes nothing.
fn read_ask<L: Ledger>(
    store: &Store,
    n: AnyRef,
    word: Ask,
    steps: &mut Steps<L>,
) -> Result<Answer, Refusal>
    requires node { n < length store.now.nodes }
    requires known { is_known_ask word ≡ true }
    ensures { result ≡ told store.now.world (view_in store.now n) (calls.Ask word) }
{
    let _base = store.base_of(n);
    match word {
        Ask::Size => Ok(Answer::Number(size(store, n, steps))),
        Ask::IsEmpty => Ok(Answer::Truth(is_empty(store, n, steps))),
        Ask::First | Ask::FirstKey => tell_element(first(store, n, steps)),
        Ask::Last | Ask::LastKey => tell_element(last(store, n, steps)),
        Ask::Clear => Ok(Answer::Done),
        _ => unreachable!(),
    }
}

/// An item's element, where there is one.
fn tell_element(item: Option<Item>) -> Result<Answer, Refusal>
    ensures { result ≡ element_told item }
{
    match item {
        Some(item) => Ok(Answer::Element(key_of(&item))),
        None => Err(Refusal::NoSuchElement),
    }
}

/// Answers a call on an element that only reads.
fn read_element<L: Ledger>(
    store: &Store,
    n: AnyRef,
    word: OnElement,
    x: &Elem,
    steps: &mut Steps<L>,
) -> Answer
    requires node { n < length store.now.nodes }
    requires fits { spec.fits_element (shape_at store.now.world (view_in store.now n)) word ≡ true }
    requires known { is_known_element word ≡ true }
    requires reads { needs_of (calls.Element word x.now) ≡ needs.Nothing }
    ensures answer { result ≡ answers.element_answer (shape_at store.now.world (view_in store.now n)) word x.now (shown_in store.now n) }
    ensures steps { is_looked_up (shape_at store.now.world (view_in store.now n)) (calls.Element word x.now) ≡ true → steps.new ≤ steps.old + 1 }
    ensures at_once { is_asked_at_once store.now.world (view_in store.now n) (calls.Element word x.now) ≡ true → steps.new ≤ steps.old + 1 }
{
    let _base = store.base_of(n);
    match word {
        OnElement::Contains => Answer::Truth(contains(store, n, &Item::One(*x), steps)),
        OnElement::IndexOf => Answer::Index(index_of(store, n, &Item::One(*x), steps)),
        OnElement::ValueOf => Answer::Optional(map_get(store, n, x, steps)),
        OnElement::ContainsKey => Answer::Truth(has_key(store, n, x, steps)),
        OnElement::ContainsValue => Answer::Truth(has_value(store, n, x, steps)),
        _ => unreachable!(),
    }
}

/// Answers with the element at an index of a list.
fn read_item<L: Ledger>(
    store: &Store,
    n: AnyRef,
    i: Option<usize>,
    steps: &mut Steps<L>,
) -> Result<Answer, Refusal>
    requires node { n < length store.now.nodes }
    requires list { is_list (shape_at store.now.world (view_in store.now n)) ≡ true }
    ensures { result ≡ unless_refused (index_refusal (λ k. nat_lt k (length (shown_in store.now n))) i) (Ok (answers.element_of (item_shown (shown_in store.now n) i))) }
{
    match i {
        Some(i) => match item_at(store, n, i, steps) {
            Some(item) => Ok(Answer::Element(key_of(&item))),
            None => Err(Refusal::IndexOutOfBounds),
        },
        None => Err(Refusal::IndexOutOfBounds),
    }
}
