//! The calls on views.
ghost use Rattle.std.specs.Prelude.{◌≡◌, ◌<◌, ◌≤◌, ◌+◌, ◌^◌, ◌-◌, ℕ, false, length, true, Err};
ghost use Rattle.base_store.specs.Stored.{view_in};
ghost use Rattle.machine.specs.Answering.{answered, answered_with};
ghost use Rattle.vocabulary.specs.Fits as spec;
ghost use Rattle.machine.specs.RowCounts.{ChangesUpTo, rows_in};
ghost use Rattle.vocabulary.specs.Limits.{most_rows};
ghost use Rattle.vocabulary.specs.Known.{form_of_call, is_known_ask, is_known_call, is_known_element, is_known_other, is_known_pair};
ghost use Rattle.vocabulary.specs.Needs.{needs_of, needs_with};
ghost use Rattle.vocabulary.specs.Shapes.{is_keyed, is_list};
ghost use Rattle.vocabulary.specs.Steps as table;
ghost use Rattle.machine.specs.Views.{flags_at, shape_at};
ghost use Rattle.vocabulary.specs.declared.calls.Call.TheVariants as calls;
ghost use Rattle.vocabulary.specs.declared.refusals.Refusal.TheVariants.{NoMemory};
ghost use Rattle.read_chain.specs.ListLookUps.{is_asked_at_once};
ghost use Rattle.read_chain.specs.Reads.{is_looked_up};
ghost use Rattle.write_chain.specs.Calls.{Came, answered_known, answered_known_with, is_forced, is_removed_at_once, is_single};
ghost use Rattle.machine.specs.Memory.{adds_rows, wants_memory, wants_memory_with};

use crate::clearing::clear;
use crate::others::{add_all, put_all, remove_others};
use crate::putting::{add, add_at, force_put, put, set_at};
use crate::removing::{remove_at, remove_item, remove_key};
use base_store::{AnyRef, Store};
use elem::{Elem, Steps};
use read_chain::{contains_all, equals, read};
use std::sync::ledger::Ledger;
use vocabulary::{
    Answer, Ask, Call, Item, OnElement, OnIndex, OnIndexed, OnOther, OnPair, Refusal, lacks,
    needs_of, needs_with,
};

/// Answers a known call on a view, and changes the base under it as the call says.
///
/// # Errors
///
/// The refusal of the call, in this order: `UnsupportedOperation` where the view does not allow it, the refusal of its
/// argument, `IllegalArgument` where an item that is added does not pass, or a bimap has its partner bound to another, and
/// `Limit` where there would be too many rows; or `NoMemory`, where it would leave more rows than there were, or puts a
/// pair into a bimap. Nothing has changed then.
pub fn call<L: Ledger>(
    store: &mut Store,
    n: AnyRef,
    call: &Call,
    steps: &mut Steps<L>,
) -> Result<Answer, Refusal>
    requires node { n < length store.old.nodes }
    requires known { is_known_call (form_of_call call.now) ≡ true }
    requires fits { spec.fits (shape_at store.old.world (view_in store.old n)) call.now ≡ true }
    requires change { ChangesUpTo (2 ^ 63 - 1) store.old.world }
    ensures came { Came result store.old store.new (answered store.old.world (view_in store.old n) call.now) }
    ensures memory { result ≡ Err NoMemory → wants_memory store.old.world (view_in store.old n) call.now (answered store.old.world (view_in store.old n) call.now) ≡ true }
    ensures changes { (most : ℕ) → ChangesUpTo most store.old.world → ChangesUpTo (most + 1) store.new.world }
    ensures steps { is_single call.now ≡ true → is_keyed (shape_at store.old.world (view_in store.old n)) ≡ true → steps.new ≤ steps.old + 3 }
    ensures forced { is_forced call.now ≡ true → steps.new ≤ steps.old + 4 }
    ensures looks_up { is_looked_up (shape_at store.old.world (view_in store.old n)) call.now ≡ true → steps.new ≤ steps.old + 1 }
    ensures at_once { is_asked_at_once store.old.world (view_in store.old n) call.now ≡ true → steps.new ≤ steps.old + 1 }
    ensures removes_at_once { is_removed_at_once store.old.world (view_in store.old n) call.now ≡ true → steps.new ≤ steps.old + 2 }
{
    let _base = store.base_of(n);
    let flags = store.flags_of(n);
    if lacks(flags, needs_of(call)) {
        return Err(Refusal::UnsupportedOperation);
    }
    carry_out(store, n, call, steps)
}

/// Answers a call that the view allows.
fn carry_out<L: Ledger>(
    store: &mut Store,
    n: AnyRef,
    call: &Call,
    steps: &mut Steps<L>,
) -> Result<Answer, Refusal>
    requires node { n < length store.old.nodes }
    requires known { is_known_call (form_of_call call.now) ≡ true }
    requires fits { spec.fits (shape_at store.old.world (view_in store.old n)) call.now ≡ true }
    requires allowed { table.lacks (flags_at store.old.world (view_in store.old n)) (needs_of call.now) ≡ false }
    requires change { ChangesUpTo (2 ^ 63 - 1) store.old.world }
    ensures came { Came result store.old store.new (answered_known store.old.world (view_in store.old n) call.now) }
    ensures memory { result ≡ Err NoMemory → wants_memory store.old.world (view_in store.old n) call.now (answered_known store.old.world (view_in store.old n) call.now) ≡ true }
    ensures steps { is_single call.now ≡ true → is_keyed (shape_at store.old.world (view_in store.old n)) ≡ true → steps.new ≤ steps.old + 3 }
    ensures forced { is_forced call.now ≡ true → steps.new ≤ steps.old + 4 }
    ensures looks_up { is_looked_up (shape_at store.old.world (view_in store.old n)) call.now ≡ true → steps.new ≤ steps.old + 1 }
    ensures at_once { is_asked_at_once store.old.world (view_in store.old n) call.now ≡ true → steps.new ≤ steps.old + 1 }
    ensures removes_at_once { is_removed_at_once store.old.world (view_in store.old n) call.now ≡ true → steps.new ≤ steps.old + 2 }
{
    match call {
        Call::Ask(word) => on_ask(store, n, *word, steps),
        Call::Element(word, x) => on_element(store, n, *word, x, steps),
        Call::Index(word, i) => on_index(store, n, *word, *i, steps),
        Call::Indexed(word, i, x) => on_indexed(store, n, *word, *i, x, steps),
        Call::Pair(word, k, w) => on_pair(store, n, *word, k, w, steps),
        _ => unreachable!(),
    }
}

fn on_ask<L: Ledger>(
    store: &mut Store,
    n: AnyRef,
    word: Ask,
    steps: &mut Steps<L>,
) -> Result<Answer, Refusal>
    requires node { n < length store.old.nodes }
    requires known { is_known_ask word ≡ true }
    requires fits { spec.fits (shape_at store.old.world (view_in store.old n)) (calls.Ask word) ≡ true }
    requires allowed { table.lacks (flags_at store.old.world (view_in store.old n)) (needs_of (calls.Ask word)) ≡ false }
    requires change { ChangesUpTo (2 ^ 63 - 1) store.old.world }
    ensures came { Came result store.old store.new (answered_known store.old.world (view_in store.old n) (calls.Ask word)) }
    ensures memory { result ≡ Err NoMemory → wants_memory store.old.world (view_in store.old n) (calls.Ask word) (answered_known store.old.world (view_in store.old n) (calls.Ask word)) ≡ true }
    ensures steps { is_single (calls.Ask word) ≡ true → is_keyed (shape_at store.old.world (view_in store.old n)) ≡ true → steps.new ≤ steps.old + 3 }
{
    match word {
        Ask::Clear => Ok(clear(store, n, steps)),
        _ => read(store, n, &Call::Ask(word), steps),
    }
}

fn on_element<L: Ledger>(
    store: &mut Store,
    n: AnyRef,
    word: OnElement,
    x: &Elem,
    steps: &mut Steps<L>,
) -> Result<Answer, Refusal>
    requires node { n < length store.old.nodes }
    requires known { is_known_element word ≡ true }
    requires fits { spec.fits (shape_at store.old.world (view_in store.old n)) (calls.Element word x.now) ≡ true }
    requires allowed { table.lacks (flags_at store.old.world (view_in store.old n)) (needs_of (calls.Element word x.now)) ≡ false }
    requires change { ChangesUpTo (2 ^ 63 - 1) store.old.world }
    ensures came { Came result store.old store.new (answered_known store.old.world (view_in store.old n) (calls.Element word x.now)) }
    ensures memory { result ≡ Err NoMemory → wants_memory store.old.world (view_in store.old n) (calls.Element word x.now) (answered_known store.old.world (view_in store.old n) (calls.Element word x.now)) ≡ true }
    ensures steps { is_single (calls.Element word x.now) ≡ true → is_keyed (shape_at store.old.world (view_in store.old n)) ≡ true → steps.new ≤ steps.old + 3 }
    ensures looks_up { is_looked_up (shape_at store.old.world (view_in store.old n)) (calls.Element word x.now) ≡ true → steps.new ≤ steps.old + 1 }
    ensures at_once { is_asked_at_once store.old.world (view_in store.old n) (calls.Element word x.now) ≡ true → steps.new ≤ steps.old + 1 }
    ensures removes_at_once { is_removed_at_once store.old.world (view_in store.old n) (calls.Element word x.now) ≡ true → steps.new ≤ steps.old + 2 }
{
    match word {
        OnElement::Add => add(store, n, x, steps),
        OnElement::Remove => Ok(remove_item(store, n, &Item::One(*x), steps)),
        OnElement::RemoveKey => Ok(remove_key(store, n, x, steps)),
        _ => read(store, n, &Call::Element(word, *x), steps),
    }
}

fn on_index<L: Ledger>(
    store: &mut Store,
    n: AnyRef,
    word: OnIndex,
    i: Option<usize>,
    steps: &mut Steps<L>,
) -> Result<Answer, Refusal>
    requires node { n < length store.old.nodes }
    requires fits { is_list (shape_at store.old.world (view_in store.old n)) ≡ true }
    requires allowed { table.lacks (flags_at store.old.world (view_in store.old n)) (needs_of (calls.Index word i)) ≡ false }
    requires change { ChangesUpTo (2 ^ 63 - 1) store.old.world }
    ensures came { Came result store.old store.new (answered_known store.old.world (view_in store.old n) (calls.Index word i)) }
    ensures memory { result ≡ Err NoMemory → wants_memory store.old.world (view_in store.old n) (calls.Index word i) (answered_known store.old.world (view_in store.old n) (calls.Index word i)) ≡ true }
    ensures steps { is_single (calls.Index word i) ≡ true → is_keyed (shape_at store.old.world (view_in store.old n)) ≡ true → steps.new ≤ steps.old + 3 }
{
    match word {
        OnIndex::ItemAt => read(store, n, &Call::Index(word, i), steps),
        OnIndex::RemoveAt => remove_at(store, n, i, steps),
    }
}

fn on_indexed<L: Ledger>(
    store: &mut Store,
    n: AnyRef,
    word: OnIndexed,
    i: Option<usize>,
    x: &Elem,
    steps: &mut Steps<L>,
) -> Result<Answer, Refusal>
    requires node { n < length store.old.nodes }
    requires fits { is_list (shape_at store.old.world (view_in store.old n)) ≡ true }
    requires allowed { table.lacks (flags_at store.old.world (view_in store.old n)) (needs_of (calls.Indexed word i x.now)) ≡ false }
    requires change { ChangesUpTo (2 ^ 63 - 1) store.old.world }
    ensures came { Came result store.old store.new (answered_known store.old.world (view_in store.old n) (calls.Indexed word i x.now)) }
    ensures memory { result ≡ Err NoMemory → wants_memory store.old.world (view_in store.old n) (calls.Indexed word i x.now) (answered_known store.old.world (view_in store.old n) (calls.Indexed word i x.now)) ≡ true }
    ensures steps { is_single (calls.Indexed word i x.now) ≡ true → is_keyed (shape_at store.old.world (view_in store.old n)) ≡ true → steps.new ≤ steps.old + 3 }
{
    match word {
        OnIndexed::AddAt => add_at(store, n, i, x, steps),
        OnIndexed::SetAt => set_at(store, n, i, x, steps),
    }
}

fn on_pair<L: Ledger>(
    store: &mut Store,
    n: AnyRef,
    word: OnPair,
    k: &Elem,
    w: &Elem,
    steps: &mut Steps<L>,
) -> Result<Answer, Refusal>
    requires node { n < length store.old.nodes }
    requires known { is_known_pair word ≡ true }
    requires fits { spec.fits (shape_at store.old.world (view_in store.old n)) (calls.Pair word k.now w.now) ≡ true }
    requires allowed { table.lacks (flags_at store.old.world (view_in store.old n)) (needs_of (calls.Pair word k.now w.now)) ≡ false }
    requires change { ChangesUpTo (2 ^ 63 - 1) store.old.world }
    ensures came { Came result store.old store.new (answered_known store.old.world (view_in store.old n) (calls.Pair word k.now w.now)) }
    ensures memory { result ≡ Err NoMemory → wants_memory store.old.world (view_in store.old n) (calls.Pair word k.now w.now) (answered_known store.old.world (view_in store.old n) (calls.Pair word k.now w.now)) ≡ true }
    ensures steps { is_single (calls.Pair word k.now w.now) ≡ true → is_keyed (shape_at store.old.world (view_in store.old n)) ≡ true → steps.new ≤ steps.old + 3 }
    ensures forced { is_forced (calls.Pair word k.now w.now) ≡ true → steps.new ≤ steps.old + 4 }
    ensures looks_up { is_looked_up (shape_at store.old.world (view_in store.old n)) (calls.Pair word k.now w.now) ≡ true → steps.new ≤ steps.old + 1 }
{
    match word {
        OnPair::Put => put(store, n, k, w, steps),
        OnPair::ForcePut => force_put(store, n, k, w, steps),
        OnPair::ContainsEntry => read(store, n, &Call::Pair(word, *k, *w), steps),
        OnPair::RemoveEntry => Ok(remove_item(store, n, &Item::Entry(*k, *w), steps)),
        _ => unreachable!(),
    }
}

/// Answers a known call with another view, which is read whole before anything changes.
///
/// # Errors
///
/// As `call`, but for `NoMemory`: it reads the other view into memory before it adds or removes.
pub fn call_with<L: Ledger>(
    store: &mut Store,
    n: AnyRef,
    word: OnOther,
    other: AnyRef,
    steps: &mut Steps<L>,
) -> Result<Answer, Refusal>
    requires node { n < length store.old.nodes }
    requires other { other < length store.old.nodes }
    requires known { is_known_other word ≡ true }
    requires fits { spec.fits_with (shape_at store.old.world (view_in store.old n)) word (shape_at store.old.world (view_in store.old other)) ≡ true }
    requires change { ChangesUpTo (2 ^ 63 - 1) store.old.world }
    ensures came { Came result store.old store.new (answered_with store.old.world (view_in store.old n) word (view_in store.old other)) }
    ensures memory { result ≡ Err NoMemory → wants_memory_with store.old.world (view_in store.old n) word ≡ true }
    ensures changes { (most : ℕ) → ChangesUpTo most store.old.world → ChangesUpTo (most + 1) store.new.world }
{
    let _base = store.base_of(n);
    let _other = store.base_of(other);
    let flags = store.flags_of(n);
    if lacks(flags, needs_with(word)) {
        return Err(Refusal::UnsupportedOperation);
    }
    carry_out_with(store, n, word, other, steps)
}

/// Answers a call with another view that the view allows.
fn carry_out_with<L: Ledger>(
    store: &mut Store,
    n: AnyRef,
    word: OnOther,
    other: AnyRef,
    steps: &mut Steps<L>,
) -> Result<Answer, Refusal>
    requires node { n < length store.old.nodes }
    requires other { other < length store.old.nodes }
    requires known { is_known_other word ≡ true }
    requires fits { spec.fits_with (shape_at store.old.world (view_in store.old n)) word (shape_at store.old.world (view_in store.old other)) ≡ true }
    requires allowed { table.lacks (flags_at store.old.world (view_in store.old n)) (needs_with word) ≡ false }
    requires change { ChangesUpTo (2 ^ 63 - 1) store.old.world }
    ensures came { Came result store.old store.new (answered_known_with store.old.world (view_in store.old n) word (view_in store.old other)) }
    ensures memory { result ≡ Err NoMemory → wants_memory_with store.old.world (view_in store.old n) word ≡ true }
{
    match word {
        OnOther::ContainsAll => Ok(Answer::Truth(contains_all(store, n, other, steps))),
        OnOther::AddAll => add_all(store, n, other, steps),
        OnOther::RemoveAll => remove_others(store, n, other, false, steps),
        OnOther::RetainAll => remove_others(store, n, other, true, steps),
        OnOther::PutAll => put_all(store, n, other, steps),
        OnOther::Equals => Ok(Answer::Truth(equals(store, n, other, steps))),
        _ => unreachable!(),
    }
}
