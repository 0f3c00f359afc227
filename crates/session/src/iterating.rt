//! The words of an iterator.
ghost use Rattle.std.specs.Prelude.{◌≡◌, ◌≤◌, ◌+◌, ◌^◌, ◌-◌, ◌++◌, ◌∷◌, [], ℕ, List, Some, true};
ghost use Rattle.cursor_seat.specs.Seats.{Fits, iterator_in};
ghost use Rattle.machine.specs.Iterating as spec;
ghost use Rattle.machine.specs.RowCounts.{ChangesUpTo};
ghost use Rattle.machine.specs.Texts.{item_text};
ghost use Rattle.session.specs.Bounds.{AsksAtMost, most_of_iterator};
ghost use Rattle.session.specs.Following.{parts_in};
ghost use Rattle.session.specs.Iterating.{Turned};
ghost use Rattle.session.specs.KnownShapes.{is_known_item};
ghost use Rattle.session.specs.Replying.{Said};
ghost use Rattle.vocabulary.specs.declared.lines.OnIterator.TheVariants as words;

use crate::faults::ExecFault;
use crate::printing::{items_fit, known_shape, write_item};
use crate::replies::{Reply, refuse, say, say_truth};
use base_store::Store;
use cursor_seat::Seat;
use elem::{Sink, Steps};
use script_text::Part;
use std::sync::ledger::Ledger;
use vocabulary::{Item, OnIterator};

/// What the words behind an iterator's name ask of it: one word, without arguments.
pub fn asked_of(parts: &[Part]) -> Option<OnIterator>
    ensures { (line : List ℕ) → result ≡ spec.iterator_word (parts_in line parts.now) }
{
    let [part] = parts else {
        return None;
    };
    if part.count == 0 {
        word_of(part.word.bytes())
    } else {
        None
    }
}

/// The word of an iterator that a text is.
fn word_of(word: &[u8]) -> Option<OnIterator>
    ensures { result ≡ spec.word_of word.now }
{
    if word == b"hasNext".as_slice() {
        Some(OnIterator::HasNext)
    } else if word == b"next".as_slice() {
        Some(OnIterator::Next)
    } else if word == b"remove".as_slice() {
        Some(OnIterator::Remove)
    } else {
        None
    }
}

/// Does what a word asks of an iterator, and moves its seat.
pub fn turn<S: Sink, L: Ledger>(
    store: &mut Store,
    seat: &mut Seat,
    word: Option<OnIterator>,
    reply: &mut Reply,
    out: &mut S,
    steps: &mut Steps<L>,
) -> Result<(), ExecFault>
    requires fits { Fits store.old seat.old }
    requires change { ChangesUpTo (2 ^ 63 - 1) store.old.world }
    ensures fits { Fits store.new seat.new }
    ensures node { seat.new.node ≡ seat.old.node }
    ensures turned { Turned result store.old store.new seat.old seat.new word (S.taken out.old) (S.taken out.new) (S.faults out.old) (S.faults out.new) }
    ensures asked { AsksAtMost (most_of_iterator store.old.world (iterator_in store.old seat.old) word) steps.old steps.new }
{
    match word {
        None => say(reply, out, b"?call"),
        Some(OnIterator::HasNext) => look_ahead(store, seat, reply, out, steps),
        Some(OnIterator::Next) => give(store, seat, reply, out, steps),
        Some(OnIterator::Remove) => remove(store, seat, reply, out, steps),
    }
}

/// Says whether an item is left.
fn look_ahead<S: Sink, L: Ledger>(
    store: &Store,
    seat: &Seat,
    reply: &mut Reply,
    out: &mut S,
    steps: &mut Steps<L>,
) -> Result<(), ExecFault>
    requires fits { Fits store.now seat.now }
    ensures turned { Turned result store.now store.now seat.now seat.now (Some words.HasNext) (S.taken out.old) (S.taken out.new) (S.faults out.old) (S.faults out.new) }
    ensures asked { AsksAtMost (most_of_iterator store.now.world (iterator_in store.now seat.now) (Some words.HasNext)) steps.old steps.new }
{
    match seat.has_next(store, steps) {
        Ok(truth) => say_truth(reply, out, truth),
        Err(refusal) => refuse(reply, out, refusal),
    }
}

/// Says the next item.
fn give<S: Sink, L: Ledger>(
    store: &Store,
    seat: &mut Seat,
    reply: &mut Reply,
    out: &mut S,
    steps: &mut Steps<L>,
) -> Result<(), ExecFault>
    requires fits { Fits store.now seat.old }
    ensures fits { Fits store.now seat.new }
    ensures node { seat.new.node ≡ seat.old.node }
    ensures turned { Turned result store.now store.now seat.old seat.new (Some words.Next) (S.taken out.old) (S.taken out.new) (S.faults out.old) (S.faults out.new) }
    ensures asked { AsksAtMost (most_of_iterator store.now.world (iterator_in store.now seat.old) (Some words.Next)) steps.old steps.new }
{
    let view = seat.node();
    let _shape = known_shape(store, view);
    items_fit(store, view);
    match seat.next(store, steps) {
        Ok(item) => say_item(&item, reply, out),
        Err(refusal) => refuse(reply, out, refusal),
    }
}

/// Removes the item that was given last.
fn remove<S: Sink, L: Ledger>(
    store: &mut Store,
    seat: &mut Seat,
    reply: &mut Reply,
    out: &mut S,
    steps: &mut Steps<L>,
) -> Result<(), ExecFault>
    requires fits { Fits store.old seat.old }
    requires change { ChangesUpTo (2 ^ 63 - 1) store.old.world }
    ensures fits { Fits store.new seat.new }
    ensures node { seat.new.node ≡ seat.old.node }
    ensures turned { Turned result store.old store.new seat.old seat.new (Some words.Remove) (S.taken out.old) (S.taken out.new) (S.faults out.old) (S.faults out.new) }
    ensures asked { steps.new ≤ steps.old + 1 }
{
    match seat.remove(store, steps) {
        Ok(()) => say(reply, out, b"ok"),
        Err(refusal) => refuse(reply, out, refusal),
    }
}

/// Says an element, or a key and its value.
fn say_item<S: Sink>(item: &Item, reply: &mut Reply, out: &mut S) -> Result<(), ExecFault>
    requires { is_known_item item.now ≡ true }
    ensures { Said result (S.taken out.old) (S.taken out.new) (S.faults out.old) (S.faults out.new) (item_text item.now ++ 10 ∷ []) }
{
    reply.begin();
    write_item(item, reply, out);
    reply.end(out)
}
