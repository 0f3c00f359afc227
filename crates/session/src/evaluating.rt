//! Evaluating the words behind a name.
ghost use Rattle.std.specs.Prelude.{◌≡◌, ◌<◌, ◌≤◌, ◌++◌, ◌∷◌, [], ◌^◌, ◌-◌, true, Ok, length};
ghost use Rattle.base_store.specs.Stored.{view_in};
ghost use Rattle.session.specs.Bounds.{AsksAtMost, most_for};
ghost use Rattle.session.specs.Coming.{Came};
ghost use Rattle.session.specs.Environment.{NamesWithin};
ghost use Rattle.session.specs.Following.{IsEnd, end_in, parts_in, target_in};
ghost use Rattle.session.specs.KnownShapes.{is_known_shape};
ghost use Rattle.session.specs.Replying.{Said};
ghost use Rattle.session.specs.Targets.{concluded};
ghost use Rattle.vocabulary.specs.declared.lines.Purpose.TheVariants as purpose;
ghost use Rattle.machine.specs.Outcomes.{fault_text};
ghost use Rattle.machine.specs.RowCounts.{ChangesUpTo};
ghost use Rattle.machine.specs.Views.{shape_at};

use crate::bound::Bound;
use crate::calling::{call_on, call_with_on};
use crate::faults::ExecFault;
use crate::following::{End, follow};
use crate::names::IndexMap;
use crate::printing::{known_shape, print};
use crate::replies::{Reply, refuse, say};
use crate::typing::{Typed, type_word, type_words};
use base_store::{AnyRef, Store};
use elem::{Sink, Steps, Word};
use script_text::Part;
use std::sync::ledger::Ledger;
use vocabulary::{Fault, Purpose, Refusal};

/// Evaluates the words behind a name: they lead to a view that is printed, or to a call on one. A call that
/// stands alone is typed once.
pub fn evaluate<S: Sink, L: Ledger>(
    store: &mut Store,
    names: &IndexMap<Word, Bound>,
    head: AnyRef,
    line: &[u8],
    parts: &[Part],
    reply: &mut Reply,
    out: &mut S,
    steps: &mut Steps<L>,
) -> Result<(), ExecFault>
    requires head { head < length store.old.nodes }
    requires still { length store.old.nodes ≡ store.old.lasting }
    requires names { NamesWithin store.old.lasting names.now.entries }
    requires short { length line.now ≤ 1024 }
    requires change { ChangesUpTo (2 ^ 63 - 1) store.old.world }
    ensures known { is_known_shape (shape_at store.old.world (view_in store.old head)) ≡ true }
    ensures came { Came result store.old store.new (λ state. concluded state (target_in store.old store.old.handles names.now.entries purpose.Reply head (parts_in line.now parts.now))) (S.taken out.old) (S.taken out.new) (S.faults out.old) (S.faults out.new) }
    ensures asked { AsksAtMost (most_for store.old.world (target_in store.old store.old.handles names.now.entries purpose.Reply head (parts_in line.now parts.now))) steps.old steps.new }
{
    let [part] = parts else {
        return evaluate_words(store, names, head, line, parts, reply, out, steps);
    };
    let typed = type_word(
        store,
        names,
        Purpose::Reply,
        true,
        known_shape(store, head),
        line,
        part,
    );
    match &typed {
        Ok(word) => match word {
            Typed::Step(_, _) => {
                evaluate_words(store, names, head, line, parts, reply, out, steps)
            }
            Typed::Call(call) => call_on(store, head, call, reply, out, steps),
            Typed::With(word, other) => {
                call_with_on(store, head, *word, *other, reply, out, steps)
            }
        },
        Err(fault) => say_fault(reply, out, *fault),
    }
}

/// The same, word by word: all words are typed before the first step is made.
fn evaluate_words<S: Sink, L: Ledger>(
    store: &mut Store,
    names: &IndexMap<Word, Bound>,
    head: AnyRef,
    line: &[u8],
    parts: &[Part],
    reply: &mut Reply,
    out: &mut S,
    steps: &mut Steps<L>,
) -> Result<(), ExecFault>
    requires head { head < length store.old.nodes }
    requires still { length store.old.nodes ≡ store.old.lasting }
    requires names { NamesWithin store.old.lasting names.now.entries }
    requires short { length line.now ≤ 1024 }
    requires change { ChangesUpTo (2 ^ 63 - 1) store.old.world }
    ensures known { is_known_shape (shape_at store.old.world (view_in store.old head)) ≡ true }
    ensures came { Came result store.old store.new (λ state. concluded state (target_in store.old store.old.handles names.now.entries purpose.Reply head (parts_in line.now parts.now))) (S.taken out.old) (S.taken out.new) (S.faults out.old) (S.faults out.new) }
    ensures asked { AsksAtMost (most_for store.old.world (target_in store.old store.old.handles names.now.entries purpose.Reply head (parts_in line.now parts.now))) steps.old steps.new }
{
    if let Err(fault) = type_words(
        store,
        names,
        Purpose::Reply,
        known_shape(store, head),
        line,
        parts,
    ) {
        return say_fault(reply, out, fault);
    }
    let end = follow(store, names, head, Purpose::Reply, line, parts);
    let result = conclude(store, &end, reply, out, steps);
    store.drop_temporary();
    result
}

/// Says what is wrong with a word.
pub fn say_fault<S: Sink>(reply: &mut Reply, out: &mut S, fault: Fault) -> Result<(), ExecFault>
    ensures { Said result (S.taken out.old) (S.taken out.new) (S.faults out.old) (S.faults out.new) (fault_text fault ++ 10 ∷ []) }
{
    match fault {
        Fault::Name => say(reply, out, b"?name"),
        Fault::Call => say(reply, out, b"?call"),
    }
}

/// Does what the words end in.
fn conclude<S: Sink, L: Ledger>(
    store: &mut Store,
    end: &Result<End, Refusal>,
    reply: &mut Reply,
    out: &mut S,
    steps: &mut Steps<L>,
) -> Result<(), ExecFault>
    requires end { IsEnd store.old end.now }
    requires change { ChangesUpTo (2 ^ 63 - 1) store.old.world }
    ensures came { Came result store.old store.new (λ state. concluded state (Ok (end_in store.old end.now))) (S.taken out.old) (S.taken out.new) (S.faults out.old) (S.faults out.new) }
    ensures asked { AsksAtMost (most_for store.old.world (Ok (end_in store.old end.now))) steps.old steps.new }
{
    match end {
        Ok(end) => conclude_at(store, end, reply, out, steps),
        Err(refusal) => refuse(reply, out, *refusal),
    }
}

/// Prints a view, or executes a call on it.
fn conclude_at<S: Sink, L: Ledger>(
    store: &mut Store,
    end: &End,
    reply: &mut Reply,
    out: &mut S,
    steps: &mut Steps<L>,
) -> Result<(), ExecFault>
    requires end { IsEnd store.old (Ok end.now) }
    requires change { ChangesUpTo (2 ^ 63 - 1) store.old.world }
    ensures came { Came result store.old store.new (λ state. concluded state (Ok (end_in store.old (Ok end.now)))) (S.taken out.old) (S.taken out.new) (S.faults out.old) (S.faults out.new) }
    ensures asked { AsksAtMost (most_for store.old.world (Ok (end_in store.old (Ok end.now)))) steps.old steps.new }
{
    match end {
        End::View(n) => print(store, *n, reply, out, steps),
        End::Call(n, call) => call_on(store, *n, call, reply, out, steps),
        End::With(n, word, other) => call_with_on(store, *n, *word, *other, reply, out, steps),
    }
}
