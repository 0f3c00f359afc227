//! The calls on views.
ghost use Rattle.std.specs.Prelude.{◌≡◌, ◌<◌, ◌^◌, ◌-◌, true, length, Ok, IfOk};
ghost use Rattle.base_store.specs.Stored.{view_in};
ghost use Rattle.session.specs.Bounds.{AsksAtMost, most_of_call};
ghost use Rattle.session.specs.Coming.{Came};
ghost use Rattle.session.specs.KnownShapes.{is_known_answer};
ghost use Rattle.session.specs.Replying.{Tells};
ghost use Rattle.vocabulary.specs.Fits as spec;
ghost use Rattle.vocabulary.specs.Known.{form_of_call, is_known_call, is_known_other};
ghost use Rattle.machine.specs.Calling.{ended};
ghost use Rattle.machine.specs.Meanings.{calls, calls_with};
ghost use Rattle.machine.specs.RowCounts.{ChangesUpTo};
ghost use Rattle.machine.specs.Views.{shape_at};

use crate::faults::ExecFault;
use crate::replies::{Reply, refuse, say_answer};
use base_store::{AnyRef, Store};
use elem::{Sink, Steps};
use std::sync::ledger::Ledger;
use vocabulary::{Answer, Call, OnOther, Refusal};

/// Executes a known call that the view of a node has.
pub fn call_on<S: Sink, L: Ledger>(
    store: &mut Store,
    n: AnyRef,
    call: &Call,
    reply: &mut Reply,
    out: &mut S,
    steps: &mut Steps<L>,
) -> Result<(), ExecFault>
    requires node { n < length store.old.nodes }
    requires fits { spec.fits (shape_at store.old.world (view_in store.old n)) call.now ≡ true }
    requires known { is_known_call (form_of_call call.now) ≡ true }
    requires change { ChangesUpTo (2 ^ 63 - 1) store.old.world }
    ensures came { Came result store.old store.new (λ state. ended state (calls (Ok call.now)) (view_in store.old n)) (S.taken out.old) (S.taken out.new) (S.faults out.old) (S.faults out.new) }
    ensures asked { AsksAtMost (most_of_call store.old.world (view_in store.old n) call.now) steps.old steps.new }
{
    let _base = store.base_of(n);
    let answer = write_chain::call(store, n, call, steps);
    tell(answer, reply, out)
}

/// Executes a known call that the view of a node has with that of another.
pub fn call_with_on<S: Sink, L: Ledger>(
    store: &mut Store,
    n: AnyRef,
    word: OnOther,
    other: AnyRef,
    reply: &mut Reply,
    out: &mut S,
    steps: &mut Steps<L>,
) -> Result<(), ExecFault>
    requires node { n < length store.old.nodes }
    requires other { other < length store.old.nodes }
    requires fits { spec.fits_with (shape_at store.old.world (view_in store.old n)) word (shape_at store.old.world (view_in store.old other)) ≡ true }
    requires known { is_known_other word ≡ true }
    requires change { ChangesUpTo (2 ^ 63 - 1) store.old.world }
    ensures { Came result store.old store.new (λ state. ended state (calls_with word (view_in store.old other)) (view_in store.old n)) (S.taken out.old) (S.taken out.new) (S.faults out.old) (S.faults out.new) }
{
    let _base = store.base_of(n);
    let _other_base = store.base_of(other);
    let answer = write_chain::call_with(store, n, word, other, steps);
    tell(answer, reply, out)
}

/// Says an answer, or why there is none.
fn tell<S: Sink>(
    answer: Result<Answer, Refusal>,
    reply: &mut Reply,
    out: &mut S,
) -> Result<(), ExecFault>
    requires { IfOk answer (λ it. is_known_answer it ≡ true) }
    ensures { Tells answer result (S.taken out.old) (S.taken out.new) (S.faults out.old) (S.faults out.new) }
{
    match answer {
        Ok(answer) => say_answer(reply, out, &answer),
        Err(refusal) => refuse(reply, out, refusal),
    }
}
