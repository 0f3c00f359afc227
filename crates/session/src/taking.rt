//! Making the view of a step, with the argument that a text is.
ghost use Rattle.std.specs.Prelude.{◌≡◌, ◌+◌, ◌<◌, ◌≤◌, true, length, IfSome, IsSome, Ok};
ghost use Rattle.base_store.specs.Stored.{view_in};
ghost use Rattle.session.specs.Following.{Steps, asked};
ghost use Rattle.vocabulary.specs.Known.{is_known_step};
ghost use Rattle.machine.specs.Making.{by};
ghost use Rattle.vocabulary.specs.StepShapes.{apply, apply_form};
ghost use Rattle.machine.specs.Views as view;
ghost use Rattle.view_steps.specs.KnownViews.{is_known};
ghost use Rattle.vocabulary.specs.declared.steps.StepForm.TheVariants as form;

use base_store::{AnyRef, Store};
use elem::{SpanFault, Window, read_span};
use fn_lang::{FnFault, read_func, read_pair_pred, read_pred};
use read_chain::make_view;
use vocabulary::{ChangeStep, FilterStep, Order, Refusal, Step, StepForm};

/// Makes the view of a known step with the argument that a text is over a view, unless the argument or the step is refused.
pub(crate) fn take_step(
    store: &mut Store,
    node: AnyRef,
    form: StepForm,
    text: &[u8],
) -> Result<AnyRef, Refusal>
    requires node { node < length store.old.nodes }
    requires room { length store.old.nodes ≤ store.old.lasting + view.path (view_in store.old node) }
    requires known { is_known_step form ≡ true }
    requires given { IsSome (apply_form (view.shape_at store.old.world (view_in store.old node)) form) }
    requires short { length text.now ≤ 1024 }
    ensures { IfSome (asked form text.now) (λ it. Steps store.old store.new node it result) }
{
    match form {
        StepForm::Plain(word) => make_step(store, node, Step::Plain(word)),
        StepForm::Filter(word) => take_filter(store, node, word, text),
        StepForm::FilterPairs => take_pair_filter(store, node, text),
        StepForm::Change(word) => take_change(store, node, word, text),
        StepForm::Within => take_within(store, node, text),
        _ => Err(Refusal::Limit),
    }
}

// What is read is large: each of these has a frame of its own, which a plain step does not pay for.

#[inline(never)]
fn take_filter(
    store: &mut Store,
    node: AnyRef,
    word: FilterStep,
    text: &[u8],
) -> Result<AnyRef, Refusal>
    requires node { node < length store.old.nodes }
    requires room { length store.old.nodes ≤ store.old.lasting + view.path (view_in store.old node) }
    requires given { IsSome (apply_form (view.shape_at store.old.world (view_in store.old node)) (form.Filter word)) }
    requires short { length text.now ≤ 1024 }
    ensures { IfSome (asked (form.Filter word) text.now) (λ it. Steps store.old store.new node it result) }
{
    match read_pred(text) {
        Ok(p) => make_step(store, node, Step::Filter(word, p.lend())),
        Err(FnFault::NotGrammar) => Err(Refusal::Limit),
        Err(FnFault::TooLarge) => Err(Refusal::Limit),
    }
}

#[inline(never)]
fn take_pair_filter(store: &mut Store, node: AnyRef, text: &[u8]) -> Result<AnyRef, Refusal>
    requires node { node < length store.old.nodes }
    requires room { length store.old.nodes ≤ store.old.lasting + view.path (view_in store.old node) }
    requires given { IsSome (apply_form (view.shape_at store.old.world (view_in store.old node)) form.FilterPairs) }
    requires short { length text.now ≤ 1024 }
    ensures { IfSome (asked form.FilterPairs text.now) (λ it. Steps store.old store.new node it result) }
{
    match read_pair_pred(text) {
        Ok(q) => make_step(store, node, Step::FilterPairs(q.lend())),
        Err(FnFault::NotGrammar) => Err(Refusal::Limit),
        Err(FnFault::TooLarge) => Err(Refusal::Limit),
    }
}

#[inline(never)]
fn take_change(
    store: &mut Store,
    node: AnyRef,
    word: ChangeStep,
    text: &[u8],
) -> Result<AnyRef, Refusal>
    requires node { node < length store.old.nodes }
    requires room { length store.old.nodes ≤ store.old.lasting + view.path (view_in store.old node) }
    requires given { IsSome (apply_form (view.shape_at store.old.world (view_in store.old node)) (form.Change word)) }
    requires short { length text.now ≤ 1024 }
    ensures { IfSome (asked (form.Change word) text.now) (λ it. Steps store.old store.new node it result) }
{
    match read_func(text) {
        Ok(f) => make_step(store, node, Step::Change(word, f.lend())),
        Err(FnFault::NotGrammar) => Err(Refusal::Limit),
        Err(FnFault::TooLarge) => Err(Refusal::Limit),
    }
}

#[inline(never)]
fn take_within(store: &mut Store, node: AnyRef, text: &[u8]) -> Result<AnyRef, Refusal>
    requires node { node < length store.old.nodes }
    requires room { length store.old.nodes ≤ store.old.lasting + view.path (view_in store.old node) }
    requires given { IsSome (apply_form (view.shape_at store.old.world (view_in store.old node)) form.Within) }
    ensures { IfSome (asked form.Within text.now) (λ it. Steps store.old store.new node it result) }
{
    match read_span(text) {
        Ok(range) => {
            let window = Window {
                lo: range.lo,
                hi: range.hi,
            };
            make_step(store, node, Step::Within(Order::Natural, window))
        }
        Err(SpanFault::NotGrammar) => Err(Refusal::IllegalArgument),
        Err(SpanFault::Invalid) => Err(Refusal::IllegalArgument),
    }
}

/// Makes the view of a known step over a view, unless the step is refused.
fn make_step(store: &mut Store, node: AnyRef, step: Step<'_>) -> Result<AnyRef, Refusal>
    requires node { node < length store.old.nodes }
    requires room { length store.old.nodes ≤ store.old.lasting + view.path (view_in store.old node) }
    requires known { is_known step ≡ true }
    requires given { IsSome (apply (view.shape_at store.old.world (view_in store.old node)) step) }
    ensures { Steps store.old store.new node (Ok (by step.entry)) result }
{
    make_view(store, node, step)
}
