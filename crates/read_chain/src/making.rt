//! Making a view: the tests of a step, and its node.
ghost use Rattle.std.specs.Prelude.{◌≡◌, ◌<◌, ◌≤◌, ◌+◌, ◌⊎◌, length, true, IfOk, IsSome, OnErr, OnOk};
ghost use Rattle.base_store.specs.Stored.{view_in, with_node};
ghost use Rattle.base_store.specs.declared.store.Made.TheVariants.{Over as step_node};
ghost use Rattle.read_chain.specs.Reads.{refusal_in};
ghost use Rattle.machine.specs.KeptSteps.{kept};
ghost use Rattle.view_steps.specs.KnownViews.{is_known};
ghost use Rattle.machine.specs.Making.{step_refusal};
ghost use Rattle.vocabulary.specs.StepShapes.{apply};
ghost use Rattle.machine.specs.Views.{over, path, shape_at};

use base_store::{AnyRef, Store};
use vocabulary::{Refusal, Step, kept_on, takes_argument};

/// The longest path of steps.
const LONGEST_PATH: usize = 32;

/// A temporary view: a known step over a view, unless the step is refused. It takes no memory.
///
/// # Errors
///
/// `IllegalArgument` where a range does not lie in the window of the view, or is not in the order of its base; `Limit`
/// where 32 steps lead to the view.
pub fn make_view(store: &mut Store, parent: AnyRef, step: Step<'_>) -> Result<AnyRef, Refusal>
    requires parent { parent < length store.old.nodes }
    requires room { (length store.old.nodes < store.old.lasting + 32) ⊎ (32 ≤ path (view_in store.old parent)) }
    requires known { is_known step ≡ true }
    requires given { IsSome (apply (shape_at store.old.world (view_in store.old parent)) step) }
    ensures refusal { refusal_in result ≡ step_refusal store.old.world (view_in store.old parent) step.entry }
    ensures number { IfOk result (λ n. n ≡ length store.old.nodes) }
    ensures view { IfOk result (λ n. view_in store.new n ≡ over (kept store.old.world (view_in store.old parent) step.entry) (view_in store.old parent)) }
    ensures made { OnOk result (store.new ≡ with_node store.old (step_node (kept store.old.world (view_in store.old parent) step.entry) parent)) }
    ensures err { OnErr result (store.new ≡ store.old) }
{
    let _base = store.base_of(parent);
    let order = store.order_of(parent);
    let window = store.window_of(parent);
    if !takes_argument(order, &window, &step) {
        return Err(Refusal::IllegalArgument);
    }
    if store.path(parent) >= LONGEST_PATH {
        return Err(Refusal::Limit);
    }
    Ok(store.new_view(parent, &kept_on(order, &window, step)))
}
