//! Removing all that a view shows, or all of it that passes a test.
ghost use Rattle.std.specs.Prelude.{◌≡◌, ◌<◌, ◌^◌, ◌-◌, Ok, length, true};
ghost use Rattle.base_store.specs.Stored.{view_in};
ghost use Rattle.machine.specs.CallEdits.{all_hits};
ghost use Rattle.machine.specs.RowCounts.{ChangesUpTo};
ghost use Rattle.machine.specs.Views.{candidates};
ghost use Rattle.vocabulary.specs.declared.answers.Answer.TheVariants as answers;
ghost use Rattle.write_chain.specs.Calls.{Came, removed};

use base_store::{AnyRef, Store};
use elem::Steps;
use read_chain::ItemTest;
use std::sync::ledger::Ledger;
use vocabulary::Answer;

/// Removes all that a view shows. What is hidden stays.
pub(crate) fn clear<L: Ledger>(store: &mut Store, n: AnyRef, steps: &mut Steps<L>) -> Answer
    requires node { n < length store.old.nodes }
    requires change { ChangesUpTo (2 ^ 63 - 1) store.old.world }
    ensures { Came (Ok result) store.old store.new (removed store.old.world (view_in store.old n) (all_hits (λ item. true) (candidates store.old.world (view_in store.old n))) answers.Done) }
{
    store.drop_shown(n, &ItemTest::Any, steps);
    Answer::Done
}
