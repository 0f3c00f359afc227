//! Removing from a base what a view shows.
ghost use Rattle.std.specs.Prelude.{◌≡◌, ◌<◌, ◌≤◌, ◌^◌, false, is_some, length, true};
ghost use Rattle.std.specs.List.{list_any};
ghost use Rattle.base_store.specs.Courses.{IsCourse};
ghost use Rattle.base_store.specs.Hits.{StandBelow};
ghost use Rattle.base_store.specs.Nodes.{view_at};
ghost use Rattle.base_rows.specs.Reaches.{Reaches};
ghost use Rattle.base_store.specs.Stored.{view_in, with_world};
ghost use Rattle.elem.specs.Keyed.{value_at};
ghost use Rattle.vocabulary.specs.declared.items.Item.{Item as AnItem};
ghost use Rattle.view_laws.specs.Lanes.{all};
ghost use Rattle.machine.specs.CallEdits.{all_hits};
ghost use Rattle.machine.specs.Edits.{edited, removing};
ghost use Rattle.view_steps.specs.KnownViews.{edited_at, is_known_view, number_under};
ghost use Rattle.vocabulary.specs.Items.{key_of};
ghost use Rattle.vocabulary.specs.Known.{is_known_kind};
ghost use Rattle.machine.specs.RowCounts.{rows_in};
ghost use Rattle.vocabulary.specs.Limits.{most_rows};
ghost use Rattle.base_rows.specs.BaseSpots.{HasKeys};
ghost use Rattle.view_laws.specs.RowForm.{form_of, shows};
ghost use Rattle.view_steps.specs.RowHits.{is_row_hit};
ghost use Rattle.vocabulary.specs.Shapes.{is_keyed};
ghost use Rattle.machine.specs.Bases.{base_at};
ghost use Rattle.machine.specs.Views.{candidates, shape_at, shown};

use super::nodes::Nodes;
use super::shown::Shown;
use super::writing::rows_at;
use super::{Course, Slot, Store};
use crate::{AnyRef, Node};
use base_rows::{Reach, RowTest};
use elem::Steps;
use linked_base::FreeLinkedMap;
use std::sync::ledger::Ledger;
use vocabulary::{Family, Side, family_of};

impl Store {
    /// Removes the rows that a view shows whose items pass a test, and tells whether there were any. It looks at the
    /// rows of the view's window alone, and takes no memory.
    pub fn drop_shown<T: RowTest, L: Ledger>(
        &mut self,
        n: AnyRef,
        test: &T,
        steps: &mut Steps<L>,
    ) -> bool
        requires node { n < length self.old.nodes }
        requires change { (base_at self.old.world (number_under (view_in self.old n))).change < 2 ^ 63 }
        ensures any { result ≡ list_any (T.passes test.now) (shown self.old.world (view_in self.old n)) }
        ensures after { self.new ≡ with_world self.old (edited_at self.old.world (number_under (view_in self.old n)) (removing (all_hits (T.passes test.now) (candidates self.old.world (view_in self.old n))))) }
        ensures few { rows_in self.new.world ≤ most_rows }
    {
        let course = self.course(n, false);
        let reach = self.reach_of(n, test, &course);
        self.drop_reached(n, reach, test, steps)
    }

    /// Removes the same rows from under a view in which no two items have the same key, where only items of some keys
    /// pass. It looks at the rows of these keys alone.
    pub fn drop_of_keys<T: RowTest, L: Ledger>(
        &mut self,
        n: AnyRef,
        keys: &FreeLinkedMap<()>,
        test: &T,
        steps: &mut Steps<L>,
    ) -> bool
        requires node { n < length self.old.nodes }
        requires keyed { is_keyed (shape_at self.old.world (view_in self.old n)) ≡ true }
        requires keys { (item : AnItem) → T.passes test.now item ≡ true → is_some (value_at keys.now (key_of item)) ≡ true }
        requires change { (base_at self.old.world (number_under (view_in self.old n))).change < 2 ^ 63 }
        ensures any { result ≡ list_any (T.passes test.now) (shown self.old.world (view_in self.old n)) }
        ensures after { self.new ≡ with_world self.old (edited_at self.old.world (number_under (view_in self.old n)) (removing (all_hits (T.passes test.now) (candidates self.old.world (view_in self.old n))))) }
        ensures few { rows_in self.new.world ≤ most_rows }
    {
        self.is_lawful(n);
        let _base = self.base_of(n);
        let side = self.part_below(n, Side::First);
        self.drop_reached(n, Reach::At(side, keys), test, steps)
    }

    /// Removes the rows that a view shows whose items pass a test, which a reach holds.
    fn drop_reached<T: RowTest, L: Ledger>(
        &mut self,
        n: AnyRef,
        reach: Reach<'_>,
        test: &T,
        steps: &mut Steps<L>,
    ) -> bool
        requires node { n < length self.old.nodes }
        requires change { (base_at self.old.world (number_under (view_in self.old n))).change < 2 ^ 63 }
        requires reach { Reaches (base_at self.old.world (number_under (view_in self.old n))).kind reach (is_row_hit (T.passes test.now) (form_of (view_in self.old n))) }
        ensures any { result ≡ list_any (T.passes test.now) (shown self.old.world (view_in self.old n)) }
        ensures after { self.new ≡ with_world self.old (edited_at self.old.world (number_under (view_in self.old n)) (removing (all_hits (T.passes test.now) (candidates self.old.world (view_in self.old n))))) }
        ensures few { rows_in self.new.world ≤ most_rows }
    {
        let at = self.base_of(n).number();
        let before = rows_at(self.slots.as_slice(), at);
        drop_in(
            &mut self.slots,
            at,
            &self.nodes,
            n.number(),
            reach,
            test,
            steps,
        );
        let after = rows_at(self.slots.as_slice(), at);
        self.rows = self.rows - before + after;
        after < before
    }

    /// Where the rows stand that a view shows whose items pass a test: in the lane of its base, if not all go.
    fn reach_of<'a, T: RowTest>(&self, n: AnyRef, test: &T, course: &'a Course) -> Reach<'a>
        requires node { n < length self.now.nodes }
        requires course { IsCourse self.now.world (view_in self.now n) all false course.now }
        ensures { Reaches (base_at self.now.world (number_under (view_in self.now n))).kind result (is_row_hit (T.passes test.now) (form_of (view_in self.now n))) }
    {
        self.is_lawful(n);
        let _base = self.base_of(n);
        if test.takes_all() {
            if self.shows_each(n) {
                return Reach::Whole;
            }
        }
        Reach::Along(&course.lane)
    }

    /// Whether no step of a view leaves a row out or hides one.
    fn shows_each(&self, n: AnyRef) -> bool
        requires { n < length self.now.nodes }
        ensures { result ≡ true → (row : AnItem) → shows (form_of (view_in self.now n)) row ≡ true }
    {
        match self.node(n) {
            Node::Base(_) => true,
            Node::Step { step, parent } => match family_of(&step) {
                Family::Hidden | Family::Cut => false,
                _ => self.shows_each(parent),
            },
        }
    }
}

/// Removes the rows of a base that a view over it shows whose items pass a test, which a reach holds.
fn drop_in<T: RowTest, L: Ledger>(
    slots: &mut Vec<Slot>,
    b: usize,
    nodes: &Nodes,
    n: usize,
    reach: Reach<'_>,
    test: &T,
    steps: &mut Steps<L>,
)
    requires base { b < length slots.old.items }
    requires change { (base_at slots.old.items b).change < 2 ^ 63 }
    requires within { n < length nodes.now.made }
    requires below { StandBelow nodes.now.made }
    requires known { is_known_view (view_at nodes.now.made n) ≡ true }
    requires under { b ≡ number_under (view_at nodes.now.made n) }
    requires kind { is_known_kind (base_at slots.old.items b).kind ≡ true }
    requires reach { Reaches (base_at slots.old.items b).kind reach (is_row_hit (T.passes test.now) (form_of (view_at nodes.now.made n))) }
    ensures after { slots.new.items ≡ edited_at slots.old.items b (removing (all_hits (T.passes test.now) (candidates slots.old.items (view_at nodes.now.made n)))) }
    ensures keys { HasKeys (edited (base_at slots.old.items b) (removing (all_hits (T.passes test.now) (candidates slots.old.items (view_at nodes.now.made n))))) }
{
    let shown = Shown { nodes, n, test };
    let slot = &mut slots[b];
    slot.drop_all(reach, &shown, steps);
}
