//! Walks over what a view shows.
ghost use Rattle.std.specs.Prelude.{◌≡◌, ◌<◌, ◌≤◌, ◌+◌, drop, length, IfNone, IfSome};
ghost use Rattle.base_store.specs.Stored.{view_in};
ghost use Rattle.read_chain.specs.Walks.{IsWalk, TakesFirst, found_along, to_come};
ghost use Rattle.view_laws.specs.Lanes.{turned_if};
ghost use Rattle.machine.specs.Views.{shown};

use crate::places::found_of_row;
use base_store::{AnyRef, Course, Store};
use elem::Steps;
use std::sync::ledger::Ledger;
use view_laws::{Found, RowSpot};
use vocabulary::Item;

/// A walk over what a view shows, from its front or from its back. It keeps its course along the base, the spot of the row
/// that it passed last, and how many it passed; those of hidden items count.
#[derive(Clone, Copy)]
pub struct Walk {
    node: AnyRef,
    back: bool,
    course: Course,
    last: Option<RowSpot>,
    passed: usize,
}

impl Walk {
    /// A walk that has passed nothing yet.
    pub fn over(store: &Store, node: AnyRef, back: bool) -> Walk
        requires { node < length store.now.nodes }
        ensures walk { IsWalk store.now result }
        ensures items { to_come store.now result ≡ turned_if back (shown store.now.world (view_in store.now node)) }
    {
        Walk::starting(store, node, back)
    }

    /// A walk at its start.
    pub(crate) fn starting(store: &Store, node: AnyRef, back: bool) -> Walk
        requires { node < length store.now.nodes }
        ensures walk { IsWalk store.now result }
        ensures node { result.node ≡ node }
        ensures back { result.back ≡ back }
        ensures passed { result.passed ≡ 0 }
    {
        Walk {
            node,
            back,
            course: store.course(node, back),
            last: None,
            passed: 0,
        }
    }

    /// The next item that is shown. It asks the base once for each row that it passes, and once more at the end.
    pub fn next<L: Ledger>(&mut self, store: &Store, steps: &mut Steps<L>) -> Option<Item>
        requires { IsWalk store.now self.old }
        ensures walk { IsWalk store.now self.new }
        ensures item { TakesFirst (to_come store.now self.old) result (to_come store.now self.new) }
        ensures steps { steps.new + self.old.passed ≤ steps.old + self.new.passed + 1 }
    {
        while let Some(found) = self.pass(store, steps) {
            if found.seen {
                return Some(found.item);
            }
        }
        None
    }

    /// What the view has at the next place, shown or hidden, which the walk then has passed.
    pub(crate) fn pass<L: Ledger>(&mut self, store: &Store, steps: &mut Steps<L>) -> Option<Found>
        requires { IsWalk store.now self.old }
        ensures walk { IsWalk store.now self.new }
        ensures node { self.new.node ≡ self.old.node }
        ensures back { self.new.back ≡ self.old.back }
        ensures found { TakesFirst (drop self.old.passed (found_along store.now self.old.node self.old.back)) result (drop self.new.passed (found_along store.now self.old.node self.old.back)) }
        ensures passed { IfSome result (λ _. self.new.passed ≡ self.old.passed + 1) }
        ensures stays { IfNone result (self.new ≡ self.old) }
        ensures step { steps.new ≤ steps.old + 1 }
    {
        store.is_lawful(self.node);
        let _rows = store.len(store.base_of(self.node));
        match store.next_row(&self.course, &self.last, steps) {
            Some(next) => {
                self.last = Some(next.spot);
                self.passed += 1;
                Some(found_of_row(store, self.node, &next.row))
            }
            None => None,
        }
    }

    /// The spot of the row that the walk passed last.
    pub(crate) fn last(&self) -> Option<RowSpot>
        ensures { result ≡ self.now.last }
    {
        self.last
    }
}
