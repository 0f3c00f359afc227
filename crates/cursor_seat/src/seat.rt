//! A seat in a view.
ghost use Rattle.std.specs.Prelude.{◌≡◌, ◌<◌, ◌≤◌, ◌+◌, ◌-◌, ◌^◌, IfOk, length};
ghost use Rattle.base_store.specs.Courses.{spots_in};
ghost use Rattle.base_store.specs.Stored.{Stored, view_in};
ghost use Rattle.cursor_seat.specs.Lives.{to_give};
ghost use Rattle.cursor_seat.specs.Seats.{Fits, Gone, NextCame, RemoveCame, ahead_of, hidden_ahead, iterator_in, seat_view};
ghost use Rattle.machine.specs.Iterators as iterators;
ghost use Rattle.machine.specs.RowCounts.{ChangesUpTo};
ghost use Rattle.machine.specs.Views.{shown};
ghost use Rattle.read_chain.specs.Reads.{refusal_in};
ghost use Rattle.view_laws.specs.ViewPlaces.{StandsFor};

use crate::seeking::seek;
use crate::seen::Seen;
use crate::stand::Stand;
use crate::there::is_there;
use base_store::{AnyRef, Store};
use elem::Steps;
use std::sync::ledger::Ledger;
use view_laws::Place;
use vocabulary::{Item, Refusal};

/// An iterator over a view, as `java.util.Iterator` is one: it gives the items that the view shows, in order, each once,
/// and may remove the one that it gave last.
///
/// It holds the node of the view, how many candidates it has passed, where it stands, and the change number of each base
/// of the view that it has seen. It holds no store, and is handed the store of its view at each call.
#[derive(Clone, Copy)]
pub struct Seat {
    node: AnyRef,
    seen: Seen,
    passed: usize,
    stand: Stand,
}

impl Seat {
    /// A seat before the first item of a view.
    pub fn over(store: &Store, n: AnyRef) -> Seat
        requires { n < length store.now.nodes }
        ensures fits { Fits store.now result }
        ensures iterator { iterator_in store.now result ≡ iterators.iterator_over store.now.world (view_in store.now n) }
        ensures items { to_give store.now.world (iterator_in store.now result) ≡ shown store.now.world (view_in store.now n) }
        ensures node { result.node ≡ n }
    {
        is_there(store, n);
        Seat {
            node: n,
            seen: Seen::of(store, n),
            passed: 0,
            stand: Stand::Behind(None),
        }
    }

    /// The node of its view.
    pub fn node(&self) -> AnyRef
        ensures { result ≡ self.now.node }
    {
        self.node
    }

    /// Whether a base of the view has changed under the seat.
    fn is_stale(&self, store: &Store) -> bool
        requires { Fits store.now self.now }
        ensures { result ≡ iterators.is_passed_by store.now.world (iterator_in store.now self.now) }
    {
        !self.seen.is_last(store, self.node)
    }

    /// Whether an item is left. The seat stays where it is. The base is asked once for each hidden candidate on the way,
    /// and once more.
    ///
    /// # Errors
    ///
    /// `ConcurrentModification` where a base of the view has changed under the seat.
    pub fn has_next<L: Ledger>(&self, store: &Store, steps: &mut Steps<L>) -> Result<bool, Refusal>
        requires { Fits store.now self.now }
        ensures answer { result ≡ iterators.has_next store.now.world (iterator_in store.now self.now) }
        ensures steps { steps.new ≤ steps.old + hidden_ahead (ahead_of store.now self.now) + 1 }
    {
        if self.is_stale(store) {
            return Err(Refusal::ConcurrentModification);
        }
        match seek(store, self.node, self.passed, self.stand.last(), steps) {
            Some(_) => Ok(true),
            None => Ok(false),
        }
    }

    /// The next item. The base is asked as often as by `has_next`.
    ///
    /// # Errors
    ///
    /// `ConcurrentModification` where a base of the view has changed under the seat, and `NoSuchElement` where no item is
    /// left. The seat stays as it was, and what it gave last can still be removed.
    pub fn next<L: Ledger>(&mut self, store: &Store, steps: &mut Steps<L>) -> Result<Item, Refusal>
        requires { Fits store.now self.old }
        ensures came { NextCame result store.now self.old self.new }
        ensures fits { Fits store.now self.new }
        ensures node { self.new.node ≡ self.old.node }
        ensures steps { steps.new ≤ steps.old + hidden_ahead (ahead_of store.now self.old) + 1 }
    {
        if self.is_stale(store) {
            return Err(Refusal::ConcurrentModification);
        }
        match seek(store, self.node, self.passed, self.stand.last(), steps) {
            None => Err(Refusal::NoSuchElement),
            Some(next) => {
                self.passed = next.passed;
                self.stand = next.stand;
                Ok(next.item)
            }
        }
    }

    /// The place of the candidate whose item was given last, to be removed.
    ///
    /// # Errors
    ///
    /// `UnsupportedOperation` where the view does not let an iterator remove, else `IllegalState` where nothing was given
    /// since the start or the last removal, else `ConcurrentModification` where a base of the view has changed under the seat.
    pub fn to_remove(&self, store: &Store) -> Result<Place, Refusal>
        requires { Fits store.now self.now }
        ensures refusal { refusal_in result ≡ iterators.remove_refusal store.now.world (iterator_in store.now self.now) }
        ensures place { IfOk result (λ p. StandsFor store.now.world (spots_in store.now.world) (seat_view store.now self.now) p (self.now.passed - 1)) }
    {
        if !store.flags_of(self.node).iterate {
            return Err(Refusal::UnsupportedOperation);
        }
        match self.stand {
            Stand::Behind(_) => Err(Refusal::IllegalState),
            Stand::Gave { at, .. } => {
                if self.is_stale(store) {
                    return Err(Refusal::ConcurrentModification);
                }
                Ok(at)
            }
        }
    }

    /// Removes what was given last, in one call of the base. It takes no memory.
    ///
    /// # Errors
    ///
    /// As `to_remove`. The seat and the store stay as they were.
    pub fn remove<L: Ledger>(
        &mut self,
        store: &mut Store,
        steps: &mut Steps<L>,
    ) -> Result<(), Refusal>
        requires fits { Fits store.old self.old }
        requires change { ChangesUpTo (2 ^ 63 - 1) store.old.world }
        ensures came { RemoveCame result store.old store.new self.old self.new }
        ensures fits { Fits store.new self.new }
        ensures node { self.new.node ≡ self.old.node }
        ensures steps { steps.new ≤ steps.old + 1 }
    {
        match self.to_remove(store) {
            Err(why) => Err(why),
            Ok(place) => {
                let base = store.base_of(self.node);
                store.remove_row(base, &place.spot, steps);
                self.mark_removed(store);
                Ok(())
            }
        }
    }

    /// Goes back behind the candidate before the one that was given last, which is gone now, and has seen the change.
    pub fn mark_removed(&mut self, store: &Store)
        requires { self.old.node < length store.now.nodes }
        ensures iterator { (earlier : Stored) → Gone earlier self.old store.now → iterator_in store.now self.new ≡ iterators.after_removal earlier.world store.now.world (iterator_in earlier self.old) }
        ensures fits { (earlier : Stored) → Gone earlier self.old store.now → Fits store.now self.new }
        ensures node { self.new.node ≡ self.old.node }
    {
        is_there(store, self.node);
        self.passed = self.passed.saturating_sub(1);
        self.stand = self.stand.behind_gone();
        self.seen = Seen::of(store, self.node);
    }
}
