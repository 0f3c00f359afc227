//! Another view, read whole before anything changes.
ghost use Rattle.std.specs.Prelude.{◌≡◌, ◌<◌, ◌||◌, IfErr, IfOk, OnOk, is_some, length};
ghost use Rattle.std.specs.List.{list_any};
ghost use Rattle.base_store.specs.Stored.{view_in};
ghost use Rattle.elem.specs.declared.elements.Elem.{Elem as AnyElem};
ghost use Rattle.elem.specs.Elements as elements;
ghost use Rattle.machine.specs.Shown.{has_key};
ghost use Rattle.machine.specs.Views.{shown};
ghost use Rattle.vocabulary.specs.declared.refusals.Refusal.TheVariants as refusals;
ghost use Rattle.write_chain.specs.Members as spec;

use base_rows::RowTest;
use base_store::{AnyRef, Store};
use elem::{Elem, NoMemory, Steps};
use linked_base::FreeLinkedMap;
use read_chain::Walk;
use std::sync::ledger::Ledger;
use vocabulary::{Item, Refusal, key_of};

/// The items that a view shows, in order.
///
/// # Errors
///
/// `NoMemory`.
pub(crate) fn collected<L: Ledger>(
    store: &Store,
    n: AnyRef,
    steps: &mut Steps<L>,
) -> Result<Vec<Item>, Refusal>
    requires { n < length store.now.nodes }
    ensures items { IfOk result (λ found. found.items ≡ shown store.now.world (view_in store.now n)) }
    ensures cause { IfErr result (λ why. why ≡ refusals.NoMemory) }
{
    let mut found = Vec::new(store.alloc());
    let mut walk = Walk::over(store, n, false);
    while let Some(item) = walk.next(store, steps) {
        if found.push(item).is_err() {
            return Err(Refusal::NoMemory);
        }
    }
    Ok(found)
}

/// Sees to it that an element is a member.
fn add_member(members: &mut FreeLinkedMap<()>, x: &Elem) -> Result<(), NoMemory>
    ensures { OnOk result ((y : AnyElem) → spec.is_member members.new y ≡ elements.same y x.now || spec.is_member members.old y) }
{
    if members.probe(*x).is_some() {
        return Ok(());
    }
    members.insert(*x, ())
}

/// The keys of the items that a view shows.
///
/// # Errors
///
/// `NoMemory`.
pub(crate) fn members_of<L: Ledger>(
    store: &Store,
    n: AnyRef,
    steps: &mut Steps<L>,
) -> Result<FreeLinkedMap<()>, Refusal>
    requires { n < length store.now.nodes }
    ensures members { IfOk result (λ rows. (x : AnyElem) → spec.is_member rows x ≡ list_any (has_key x) (shown store.now.world (view_in store.now n))) }
    ensures cause { IfErr result (λ why. why ≡ refusals.NoMemory) }
{
    let mut members = FreeLinkedMap::with_hasher(store.alloc(), store.seed());
    let mut walk = Walk::over(store, n, false);
    while let Some(item) = walk.next(store, steps) {
        let Ok(()) = add_member(&mut members, &key_of(&item)) else {
            return Err(Refusal::NoMemory);
        };
    }
    Ok(members)
}

/// A test of items: those that are among some elements, or those that are not.
#[derive(Drop)]
pub(crate) struct Among {
    pub(crate) members: FreeLinkedMap<()>,
    pub(crate) out: bool,
}

/// Whether an item is one of the members.
fn is_among(members: &FreeLinkedMap<()>, item: &Item) -> bool
    ensures { result ≡ spec.is_among members.now item.now }
{
    match item {
        Item::One(x) => members.probe(*x).is_some(),
        _ => false,
    }
}

impl RowTest for Among {
    ghost use Rattle.write_chain.specs.Members.{among_passes};

    ghost passes = { among_passes };

    fn test(&self, item: &Item) -> bool {
        if self.out {
            !is_among(&self.members, item)
        } else {
            is_among(&self.members, item)
        }
    }
}
