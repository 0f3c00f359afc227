//! Lanes: what a walk or a look-up asks of a view.
ghost use Rattle.std.specs.Prelude.{◌≡◌};
ghost use Rattle.view_laws.specs.Lanes as spec;

use elem::{Elem, Window, same};
use vocabulary::{Item, Order, Side, key_of, lies_in, second_of};

/// What is asked of one of the two parts of an item.
#[derive(Clone, Copy)]
pub enum PartAsk {
    Any,
    Is(Elem),
    /// That it lies in a window, which is read in an order.
    Within(Order, Window),
    Nothing,
}

/// In which order the keys of groups go.
#[derive(Clone, Copy)]
pub enum GroupOrder {
    /// As the candidates come, pair by pair.
    AsTheyCome,
    /// By the first candidate of each.
    ByFirst,
    /// As the base keeps them.
    OfBase,
    Sorted(Order),
}

/// A run of what is seen, counted from the front or from the back.
#[derive(Clone, Copy)]
pub struct Run {
    pub start: usize,
    pub len: usize,
    pub from_back: bool,
}

/// Which candidates are walked, before anything is asked of their items.
#[derive(Clone, Copy)]
pub enum Pick {
    Each,
    /// The first of each key, where the keys are told by a part of the items and go in an order.
    Firsts(Side, GroupOrder),
    /// The last of each key, where keys go by their last candidates.
    Lasts(Side),
    Run(Run),
}

/// Which candidates of a view a walk visits.
#[derive(Clone, Copy)]
pub struct Lane {
    pub first: PartAsk,
    pub second: PartAsk,
    pub pick: Pick,
}

/// Whether an element is as asked.
pub fn meets(ask: &PartAsk, x: &Elem) -> bool
    ensures { result ≡ spec.meets ask.now x.now }
{
    match ask {
        PartAsk::Any => true,
        PartAsk::Is(y) => same(y, x),
        PartAsk::Within(order, window) => lies_in(*order, window, x),
        PartAsk::Nothing => false,
    }
}

/// Whether a lane takes an item.
pub fn takes(lane: &Lane, item: &Item) -> bool
    ensures { result ≡ spec.takes lane.now item.now }
{
    let first = meets(&lane.first, &key_of(item));
    let second = meets(&lane.second, &second_of(item));
    first && second
}

/// The lane of all.
pub fn all() -> Lane
    ensures { result ≡ spec.all }
{
    Lane {
        first: PartAsk::Any,
        second: PartAsk::Any,
        pick: Pick::Each,
    }
}
