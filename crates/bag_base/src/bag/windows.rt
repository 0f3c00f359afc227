//! The calls of a bag in an order of its elements.
ghost use Rattle.std.specs.Prelude.{◌≡◌, ◌+◌, true, Some, IfSome};
ghost use Rattle.std.specs.Option.{option_map};
ghost use Rattle.elem.specs.Cuts.{cut_upto};
ghost use Rattle.elem.specs.Keyed.{value_at};
ghost use Rattle.elem.specs.Rows.{first_key, last_key};
ghost use Rattle.plain_base.specs.Sorted.{IsInOrder, rows_between};

use crate::Bag;
use elem::{Compare, Cut, Elem, Steps, Window};
use plain_base::FreeTreeMapRows;
use std::sync::ledger::Ledger;

impl<C: Compare> Bag<FreeTreeMapRows<u32, C>> {
    /// The first element above a cut, in the order `C`.
    pub fn first_from<L: Ledger>(&self, c: &Cut, steps: &mut Steps<L>) -> Option<Elem>
        ensures element { result ≡ first_key (rows_between C.before c.now Cut.End self.now) }
        ensures step { steps.new ≡ steps.old + 1 }
    {
        steps.tick();
        self.rows.first_in(&Window {
            lo: *c,
            hi: Cut::End,
        })
    }

    /// The last element below a cut, in the order `C`.
    pub fn last_to<L: Ledger>(&self, c: &Cut, steps: &mut Steps<L>) -> Option<Elem>
        ensures element { result ≡ last_key (rows_between C.before Cut.Start c.now self.now) }
        ensures step { steps.new ≡ steps.old + 1 }
    {
        steps.tick();
        self.rows.last_in(&Window {
            lo: Cut::Start,
            hi: *c,
        })
    }

    /// The first element in a window, with its count. The cuts are read in the order `C`. The next one behind `k` is the
    /// first of the window that begins above `k`, and the like from the end.
    pub fn first_row_in<L: Ledger>(&self, w: &Window, steps: &mut Steps<L>) -> Option<(Elem, u32)>
        requires { cut_upto C.before w.now.lo w.now.hi ≡ true }
        ensures element { option_map (λ row. row.0) result ≡ first_key (rows_between C.before w.now.lo w.now.hi self.now) }
        ensures count { IfSome result (λ row. value_at self.now row.0 ≡ Some row.1) }
        ensures step { steps.new ≡ steps.old + 1 }
    {
        steps.tick();
        self.rows.first_row_in(w)
    }

    /// The last element in a window, with its count. The cuts are read in the order `C`.
    pub fn last_row_in<L: Ledger>(&self, w: &Window, steps: &mut Steps<L>) -> Option<(Elem, u32)>
        requires { cut_upto C.before w.now.lo w.now.hi ≡ true }
        ensures element { option_map (λ row. row.0) result ≡ last_key (rows_between C.before w.now.lo w.now.hi self.now) }
        ensures count { IfSome result (λ row. value_at self.now row.0 ≡ Some row.1) }
        ensures step { steps.new ≡ steps.old + 1 }
    {
        steps.tick();
        self.rows.last_row_in(w)
    }

    /// The elements stand in the order `C`.
    pub fn order_law(&self)
        ensures { IsInOrder C.before self.now }
    {
        let _rows = self.rows.len();
    }
}
