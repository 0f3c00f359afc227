//! Walks from element to element, each element with its count.
ghost use Rattle.std.specs.Prelude.{◌≡◌, ◌+◌, Some, IfSome};
ghost use Rattle.std.specs.Option.{option_map};
ghost use Rattle.elem.specs.Elements.{same};
ghost use Rattle.elem.specs.Keyed.{value_at, IsPresent};
ghost use Rattle.elem.specs.Rows.{first_key, last_key, key_after, key_before};

use crate::{Bag, CountRows};
use elem::{Elem, Steps};
use std::sync::ledger::Ledger;

impl<R: CountRows> Bag<R> {
    /// The first element, with its count.
    pub fn first_row<L: Ledger>(&self, steps: &mut Steps<L>) -> Option<(Elem, u32)>
        ensures element { option_map (λ row. row.0) result ≡ first_key self.now }
        ensures count { IfSome result (λ row. value_at self.now row.0 ≡ Some row.1) }
        ensures step { steps.new ≡ steps.old + 1 }
    {
        steps.tick();
        self.rows.first_row()
    }

    /// The last element, with its count.
    pub fn last_row<L: Ledger>(&self, steps: &mut Steps<L>) -> Option<(Elem, u32)>
        ensures element { option_map (λ row. row.0) result ≡ last_key self.now }
        ensures count { IfSome result (λ row. value_at self.now row.0 ≡ Some row.1) }
        ensures step { steps.new ≡ steps.old + 1 }
    {
        steps.tick();
        self.rows.last_row()
    }

    /// The element after `k`, with its count.
    pub fn row_after<L: Ledger>(&self, k: Elem, steps: &mut Steps<L>) -> Option<(Elem, u32)>
        requires { IsPresent self.now k }
        ensures element { option_map (λ row. row.0) result ≡ key_after (same k) self.now }
        ensures count { IfSome result (λ row. value_at self.now row.0 ≡ Some row.1) }
        ensures step { steps.new ≡ steps.old + 1 }
    {
        steps.tick();
        self.rows.row_after(k)
    }

    /// The element before `k`, with its count.
    pub fn row_before<L: Ledger>(&self, k: Elem, steps: &mut Steps<L>) -> Option<(Elem, u32)>
        requires { IsPresent self.now k }
        ensures element { option_map (λ row. row.0) result ≡ key_before (same k) self.now }
        ensures count { IfSome result (λ row. value_at self.now row.0 ≡ Some row.1) }
        ensures step { steps.new ≡ steps.old + 1 }
    {
        steps.tick();
        self.rows.row_before(k)
    }
}
