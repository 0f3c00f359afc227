//! The rows of a base that a view shows, told from each row alone.
ghost use Rattle.std.specs.Prelude.{◌≡◌, ◌<◌, None, Some, length, true, false};
ghost use Rattle.base_store.specs.Hits.{StandBelow};
ghost use Rattle.base_store.specs.Nodes.{view_at};
ghost use Rattle.view_laws.specs.RowForm.{form_of};
ghost use Rattle.view_steps.specs.KnownViews.{is_known_view};
ghost use Rattle.view_steps.specs.RowHits.{found_of_row, is_cut, is_row_hit};

use super::Made;
use super::nodes::Nodes;
use base_rows::RowTest;
use view_laws::Found;
use view_steps::raise;
use vocabulary::{Family, Item, Step, family_of, passes};

/// The rows that a view shows whose items pass a test.
#[derive(Drop)]
pub(super) struct Shown<'a, T> {
    pub(super) nodes: &'a Nodes,
    pub(super) n: usize,
    pub(super) test: &'a T,
    ghost within: { n < length nodes.now.made },
    ghost below: { StandBelow nodes.now.made },
    ghost known: { is_known_view (view_at nodes.now.made n) ≡ true },
}

impl<'a, T: RowTest> RowTest for Shown<'a, T> {
    ghost passes = { λ s row. is_row_hit (T.passes s.test.now) (form_of (view_at s.nodes.now.made s.n)) row };

    fn test(&self, item: &Item) -> bool {
        let mut found = Found {
            item: *item,
            seen: true,
        };
        raise_all(self.nodes, self.n, &mut found) && found.seen && self.test.test(&found.item)
    }
}

/// Makes of a row what a view has of it, and tells whether it has the row.
fn raise_all(nodes: &Nodes, n: usize, found: &mut Found) -> bool
    requires within { n < length nodes.now.made }
    requires below { StandBelow nodes.now.made }
    requires known { is_known_view (view_at nodes.now.made n) ≡ true }
    requires row { found.old.seen ≡ true }
    ensures some { result ≡ true → found_of_row (form_of (view_at nodes.now.made n)) found.old.item ≡ Some found.new }
    ensures none { result ≡ false → found_of_row (form_of (view_at nodes.now.made n)) found.old.item ≡ None }
{
    match nodes.made(n) {
        Made::Base(_) => true,
        Made::Over(step, parent) => {
            if !raise_all(nodes, parent, found) {
                return false;
            }
            if left_out(&step, &found.item) {
                return false;
            }
            raise(&step, found);
            true
        }
    }
}

/// Whether a step leaves an item out.
fn left_out(step: &Step, item: &Item) -> bool
    ensures { result ≡ is_cut step.now item.now }
{
    match family_of(step) {
        Family::Cut => !passes(step, item),
        _ => false,
    }
}
