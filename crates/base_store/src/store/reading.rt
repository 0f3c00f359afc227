//! Reading the bases of a store by the spots of their rows.
ghost use Rattle.std.specs.Prelude.{◌≡◌, ◌<◌, ◌≤◌, ◌+◌, IfSome, Some, length, option_map, true};
ghost use Rattle.std.specs.List.{position};
ghost use Rattle.base_rows.specs.BaseSpots as spec;
ghost use Rattle.base_store.specs.Courses.{line_at, spots_at};
ghost use Rattle.vocabulary.specs.Items.{same_item};
ghost use Rattle.vocabulary.specs.Kinds.{shape_of_kind};
ghost use Rattle.view_laws.specs.Following.{Follows, IsFrom};
ghost use Rattle.view_laws.specs.Serving.{Serves};
ghost use Rattle.view_laws.specs.Spots as spots;
ghost use Rattle.vocabulary.specs.Shapes.{is_list};
ghost use Rattle.vocabulary.specs.declared.items.Item.TheVariants.{One};
ghost use Rattle.machine.specs.Bases.{base_at};

use super::Store;
use super::courses::Course;
use crate::BaseId;
use base_rows::SpottedRow;
use elem::{Elem, Steps};
use std::sync::ledger::Ledger;
use view_laws::RowSpot;
use vocabulary::Item;

impl Store {
    /// The row that follows that at a spot on a course, or the first one, with its spot.
    pub fn next_row<L: Ledger>(
        &self,
        course: &Course,
        from: &Option<RowSpot>,
        steps: &mut Steps<L>,
    ) -> Option<SpottedRow>
        requires base { course.now.base < length self.now.world }
        requires serves { Serves (base_at self.now.world course.now.base).kind course.now.lane }
        requires from { IsFrom (line_at self.now.world course.now.base course.now.lane course.now.back) from.now }
        ensures next { Follows (line_at self.now.world course.now.base course.now.lane course.now.back) from.now (option_map (λ found. found.spot) result) }
        ensures row { IfSome result (λ found. spots.row_at (spots_at self.now.world course.now.base) (base_at self.now.world course.now.base).rows found.spot ≡ Some found.row) }
        ensures step { steps.new ≤ steps.old + 1 }
    {
        self.slots[course.base.number()]
            .rows
            .next_row(&course.lane, course.back, from, steps)
    }

    /// The row at a spot of a base.
    pub fn row_at<L: Ledger>(&self, b: BaseId, at: &RowSpot, steps: &mut Steps<L>) -> Option<Item>
        requires base { b < length self.now.world }
        requires spot { IsFrom (spots_at self.now.world b) (Some at.now) }
        ensures row { result ≡ spots.row_at (spots_at self.now.world b) (base_at self.now.world b).rows at.now }
        ensures step { steps.new ≤ steps.old + 1 }
    {
        self.slots[b.number()].rows.row_at(at, steps)
    }

    /// The index of the first row of a base that is the same as an element. The base is a list.
    pub fn find_item<L: Ledger>(&self, b: BaseId, x: &Elem, steps: &mut Steps<L>) -> Option<usize>
        requires base { b < length self.now.world }
        requires list { is_list (shape_of_kind (base_at self.now.world b).kind) ≡ true }
        ensures index { result ≡ position (same_item (One x.now)) (base_at self.now.world b).rows }
        ensures step { steps.new ≤ steps.old + 1 }
    {
        self.slots[b.number()].rows.find_item(x, steps)
    }
}
