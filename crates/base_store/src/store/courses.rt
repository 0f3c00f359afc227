//! The courses of walks: the lanes of bases to which the lanes of views come down.
ghost use Rattle.std.specs.Prelude.{◌≡◌, ◌<◌, None, Some, length, true, false};
ghost use Rattle.base_store.specs.Courses.{IsCourse};
ghost use Rattle.base_store.specs.Stored.{view_in};
ghost use Rattle.machine.specs.Views.{shape_at};
ghost use Rattle.view_laws.specs.Lanes as lanes;
ghost use Rattle.view_laws.specs.GroupOrders.{group_order_at};
ghost use Rattle.view_laws.specs.LanesDown.{lane_down};
ghost use Rattle.view_laws.specs.Serving.{of_part};
ghost use Rattle.view_laws.specs.ShapeNarrowing.{narrow_on};
ghost use Rattle.view_laws.specs.declared.lanes.Pick.TheVariants.{Each};
ghost use Rattle.view_steps.specs.KnownLanes as views;
ghost use Rattle.view_steps.specs.KnownViews.{is_known};
ghost use Rattle.vocabulary.specs.Shapes.{is_unique};

use super::Store;
use crate::{AnyRef, BaseId, Node};
use elem::Elem;
use view_laws::{Lane, PartAsk, all, flipped, leaves_lane, order_on, pass_down, source_of};
use vocabulary::{Side, Step};

/// A walk of a view, as one of the base under it: along a lane there, from the front or from the back.
#[derive(Clone, Copy)]
pub struct Course {
    pub base: BaseId,
    pub lane: Lane,
    pub back: bool,
}

impl Store {
    /// The course of the whole walk of a view.
    pub fn course(&self, n: AnyRef, back: bool) -> Course
        requires { n < length self.now.nodes }
        ensures { IsCourse self.now.world (view_in self.now n) lanes.all back result }
    {
        let mut lane = all();
        let mut from_back = back;
        let _found = self.comes_down(n, &mut lane, &mut from_back);
        Course {
            base: self.base_of(n),
            lane,
            back: from_back,
        }
    }

    /// The course that looks up an element in a part that no two items of the view share.
    pub fn course_of_part(&self, n: AnyRef, side: Side, x: &Elem) -> Course
        requires node { n < length self.now.nodes }
        requires unique { is_unique (shape_at self.now.world (view_in self.now n)) side ≡ true }
        ensures { IsCourse self.now.world (view_in self.now n) (of_part side x.now) false result }
    {
        let mut lane = lane_of_part(side, x);
        let mut from_back = false;
        let _found = self.comes_down(n, &mut lane, &mut from_back);
        Course {
            base: self.base_of(n),
            lane,
            back: from_back,
        }
    }

    /// The part of a row of the base from which a part of an item comes.
    pub fn part_below(&self, n: AnyRef, side: Side) -> Side
        requires { n < length self.now.nodes }
        ensures { result ≡ views.part_below (view_in self.now n) side }
    {
        match self.node(n) {
            Node::Base(_) => side,
            Node::Step { step, parent } => match source_of(&step, side) {
                Some(below) => self.part_below(parent, below),
                None => self.part_below(parent, side),
            },
        }
    }

    /// Makes of a lane of a known step over a view the lane of that view, and tells whether there is one. Most steps leave
    /// the lane as it is.
    fn passes_down(&self, parent: AnyRef, step: &Step, lane: &mut Lane) -> bool
        requires parent { parent < length self.now.nodes }
        requires known { is_known step.now ≡ true }
        requires each { lane.old.pick ≡ Each }
        ensures some { result ≡ true → narrow_on (shape_at self.now.world (view_in self.now parent)) (group_order_at self.now.world (view_in self.now parent) step.now) step.now lane.old ≡ Some lane.new }
        ensures none { result ≡ false → narrow_on (shape_at self.now.world (view_in self.now parent)) (group_order_at self.now.world (view_in self.now parent) step.now) step.now lane.old ≡ None }
        ensures each { result ≡ true → lane.new.pick ≡ Each }
    {
        if leaves_lane(step) {
            return true;
        }
        let kind = self.kind(self.base_of(parent));
        let below = self.facts(parent);
        let order = order_on(kind, below.for_map, below.shape, step);
        pass_down(below.shape, order, step, lane)
    }

    /// Makes of a lane of a view, and of the direction of a walk along it, those of its base, and tells whether each step
    /// passes the lane down.
    fn comes_down(&self, n: AnyRef, lane: &mut Lane, back: &mut bool) -> bool
        requires node { n < length self.now.nodes }
        requires each { lane.old.pick ≡ Each }
        ensures some { result ≡ true → lane_down self.now.world (view_in self.now n) lane.old back.old ≡ Some (lane.new, back.new) }
        ensures none { result ≡ false → lane_down self.now.world (view_in self.now n) lane.old back.old ≡ None }
    {
        match self.node(n) {
            Node::Base(_) => true,
            Node::Step { step, parent } => {
                let _base = self.base_of(n);
                if !self.passes_down(parent, &step, lane) {
                    return false;
                }
                *back = flipped(&step, *back);
                self.comes_down(parent, lane, back)
            }
        }
    }
}

/// The lane that asks for an element in a part.
fn lane_of_part(side: Side, x: &Elem) -> Lane
    ensures lane { result ≡ of_part side x.now }
    ensures each { result.pick ≡ Each }
{
    let mut lane = all();
    match side {
        Side::First => lane.first = PartAsk::Is(*x),
        Side::Second => lane.second = PartAsk::Is(*x),
    }
    lane
}
