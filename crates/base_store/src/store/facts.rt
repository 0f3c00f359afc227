//! What is constant of a view, as long as the kind of its base and its frozen mark are.
ghost use Rattle.std.specs.Prelude.{◌≡◌, ◌<◌, ◌^◌, true, not, if◌then◌else◌};
ghost use Rattle.base_store.specs.Facts.{facts_at};
ghost use Rattle.vocabulary.specs.StepShapes as table;
ghost use Rattle.view_steps.specs.KnownViews.{is_known};
ghost use Rattle.machine.specs.Bases.{World, base_at};
ghost use Rattle.machine.specs.Views as views;
ghost use Rattle.machine.specs.Views.{View, base, over, shape_after};
ghost use Rattle.machine.specs.Leaves.{stored};
ghost use Rattle.machine.specs.Spots.{is_swapped};

use elem::{Cut, Window};
use view_steps::turns;
use vocabulary::{
    Flags, Kind, PlainStep, Shape, Step, apply, flags_after, shape_of_kind, window_over,
};

/// What is constant of a view. It is told once, when the view is made.
#[derive(Clone, Copy)]
pub struct Facts {
    /// The base under it.
    pub base: usize,
    /// How many steps lead to it.
    pub path: usize,
    pub shape: Shape,
    /// What it allows.
    pub flags: Flags,
    /// The window of the last `within` on its path.
    pub window: Window,
    /// Whether it is walked from the back of its base.
    pub turned: bool,
    /// Whether keys and values of its base stand exchanged in it.
    pub swapped: bool,
    /// Whether a step makes a multimap of a map.
    pub for_map: bool,
}

impl Facts {
    /// Those of a base.
    pub(super) fn of_base(b: usize, kind: Kind, frozen: bool) -> Facts
        ensures { (world : World) → (base_at world b).kind ≡ kind → (base_at world b).frozen ≡ frozen → result ≡ facts_at world (base (stored b)) }
    {
        Facts {
            base: b,
            path: 0,
            shape: shape_of_kind(kind),
            flags: Flags {
                add: !frozen,
                remove: !frozen,
                iterate: !frozen,
            },
            window: Window {
                lo: Cut::Start,
                hi: Cut::End,
            },
            turned: false,
            swapped: false,
            for_map: false,
        }
    }

    /// Those of a step over a view that has these.
    pub(super) fn over(&self, step: &Step) -> Facts
        requires path { self.now.path < 2 ^ 63 }
        requires known { is_known step.now ≡ true }
        ensures { (world : World) (v : View) → self.now ≡ facts_at world v → result ≡ facts_at world (over step.now v) }
    {
        Facts {
            base: self.base,
            path: self.path + 1,
            shape: shape_over(self.shape, step),
            flags: flags_after(&self.shape, step, self.flags),
            window: window_over(step, &self.window),
            turned: if turns(step) {
                !self.turned
            } else {
                self.turned
            },
            swapped: if swaps(step) {
                !self.swapped
            } else {
                self.swapped
            },
            for_map: is_for_map(step) || self.for_map,
        }
    }
}

/// The shape of a step over a view of a shape. A step that the table doesn't have leaves it.
fn shape_over(below: Shape, step: &Step) -> Shape
    ensures { result ≡ shape_after below (table.apply below step.now) }
{
    match apply(&below, step) {
        Some(shape) => shape,
        None => below,
    }
}

/// Whether a step exchanges keys and values.
fn swaps(step: &Step) -> bool
    ensures { (v : View) → is_swapped (over step.now v) ≡ (if result then not (is_swapped v) else is_swapped v) }
{
    matches!(step, Step::Plain(PlainStep::Inverse))
}

/// Whether a step makes a multimap of a map.
fn is_for_map(step: &Step) -> bool
    ensures { result ≡ views.is_for_map step.now }
{
    matches!(step, Step::Plain(PlainStep::ForMap))
}
