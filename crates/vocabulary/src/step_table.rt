//! The table of steps: what each makes of the view below it.
ghost use Rattle.std.specs.Prelude.{◌≡◌};
ghost use Rattle.vocabulary.specs.Steps as spec;

use crate::{
    ChangeStep, FilterStep, Flags, GroupForm, Item, Needs, PlainStep, Shape, Side, Step, key_of,
    lies_in, part_of, swapped, value_of, with_part, with_value, without_part,
};
use elem::{Elem, same};

/// What a step makes of the walk below it.
#[derive(Clone, Copy)]
pub enum Family {
    /// The same.
    Same,
    /// Each item is made another.
    Changed,
    /// The walk is turned round.
    Turned,
    /// Each item is made its key, and the keys go in their order.
    Keyed,
    /// What does not pass is hidden.
    Hidden,
    /// What does not pass is left out.
    Cut,
    /// The items of one key are made one.
    Grouped,
    /// What is shown from a start on, so many.
    Run,
    /// Runs of what is shown, each made one.
    Pieces,
}

/// What a step with another view makes of both walks.
#[derive(Clone, Copy)]
pub enum JoinFamily {
    /// The first, of which is hidden what does not pass by what the second shows.
    Hidden,
    /// That, and then the second, of which is hidden what the first shows.
    Joined,
    /// Each element as often as its counts in both say.
    Counted,
}

/// The family of a step.
pub fn family_of(step: &Step) -> Family
    ensures { result ≡ spec.family_of step.now }
{
    match step {
        Step::Plain(PlainStep::Reverse | PlainStep::Descending) => Family::Turned,
        Step::Plain(
            PlainStep::KeySet | PlainStep::Values | PlainStep::Inverse | PlainStep::Transpose,
        )
        | Step::Change(_, _) => Family::Changed,
        Step::Plain(PlainStep::EntrySet | PlainStep::ForMap | PlainStep::Unmodifiable) =>
            Family::Same,
        Step::Plain(PlainStep::Keys) => Family::Keyed,
        Step::Filter(_, _) | Step::FilterPairs(_) => Family::Hidden,
        Step::Within(_, _) | Step::At(_, _, _) => Family::Cut,
        Step::Group(_, _) => Family::Grouped,
        Step::Sub(_, _) | Step::Piece(_, _) => Family::Run,
        Step::Partition(_) => Family::Pieces,
    }
}

/// What a step makes of an item.
pub fn item_of(step: &Step, item: &Item) -> Item
    ensures { result ≡ spec.item_of step.now item.now }
{
    match step {
        Step::Plain(PlainStep::KeySet | PlainStep::Keys) => Item::One(key_of(item)),
        Step::Plain(PlainStep::Values) => Item::One(value_of(item)),
        Step::Plain(PlainStep::Inverse | PlainStep::Transpose) => swapped(item),
        Step::Change(ChangeStep::Transform, f) => Item::One(f.eval(value_of(item))),
        Step::Change(ChangeStep::TransformValues, f) => with_value(item, f.eval(value_of(item))),
        Step::Change(ChangeStep::AsMap, f) => Item::Entry(key_of(item), f.eval(key_of(item))),
        Step::At(side, _, _) => without_part(*side, item),
        _ => *item,
    }
}

/// Whether an item passes a step: it is not hidden by it, and not left out.
pub fn passes(step: &Step, item: &Item) -> bool
    ensures { result ≡ spec.passes step.now item.now }
{
    match step {
        Step::Filter(FilterStep::Filter | FilterStep::FilterValues, p) => p.eval(value_of(item)),
        Step::Filter(FilterStep::FilterKeys, p) => p.eval(key_of(item)),
        Step::FilterPairs(q) => q.eval(key_of(item), value_of(item)),
        Step::Within(order, window) => lies_in(*order, window, &key_of(item)),
        Step::At(side, key, _) => same(key, &part_of(*side, item)),
        _ => true,
    }
}

/// What an item that is added above a step is below it, where the step lets it through.
pub fn lifted(step: &Step, item: &Item) -> Option<Item>
    ensures { result ≡ spec.lifted step.now item.now }
{
    match step {
        Step::Plain(PlainStep::Inverse | PlainStep::Transpose) => Some(swapped(item)),
        Step::At(side, key, _) => Some(with_part(*side, *key, item)),
        _ => {
            if passes(step, item) {
                Some(*item)
            } else {
                None
            }
        }
    }
}

/// The part by which a step groups.
pub fn side_of(step: &Step) -> Side
    ensures { result ≡ spec.side_of step.now }
{
    match step {
        Step::Group(side, _) => *side,
        _ => Side::First,
    }
}

/// What a step makes of a group with a key and so many items.
pub fn group_item(step: &Step, key: Elem, count: u32) -> Item
    ensures { result ≡ spec.group_item step.now key count }
{
    match step {
        Step::Group(_, GroupForm::Counts) => Item::Counted(key, count),
        Step::Group(_, GroupForm::Members) => Item::Group(key),
        _ => Item::One(key),
    }
}

/// Whether a side of a table is that of its columns, which a mirrored table has first.
pub fn is_columns(mirrored: bool, side: Side) -> bool
    ensures { result ≡ spec.is_columns mirrored side }
{
    match side {
        Side::First => mirrored,
        Side::Second => !mirrored,
    }
}

fn without_adding(below: Flags) -> Flags
    ensures { result ≡ spec.without_adding below }
{
    Flags {
        add: false,
        ..below
    }
}

fn without_iterating(below: Flags) -> Flags
    ensures { result ≡ spec.without_iterating below }
{
    Flags {
        iterate: false,
        ..below
    }
}

fn along(shape: &Shape, side: Side, below: Flags) -> Flags
    ensures { result ≡ spec.along shape.now side below }
{
    match shape {
        Shape::Table { mirrored, .. } => {
            if is_columns(*mirrored, side) {
                without_iterating(below)
            } else {
                below
            }
        }
        _ => below,
    }
}

/// What a view by a step allows, where the view below has this shape and allows this.
pub fn flags_after(shape: &Shape, step: &Step, below: Flags) -> Flags
    ensures { result ≡ spec.flags_after shape.now step.now below }
{
    match step {
        Step::Plain(
            PlainStep::Reverse | PlainStep::Descending | PlainStep::Inverse | PlainStep::Transpose,
        )
        | Step::Within(_, _)
        | Step::Sub(_, _)
        | Step::Piece(_, _) => below,
        Step::Filter(_, _) | Step::FilterPairs(_) => without_iterating(below),
        Step::Plain(PlainStep::KeySet | PlainStep::Values | PlainStep::EntrySet | PlainStep::Keys)
        | Step::Change(_, _) => without_adding(below),
        Step::Plain(PlainStep::ForMap) => without_adding(without_iterating(below)),
        Step::Plain(PlainStep::Unmodifiable) | Step::Partition(_) => Flags {
            add: false,
            remove: false,
            iterate: false,
        },
        Step::At(side, _, _) => along(shape, *side, below),
        Step::Group(side, _) => along(shape, *side, without_adding(below)),
    }
}

/// Whether a view that allows this lacks what a call asks for.
pub fn lacks(allowed: Flags, needs: Needs) -> bool
    ensures { result ≡ spec.lacks allowed needs }
{
    match needs {
        Needs::Nothing => false,
        Needs::Add => !allowed.add,
        Needs::Remove => !allowed.remove,
        Needs::AddAndRemove => { if allowed.add { !allowed.remove } else { true } }
    }
}
