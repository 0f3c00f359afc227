//! The table of steps: the shape that each gives on a view of a shape.
ghost use Rattle.std.specs.Prelude.{◌≡◌};
ghost use Rattle.vocabulary.specs.StepShapes as spec;

use crate::{
    ChangeStep, FilterStep, GroupForm, GroupSort, JoinStep, PlainStep, RowSort, Shape, Side, Step,
    StepForm, ValueShape, is_columns, leaf_shape, shape_of_group, shape_of_values,
};

/// The shape that a step gives on a view of a shape, where the table has such a step.
pub fn apply(shape: &Shape, step: &Step) -> Option<Shape>
    ensures { result ≡ spec.apply shape.now step.now }
{
    apply_form(*shape, step.form())
}

/// The shape that the steps of a form give on a view of a shape, where the table has them. No argument changes it.
pub fn apply_form(shape: Shape, step: StepForm) -> Option<Shape>
    ensures { result ≡ spec.apply_form shape step }
{
    match shape {
        Shape::List => on_list(step),
        Shape::Set { sorted } => on_set(sorted, step),
        Shape::Coll => on_coll(step),
        Shape::Rows(_) => None,
        Shape::Map { sorted } => on_map(sorted, step),
        Shape::Groups(groups) => on_groups(groups, step),
        Shape::Bag { sorted } => on_bag(sorted, step),
        Shape::BiMap => on_bimap(step),
        Shape::Multimap { values, sorted } => on_multimap(values, sorted, step),
        Shape::Table { mirrored, sorted } => on_table(mirrored, sorted, step),
        Shape::Pieces => on_pieces(step),
        Shape::RangeSet | Shape::RangeMap | Shape::Graph { .. } => on_leaf(shape, step),
        Shape::Builder(_) => None,
    }
}

fn where_sorted(sorted: bool, given: Shape) -> Option<Shape>
    ensures { result ≡ spec.where_sorted sorted given }
{
    if sorted { Some(given) } else { None }
}

fn on_list(step: StepForm) -> Option<Shape>
    ensures { result ≡ spec.on_list step }
{
    match step {
        StepForm::Plain(PlainStep::Reverse | PlainStep::Unmodifiable)
        | StepForm::Change(ChangeStep::Transform)
        | StepForm::Sub
        | StepForm::Piece => Some(Shape::List),
        StepForm::Partition => Some(Shape::Pieces),
        StepForm::Filter(FilterStep::Filter) => Some(Shape::Coll),
        _ => None,
    }
}

fn on_pieces(step: StepForm) -> Option<Shape>
    ensures { result ≡ spec.on_pieces step }
{
    match step {
        StepForm::Piece => Some(Shape::List),
        _ => None,
    }
}

fn on_leaf(shape: Shape, step: StepForm) -> Option<Shape>
    ensures { result ≡ spec.on_leaf shape step }
{
    match step {
        StepForm::Leaf(word) => leaf_shape(shape, word),
        _ => None,
    }
}

fn on_coll(step: StepForm) -> Option<Shape>
    ensures { result ≡ spec.on_coll step }
{
    match step {
        StepForm::Plain(PlainStep::Unmodifiable)
        | StepForm::Change(ChangeStep::Transform)
        | StepForm::Filter(FilterStep::Filter) => Some(Shape::Coll),
        _ => None,
    }
}

fn on_set(sorted: bool, step: StepForm) -> Option<Shape>
    ensures { result ≡ spec.on_set sorted step }
{
    match step {
        StepForm::Plain(PlainStep::Unmodifiable) | StepForm::Filter(FilterStep::Filter) => Some(
            Shape::Set { sorted },
        ),
        StepForm::Plain(PlainStep::Descending) | StepForm::Within => where_sorted(
            sorted,
            Shape::Set { sorted },
        ),
        StepForm::Change(ChangeStep::Transform) => Some(Shape::Coll),
        StepForm::Change(ChangeStep::AsMap) => Some(Shape::Map { sorted }),
        StepForm::Join(
            JoinStep::Union
            | JoinStep::Intersection
            | JoinStep::Difference
            | JoinStep::SymmetricDifference,
        ) => Some(Shape::Set { sorted: false }),
        _ => None,
    }
}

fn on_bag(sorted: bool, step: StepForm) -> Option<Shape>
    ensures { result ≡ spec.on_bag sorted step }
{
    match step {
        StepForm::Filter(FilterStep::Filter) => Some(Shape::Bag { sorted: false }),
        StepForm::Plain(PlainStep::Descending) | StepForm::Within => where_sorted(
            sorted,
            Shape::Bag { sorted },
        ),
        StepForm::Group(Side::First, GroupForm::Keys) => Some(Shape::Set { sorted }),
        StepForm::Group(Side::First, GroupForm::Counts) => Some(Shape::Rows(RowSort::Counted)),
        StepForm::Plain(PlainStep::Unmodifiable) => Some(Shape::Bag { sorted }),
        StepForm::Join(
            JoinStep::BagUnion
            | JoinStep::BagSum
            | JoinStep::BagIntersection
            | JoinStep::BagDifference,
        ) => Some(Shape::Bag { sorted: false }),
        _ => None,
    }
}

fn on_map(sorted: bool, step: StepForm) -> Option<Shape>
    ensures { result ≡ spec.on_map sorted step }
{
    match step {
        StepForm::Plain(PlainStep::KeySet) => Some(Shape::Set { sorted }),
        StepForm::Plain(PlainStep::Values) => Some(Shape::Coll),
        StepForm::Plain(PlainStep::EntrySet) => Some(Shape::Rows(RowSort::Entry)),
        StepForm::Plain(PlainStep::Unmodifiable)
        | StepForm::Filter(FilterStep::FilterKeys | FilterStep::FilterValues)
        | StepForm::FilterPairs
        | StepForm::Change(ChangeStep::TransformValues) => Some(Shape::Map { sorted }),
        StepForm::Plain(PlainStep::ForMap) => Some(Shape::Multimap {
            values: ValueShape::Set,
            sorted: false,
        }),
        StepForm::Plain(PlainStep::Descending) | StepForm::Within => where_sorted(
            sorted,
            Shape::Map { sorted },
        ),
        _ => None,
    }
}

fn on_bimap(step: StepForm) -> Option<Shape>
    ensures { result ≡ spec.on_bimap step }
{
    match step {
        StepForm::Plain(PlainStep::KeySet | PlainStep::Values) => Some(Shape::Set {
            sorted: false,
        }),
        StepForm::Plain(PlainStep::EntrySet) => Some(Shape::Rows(RowSort::Entry)),
        StepForm::Plain(PlainStep::Inverse | PlainStep::Unmodifiable)
        | StepForm::Filter(FilterStep::FilterKeys | FilterStep::FilterValues)
        | StepForm::FilterPairs => Some(Shape::BiMap),
        StepForm::Change(ChangeStep::TransformValues) => Some(Shape::Map { sorted: false }),
        StepForm::Plain(PlainStep::ForMap) => Some(Shape::Multimap {
            values: ValueShape::Set,
            sorted: false,
        }),
        _ => None,
    }
}

fn on_groups(groups: GroupSort, step: StepForm) -> Option<Shape>
    ensures { result ≡ spec.on_groups groups step }
{
    match step {
        StepForm::Plain(PlainStep::KeySet) => Some(Shape::Set { sorted: false }),
        StepForm::Plain(PlainStep::EntrySet) => Some(Shape::Rows(RowSort::Group)),
        StepForm::Filter(FilterStep::FilterKeys) => Some(Shape::Groups(groups)),
        StepForm::Member => Some(shape_of_group(groups)),
        _ => None,
    }
}

fn filtered_by_key(values: ValueShape) -> ValueShape
    ensures { result ≡ spec.filtered_by_key values }
{
    match values {
        ValueShape::SortedSet => ValueShape::Set,
        _ => values,
    }
}

fn filtered_by_value(values: ValueShape) -> ValueShape
    ensures { result ≡ spec.filtered_by_value values }
{
    match values {
        ValueShape::List => ValueShape::Coll,
        ValueShape::SortedSet => ValueShape::Set,
        _ => values,
    }
}

fn made_others(values: ValueShape) -> ValueShape
    ensures { result ≡ spec.made_others values }
{
    match values {
        ValueShape::List => ValueShape::List,
        _ => ValueShape::Coll,
    }
}

fn unsorted(values: ValueShape) -> Shape
    ensures { result ≡ spec.unsorted values }
{
    Shape::Multimap {
        values,
        sorted: false,
    }
}

fn on_multimap(values: ValueShape, sorted: bool, step: StepForm) -> Option<Shape>
    ensures { result ≡ spec.on_multimap values sorted step }
{
    match step {
        StepForm::At(Side::First) => Some(shape_of_values(values)),
        StepForm::Group(Side::First, GroupForm::Keys) => Some(Shape::Set { sorted }),
        StepForm::Group(Side::First, GroupForm::Members) => Some(Shape::Groups(GroupSort::Values(
            values,
        ))),
        StepForm::Plain(PlainStep::Keys) => Some(Shape::Bag { sorted: false }),
        StepForm::Plain(PlainStep::Values) => Some(Shape::Coll),
        StepForm::Plain(PlainStep::EntrySet) => Some(Shape::Rows(RowSort::MultiEntry)),
        StepForm::Filter(FilterStep::FilterKeys) => Some(unsorted(filtered_by_key(values))),
        StepForm::Filter(FilterStep::FilterValues) | StepForm::FilterPairs => Some(unsorted(
            filtered_by_value(values),
        )),
        StepForm::Change(ChangeStep::TransformValues) => Some(unsorted(made_others(values))),
        StepForm::Plain(PlainStep::Unmodifiable) => Some(Shape::Multimap { values, sorted }),
        _ => None,
    }
}

fn on_table(mirrored: bool, sorted: bool, step: StepForm) -> Option<Shape>
    ensures { result ≡ spec.on_table mirrored sorted step }
{
    match step {
        StepForm::At(side) => Some(cells_at(is_columns(mirrored, side), sorted)),
        StepForm::Group(side, GroupForm::Keys) => Some(keys_along(
            is_columns(mirrored, side),
            sorted,
        )),
        StepForm::Group(side, GroupForm::Members) => Some(Shape::Groups(groups_along(
            is_columns(mirrored, side),
            sorted,
        ))),
        StepForm::Plain(PlainStep::EntrySet) => Some(Shape::Rows(RowSort::Cell)),
        StepForm::Plain(PlainStep::Values) => Some(Shape::Coll),
        StepForm::Plain(PlainStep::Transpose) => Some(Shape::Table {
            mirrored: !mirrored,
            sorted: false,
        }),
        StepForm::Change(ChangeStep::TransformValues) => Some(Shape::Table {
            mirrored,
            sorted: false,
        }),
        StepForm::Plain(PlainStep::Unmodifiable) => Some(Shape::Table { mirrored, sorted }),
        _ => None,
    }
}

fn cells_at(is_column: bool, sorted: bool) -> Shape
    ensures { result ≡ spec.cells_at is_column sorted }
{
    Shape::Map {
        sorted: if is_column { false } else { sorted },
    }
}

fn keys_along(is_column: bool, sorted: bool) -> Shape
    ensures { result ≡ spec.keys_along is_column sorted }
{
    Shape::Set {
        sorted: if is_column { false } else { sorted },
    }
}

fn groups_along(is_column: bool, sorted: bool) -> GroupSort
    ensures { result ≡ spec.groups_along is_column sorted }
{
    if is_column {
        GroupSort::ColumnCells
    } else {
        GroupSort::RowCells { sorted }
    }
}
