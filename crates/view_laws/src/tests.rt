//! The columns of the steps of a multimap, a table and a list.
use crate::*;
use elem::{Cut, Elem, Window};
use vocabulary::{GroupForm, Item, Kind, Order, PlainStep, Shape, Side, Step, Sublist, ValueShape};

fn asking_first(x: Elem) -> Lane {
    Lane {
        first: PartAsk::Is(x),
        second: PartAsk::Any,
        pick: Pick::Each,
    }
}

#[test]
fn a_value_of_a_key_is_a_pair_below(rt: HostRuntime) {
    let key = Elem::Int(1);
    let value = Elem::Int(7);
    let values = Step::At(Side::First, key, 0);
    assert!(rt; matches!(source_of(&values, Side::First), Some(Side::Second)));
    let Some(below) = narrow(GroupOrder::ByFirst, &values, &asking_first(value)) else {
        assert!(rt; false, "a lane");
        return;
    };
    assert!(rt; takes(&below, &Item::Entry(key, value)));
    assert!(rt;
        !takes(&below, &Item::Entry(key, key)) && !takes(&below, &Item::Entry(value, value))
    );
    assert!(rt; takes(&all(), &Item::One(key)));
    let groups = Step::Group(Side::Second, GroupForm::Keys);
    assert!(rt;
        matches!(
            narrow(GroupOrder::OfBase, &groups, &all()),
            Some(Lane {
                pick: Pick::Firsts(Side::Second, GroupOrder::OfBase),
                ..
            })
        )
    );
    let Some(of_columns) = look_below(&groups, &asking_first(value)) else {
        assert!(rt; false, "a look-up");
        return;
    };
    assert!(rt;
        takes(&of_columns, &Item::Cell(key, value, key))
            && !takes(&of_columns, &Item::Cell(value, key, value))
    );
}

#[test]
fn a_window_is_met_and_a_walk_is_turned(rt: HostRuntime) {
    let one = Elem::Int(1);
    let two = Elem::Int(2);
    let ask = PartAsk::Within(
        Order::Natural,
        Window {
            lo: Cut::Below(two),
            hi: Cut::End,
        },
    );
    assert!(rt; meets(&ask, &two) && !meets(&ask, &one));
    let turned = Step::Plain(PlainStep::Descending);
    assert!(rt; flipped(&turned, false) && !flipped(&Step::Plain(PlainStep::KeySet), false));
    let run = Step::Sub(
        0,
        Sublist {
            start: 2,
            len: 3,
            seen: 0,
        },
    );
    assert!(rt;
        matches!(
            narrow(GroupOrder::ByFirst, &run, &all()),
            Some(Lane {
                pick: Pick::Run(Run {
                    start: 2,
                    len: 3,
                    from_back: false
                }),
                ..
            })
        )
    );
    assert!(rt; matches!(decided(&turned, &all()), Some(true)));
}

#[test]
fn places_of_the_second_stand_behind(rt: HostRuntime) {
    let x = Elem::Int(5);
    let place = Place {
        leaf: 1,
        spot: RowSpot::Nth(x, 2),
    };
    let moved = shifted(3, &place);
    assert!(rt; moved.leaf == 4 && same_spot(&moved.spot, &RowSpot::Nth(x, 2)));
    assert!(rt;
        !same_spot(&place.spot, &RowSpot::Nth(x, 1)) && !same_spot(&place.spot, &RowSpot::Key(x))
    );
    assert!(rt; unshifted(3, &moved).leaf == 1);
    let found = found_over(
        &Step::Plain(PlainStep::Inverse),
        &Found {
            item: Item::Entry(x, Elem::Int(6)),
            seen: true,
        },
    );
    assert!(rt; found.seen && matches!(found.item, Item::Entry(Elem::Int(6), Elem::Int(5))));
}

#[test]
fn values_of_pairs_are_told_and_values_of_cells_are_not(rt: HostRuntime) {
    let x = Elem::Int(3);
    let values = Step::Plain(PlainStep::Values);
    let pairs = Shape::Multimap {
        values: ValueShape::List,
        sorted: false,
    };
    let cells = Shape::Table {
        mirrored: false,
        sorted: true,
    };
    let Some(below) = narrow_on(pairs, GroupOrder::ByFirst, &values, &asking_first(x)) else {
        assert!(rt; false, "a lane");
        return;
    };
    assert!(rt; takes(&below, &Item::Entry(Elem::Int(1), x)));
    assert!(rt;
        matches!(
            narrow_on(cells, GroupOrder::ByFirst, &values, &asking_first(x)),
            None
        )
    );
    assert!(rt;
        matches!(
            narrow_on(cells, GroupOrder::ByFirst, &values, &all()),
            Some(_)
        )
    );
    let in_row = Step::At(Side::First, x, 0);
    assert!(rt; tells_on(cells, &in_row, Side::First) && !tells_on(cells, &in_row, Side::Second));
    let firsts = Lane {
        first: PartAsk::Any,
        second: PartAsk::Any,
        pick: Pick::Firsts(Side::Second, GroupOrder::ByFirst),
    };
    assert!(rt; asks_part(&firsts, Side::Second) && !asks_part(&firsts, Side::First));
}

#[test]
fn keys_go_as_the_base_keeps_them_unless_they_are_of_a_map(rt: HostRuntime) {
    let pairs = Shape::Multimap {
        values: ValueShape::Set,
        sorted: false,
    };
    let cells = Shape::Table {
        mirrored: false,
        sorted: true,
    };
    let keys = Step::Plain(PlainStep::Keys);
    let columns = Step::Group(Side::Second, GroupForm::Keys);
    assert!(rt;
        matches!(
            order_on(Kind::LinkedHashMultimap, false, pairs, &keys),
            GroupOrder::OfBase
        )
    );
    assert!(rt;
        matches!(
            order_on(Kind::LinkedHashMap, true, pairs, &keys),
            GroupOrder::ByFirst
        )
    );
    assert!(rt;
        matches!(
            order_on(Kind::TreeBasedTable, false, cells, &columns),
            GroupOrder::Sorted(Order::Natural)
        )
    );
}
