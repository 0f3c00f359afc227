//! Each call once: an array by its indexes, and a tree by keys in an order that is not the natural one.
ghost use Rattle.std.specs.Prelude.{◌≡◌, ◌<◌};

use crate::*;
use elem::{ByLength, Compare, Cut, Elem, Keyed, Reverse, Steps, Window, Word};
use std::alloc::Global;
use std::marker::Brand;
use std::process::Abort;
use std::sync::ledger::{Blank, Ledger};

fn items<L: Ledger, R: Abort>(rt: &R, alloc: Global, blank: Blank) -> Result<(), std::test::Fail>
    requires name { blank.name ≡ L.name }
    requires parts { blank.parts ≡ L.parts }
    requires some { 0 < blank.parts }
{
    let mut steps: Steps<L> = Steps::new(blank);
    let mut rows = ArrayRows::new(alloc);
    assert!(rt; rows.insert_at(0, Elem::Int(2), &mut steps).is_ok());
    assert!(rt; rows.insert_at(0, Elem::Int(1), &mut steps).is_ok());
    assert!(rt; rows.at(1, &mut steps) == Some(Elem::Int(2)));
    assert!(rt; rows.find(Elem::Int(2), &mut steps) == Some(1));
    let len = rows.len();
    assert!(rt; len == 2);
    assert!(rt; rows.set_at(1, Elem::Int(3), &mut steps) == Elem::Int(2));
    assert!(rt; rows.remove_at(0, &mut steps) == Elem::Int(1));
    assert!(rt; rows.at(0, &mut steps) == Some(Elem::Int(3)));
    rows.clear();
    assert!(rt; rows.len() == 0);
    Ok(())
}

#[test]
fn items_stand_at_their_indexes(rt: HostRuntime) -> Result<(), std::test::Fail> {
    let alloc = rt.alloc();
    items::<Brand, HostRuntime>(&rt, alloc, Blank::new(1))
}

// Whether the key was absent, and its row could be added.
fn added<V: Copy, K: Keyed<V>, L: Ledger>(
    rows: &mut K,
    key: &Elem,
    value: V,
    steps: &mut Steps<L>,
) -> bool {
    rows.probe(*key, steps).is_none() && rows.insert(*key, value, steps).is_ok()
}

fn added_free<C: Compare>(rows: &mut FreeTreeMapRows<(), C>, key: &Elem) -> bool {
    rows.probe(*key).is_none() && rows.insert(*key, ()).is_ok()
}

fn turned_round<L: Ledger, R: Abort>(
    rt: &R,
    alloc: Global,
    blank: Blank,
) -> Result<(), std::test::Fail>
    requires name { blank.name ≡ L.name }
    requires parts { blank.parts ≡ L.parts }
    requires some { 0 < blank.parts }
{
    let mut steps: Steps<L> = Steps::new(blank);
    let mut rows: TreeMapRows<i64, Reverse> = TreeMapRows::new(alloc);
    for number in 1..4 {
        assert!(rt; added(&mut rows, &Elem::Int(number), number, &mut steps));
    }
    assert!(rt; rows.len() == 3);
    assert!(rt; rows.first(&mut steps) == Some(Elem::Int(3)));
    assert!(rt; rows.last(&mut steps) == Some(Elem::Int(1)));
    assert!(rt; rows.next_above(Elem::Int(2), &mut steps) == Some(Elem::Int(1)));
    assert!(rt; rows.next_below(Elem::Int(1), &mut steps) == Some(Elem::Int(2)));
    let window = Window {
        lo: Cut::Start,
        hi: Cut::Below(Elem::Int(1)),
    };
    assert!(rt; !window.hi.is_before::<Reverse>(&window.lo));
    assert!(rt; rows.first_in(&window, &mut steps) == Some(Elem::Int(3)));
    assert!(rt; rows.last_in(&window, &mut steps) == Some(Elem::Int(2)));
    if rows.probe(Elem::Int(2), &mut steps).is_some() {
        assert!(rt; rows.after(Elem::Int(2), &mut steps) == Some(Elem::Int(1)));
        assert!(rt; rows.before(Elem::Int(2), &mut steps) == Some(Elem::Int(3)));
        assert!(rt; rows.replace(Elem::Int(2), 7, &mut steps) == 2);
    }
    assert!(rt; rows.remove(Elem::Int(2), &mut steps) == Some(7));
    rows.clear();
    assert!(rt; rows.len() == 0);
    Ok(())
}

fn rows_turned_round<L: Ledger, R: Abort>(
    rt: &R,
    alloc: Global,
    blank: Blank,
) -> Result<(), std::test::Fail>
    requires name { blank.name ≡ L.name }
    requires parts { blank.parts ≡ L.parts }
    requires some { 0 < blank.parts }
{
    let mut steps: Steps<L> = Steps::new(blank);
    let mut rows: TreeMapRows<u32, Reverse> = TreeMapRows::new(alloc);
    for number in 1..4u8 {
        let before = rows.put(Elem::Int(number as i64), number as u32 * 10, &mut steps);
        assert!(rt; before.is_ok_and(|before| before.is_none()));
    }
    assert!(rt;
        rows.put(Elem::Int(2), 21, &mut steps)
            .is_ok_and(|before| before == Some(20))
    );
    assert!(rt; rows.first_row(&mut steps) == Some((Elem::Int(3), 30)));
    assert!(rt; rows.last_row(&mut steps) == Some((Elem::Int(1), 10)));
    let window = Window {
        lo: Cut::Above(Elem::Int(3)),
        hi: Cut::Below(Elem::Int(1)),
    };
    assert!(rt; !window.hi.is_before::<Reverse>(&window.lo));
    assert!(rt; rows.first_row_in(&window, &mut steps) == Some((Elem::Int(2), 21)));
    assert!(rt; rows.last_row_in(&window, &mut steps) == Some((Elem::Int(2), 21)));
    if rows.probe(Elem::Int(2), &mut steps).is_some() {
        assert!(rt; rows.row_after(Elem::Int(2), &mut steps) == Some((Elem::Int(1), 10)));
        assert!(rt; rows.row_before(Elem::Int(2), &mut steps) == Some((Elem::Int(3), 30)));
    }
    Ok(())
}

#[test]
fn rows_come_with_their_values(rt: HostRuntime) -> Result<(), std::test::Fail> {
    let alloc = rt.alloc();
    rows_turned_round::<Brand, HostRuntime>(&rt, alloc, Blank::new(1))
}

#[test]
fn a_tree_goes_in_its_own_order(rt: HostRuntime) -> Result<(), std::test::Fail> {
    let alloc = rt.alloc();
    turned_round::<Brand, HostRuntime>(&rt, alloc, Blank::new(1))
}

// The key of the text, or 0 where it is no word.
fn key(text: &[u8]) -> Elem {
    match Word::new(text) {
        Some(word) => Elem::Text(word),
        None => Elem::Int(0),
    }
}

#[test]
fn shorter_spellings_come_first(rt: HostRuntime) -> Result<(), std::test::Fail> {
    let mut rows: FreeTreeMapRows<(), ByLength> = FreeTreeMapRows::new(rt.alloc());
    for key in [key(b"bb"), key(b"c"), Elem::Int(10)] {
        assert!(rt; added_free(&mut rows, &key));
    }
    assert!(rt; rows.first() == Some(key(b"c")));
    assert!(rt; rows.next_above(key(b"c")) == Some(Elem::Int(10)));
    assert!(rt; rows.last() == Some(key(b"bb")));
    Ok(())
}
