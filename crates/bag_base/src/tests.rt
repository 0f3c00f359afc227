//! Each public call once, at both kinds of bags.
ghost use Rattle.std.specs.Prelude.{◌≡◌, ◌<◌};

use crate::{Bag, BagFault, CountRows, LinkedBag, TreeBag};
use elem::{Cut, Elem, Reverse, Steps, Window};
use std::alloc::Global;
use std::marker::Brand;
use std::process::Abort;
use std::sync::ledger::{Blank, Ledger};
use std::test::Fail;

/// Adds 2 three times and 1 twice.
fn filled<R: CountRows, L: Ledger, A: Abort>(
    rt: &A,
    alloc: Global,
    steps: &mut Steps<L>,
) -> Result<Bag<R>, Fail> {
    let mut bag: Bag<R> = Bag::new(alloc).ok().ok_or("memory")?;
    assert!(rt; bag.add_n(Elem::Int(2), 3, steps) == Ok(0));
    assert!(rt; bag.add_n(Elem::Int(1), 1, steps) == Ok(0));
    assert!(rt; bag.add_n(Elem::Int(1), 1, steps) == Ok(1));
    assert!(rt; bag.count(Elem::Int(2), steps) == 3);
    assert!(rt; bag.distinct() == 2);
    assert!(rt; bag.total(steps) == 5);
    Ok(bag)
}

/// Takes elements away again, and fills a count to the brim.
fn emptied<R: CountRows, L: Ledger, A: Abort>(
    rt: &A,
    bag: &mut Bag<R>,
    steps: &mut Steps<L>,
) -> Result<(), Fail> {
    assert!(rt; bag.remove_n(Elem::Int(1), 5, steps) == 2);
    assert!(rt; bag.count(Elem::Int(1), steps) == 0);
    assert!(rt; bag.set_count(Elem::Int(2), 2147483647, steps) == Ok(3));
    assert!(rt; bag.add_n(Elem::Int(2), 1, steps) == Err(BagFault::TooMany));
    assert!(rt; bag.add_n(Elem::Int(7), 9, steps) == Ok(0));
    assert!(rt; bag.total(steps) == 2147483647);
    bag.clear();
    assert!(rt; bag.total(steps) == 0);
    Ok(())
}

/// The elements before and after one that is there, each with its count.
fn rows_around<R: CountRows, L: Ledger>(
    bag: &Bag<R>,
    x: &Elem,
    steps: &mut Steps<L>,
) -> (Option<(Elem, u32)>, Option<(Elem, u32)>) {
    if bag.count(*x, steps) == 0 {
        return (None, None);
    }
    let before = bag.row_before(*x, steps);
    (before, bag.row_after(*x, steps))
}

/// The elements before and after one that is there.
fn around<R: CountRows, L: Ledger>(
    bag: &Bag<R>,
    x: &Elem,
    steps: &mut Steps<L>,
) -> (Option<Elem>, Option<Elem>) {
    if bag.count(*x, steps) == 0 {
        return (None, None);
    }
    let before = bag.before(*x, steps);
    (before, bag.after(*x, steps))
}

fn linked<L: Ledger, A: Abort>(rt: &A, alloc: Global, blank: Blank) -> Result<(), Fail>
    requires name { blank.name ≡ L.name }
    requires parts { blank.parts ≡ L.parts }
    requires some { 0 < blank.parts }
{
    let mut steps: Steps<L> = Steps::new(blank);
    let mut bag: LinkedBag = filled(rt, alloc, &mut steps)?;
    assert!(rt; bag.first(&mut steps) == Some(Elem::Int(2)));
    assert!(rt; bag.last(&mut steps) == Some(Elem::Int(1)));
    let (before, after) = around(&bag, &Elem::Int(2), &mut steps);
    assert!(rt; before.is_none());
    assert!(rt; after == Some(Elem::Int(1)));
    assert!(rt; bag.first_row(&mut steps) == Some((Elem::Int(2), 3)));
    assert!(rt; bag.last_row(&mut steps) == Some((Elem::Int(1), 2)));
    assert!(rt; rows_around(&bag, &Elem::Int(2), &mut steps) == (None, Some((Elem::Int(1), 2))));
    assert!(rt; rows_around(&bag, &Elem::Int(1), &mut steps) == (Some((Elem::Int(2), 3)), None));
    emptied(rt, &mut bag, &mut steps)
}

fn sorted<L: Ledger, A: Abort>(rt: &A, alloc: Global, blank: Blank) -> Result<(), Fail>
    requires name { blank.name ≡ L.name }
    requires parts { blank.parts ≡ L.parts }
    requires some { 0 < blank.parts }
{
    let mut steps: Steps<L> = Steps::new(blank);
    let mut bag: TreeBag<Reverse> = filled(rt, alloc, &mut steps)?;
    bag.order_law();
    assert!(rt; bag.first_from(&Cut::Above(Elem::Int(2)), &mut steps) == Some(Elem::Int(1)));
    assert!(rt; bag.last_to(&Cut::Below(Elem::Int(1)), &mut steps) == Some(Elem::Int(2)));
    assert!(rt; bag.last_to(&Cut::Below(Elem::Int(2)), &mut steps) == None);
    assert!(rt; bag.first_row(&mut steps) == Some((Elem::Int(2), 3)));
    assert!(rt; bag.last_row(&mut steps) == Some((Elem::Int(1), 2)));
    assert!(rt; rows_around(&bag, &Elem::Int(2), &mut steps) == (None, Some((Elem::Int(1), 2))));
    let behind = Window {
        lo: Cut::Above(Elem::Int(2)),
        hi: Cut::End,
    };
    assert!(rt; !behind.hi.is_before::<Reverse>(&behind.lo));
    assert!(rt; bag.first_row_in(&behind, &mut steps) == Some((Elem::Int(1), 2)));
    assert!(rt; bag.last_row_in(&behind, &mut steps) == Some((Elem::Int(1), 2)));
    emptied(rt, &mut bag, &mut steps)
}

#[test]
fn new_elements_go_last(rt: HostRuntime) -> Result<(), Fail> {
    let alloc = rt.alloc();
    linked::<Brand, HostRuntime>(&rt, alloc, Blank::new(1))
}

#[test]
fn elements_go_in_an_order_of_their_own(rt: HostRuntime) -> Result<(), Fail> {
    let alloc = rt.alloc();
    sorted::<Brand, HostRuntime>(&rt, alloc, Blank::new(1))
}
