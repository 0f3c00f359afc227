//! Each public call: what builders of a map, a multiset and a range set make, and which ranges are refused.
ghost use Rattle.std.specs.Prelude.{◌≡◌, ◌<◌};
ghost use Rattle.elem.specs.Spans.{IsWhole};

use crate::{BuildFault, Builder, Finish, Row};
use elem::{BuildKind, Cut, Elem, Span, Steps};
use std::alloc::Global;
use std::marker::Brand;
use std::process::Abort;
use std::sync::ledger::{Blank, Ledger};
use std::test::Fail;

/// A map of three pairs, two of them of one key.
fn last_pairs<L: Ledger, A: Abort>(rt: &A, alloc: Global, blank: Blank) -> Result<(), Fail>
    requires name { blank.name ≡ L.name }
    requires parts { blank.parts ≡ L.parts }
    requires some { 0 < blank.parts }
{
    let mut steps: Steps<L> = Steps::new(blank);
    let mut map = Builder::new(alloc, BuildKind::Map);
    let first = Row::Pair(Elem::Int(1), Elem::Int(10));
    let second = Row::Pair(Elem::Int(2), Elem::Int(20));
    let third = Row::Pair(Elem::Int(1), Elem::Int(11));
    assert!(rt; map.add(first, &mut steps) == Ok(()));
    assert!(rt; map.add(second, &mut steps) == Ok(()));
    assert!(rt; map.add(third, &mut steps) == Ok(()));
    assert!(rt; map.len() == 3);
    let thrown = map.finish(alloc, Finish::OrThrow, &mut steps);
    assert!(rt; thrown.is_err());
    let kept = map.finish(alloc, Finish::KeepingLast, &mut steps);
    let rows = kept.ok().ok_or("memory")?;
    assert!(rt; rows.len() == 2);
    assert!(rt; rows[0] == second);
    assert!(rt; rows[1] == third);
    Ok(())
}

/// A multiset of 2 three times, and of 1 as often as may be.
fn counts<L: Ledger, A: Abort>(rt: &A, alloc: Global, blank: Blank) -> Result<(), Fail>
    requires name { blank.name ≡ L.name }
    requires parts { blank.parts ≡ L.parts }
    requires some { 0 < blank.parts }
{
    let mut steps: Steps<L> = Steps::new(blank);
    let mut bag = Builder::new(alloc, BuildKind::Multiset);
    assert!(rt; bag.add(Row::Counted(Elem::Int(2), 1), &mut steps) == Ok(()));
    assert!(rt; bag.add(Row::Counted(Elem::Int(1), 2147483647), &mut steps) == Ok(()));
    assert!(rt; bag.add(Row::Counted(Elem::Int(1), 1), &mut steps) == Err(BuildFault::Refused));
    assert!(rt; bag.add(Row::Counted(Elem::Int(2), 2), &mut steps) == Ok(()));
    assert!(rt; bag.add(Row::Counted(Elem::Int(3), 0), &mut steps) == Ok(()));
    assert!(rt; bag.len() == 3);
    let built = bag.finish(alloc, Finish::Plain, &mut steps);
    let rows = built.ok().ok_or("memory")?;
    assert!(rt; rows.len() == 2);
    assert!(rt; rows[0] == Row::Counted(Elem::Int(2), 3));
    assert!(rt; rows[1] == Row::Counted(Elem::Int(1), 2147483647));
    Ok(())
}

/// The range from one number to another, both in it, or an empty one where they are out of order.
fn closed(lo: i64, hi: i64) -> Span
    ensures { IsWhole result }
{
    let lo = Cut::Below(Elem::Int(lo)).place();
    let hi = Cut::Above(Elem::Int(hi)).place();
    if lo <= hi {
        Span::at(lo, hi)
    } else {
        Span::at(lo, lo)
    }
}

/// A range set of three ranges, with one more that overlaps the first.
fn overlap_in_set<L: Ledger, A: Abort>(rt: &A, alloc: Global, blank: Blank) -> Result<(), Fail>
    requires name { blank.name ≡ L.name }
    requires parts { blank.parts ≡ L.parts }
    requires some { 0 < blank.parts }
{
    let mut steps: Steps<L> = Steps::new(blank);
    let mut set = Builder::new(alloc, BuildKind::RangeSet);
    let first = Row::Range(closed(7, 9));
    let second = Row::Range(closed(1, 2));
    let third = Row::Range(closed(20, 22));
    let fourth = Row::Range(closed(9, 10));
    assert!(rt; set.add(first, &mut steps) == Ok(()));
    assert!(rt; set.add(second, &mut steps) == Ok(()));
    assert!(rt; set.add(third, &mut steps) == Ok(()));
    let built = set.finish(alloc, Finish::Plain, &mut steps);
    let rows = built.ok().ok_or("memory")?;
    assert!(rt; rows.len() == 3);
    assert!(rt; rows[0] == second);
    assert!(rt; rows[2] == third);
    assert!(rt; set.add(fourth, &mut steps) == Ok(()));
    let refused = set.finish(alloc, Finish::Plain, &mut steps);
    assert!(rt; refused.err() == Some(BuildFault::Refused));
    Ok(())
}

/// A range map of three ranges, with one more that begins before the first and ends in it.
fn overlap_in_map<L: Ledger, A: Abort>(rt: &A, alloc: Global, blank: Blank) -> Result<(), Fail>
    requires name { blank.name ≡ L.name }
    requires parts { blank.parts ≡ L.parts }
    requires some { 0 < blank.parts }
{
    let mut steps: Steps<L> = Steps::new(blank);
    let mut map = Builder::new(alloc, BuildKind::RangeMap);
    let first = Row::RangeValue(closed(7, 9), Elem::Int(1));
    let second = Row::RangeValue(closed(1, 2), Elem::Int(2));
    let third = Row::RangeValue(closed(20, 22), Elem::Int(3));
    let fourth = Row::RangeValue(closed(4, 7), Elem::Int(4));
    assert!(rt; map.add(first, &mut steps) == Ok(()));
    assert!(rt; map.add(second, &mut steps) == Ok(()));
    assert!(rt; map.add(third, &mut steps) == Ok(()));
    let built = map.finish(alloc, Finish::Plain, &mut steps);
    let rows = built.ok().ok_or("memory")?;
    assert!(rt; rows.len() == 3);
    assert!(rt; rows[1] == first);
    assert!(rt; map.add(fourth, &mut steps) == Ok(()));
    let refused = map.finish(alloc, Finish::Plain, &mut steps);
    assert!(rt; refused.err() == Some(BuildFault::Refused));
    Ok(())
}

#[test]
fn the_last_pair_of_a_key_is_kept(rt: HostRuntime) -> Result<(), Fail> {
    let alloc = rt.alloc();
    last_pairs::<Brand, HostRuntime>(&rt, alloc, Blank::new(1))
}

#[test]
fn equal_elements_are_counted(rt: HostRuntime) -> Result<(), Fail> {
    let alloc = rt.alloc();
    counts::<Brand, HostRuntime>(&rt, alloc, Blank::new(1))
}

#[test]
fn ranges_that_overlap_are_refused(rt: HostRuntime) -> Result<(), Fail> {
    let alloc = rt.alloc();
    overlap_in_set::<Brand, HostRuntime>(&rt, alloc, Blank::new(1))
}

#[test]
fn entries_that_overlap_are_refused(rt: HostRuntime) -> Result<(), Fail> {
    let alloc = rt.alloc();
    overlap_in_map::<Brand, HostRuntime>(&rt, alloc, Blank::new(1))
}
