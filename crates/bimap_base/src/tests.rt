//! Each public call once.
ghost use Rattle.std.specs.Prelude.{◌≡◌, ◌<◌};

use crate::{BiFault, PairRows};
use elem::{Elem, Steps};
use std::alloc::Global;
use std::marker::Brand;
use std::sync::ledger::{Blank, Ledger};
use std::test::Fail;

/// A bimap of 1 and 10, and 2 and 20.
fn two<L: Ledger>(alloc: Global, steps: &mut Steps<L>) -> Result<PairRows, BiFault> {
    let Ok(mut m) = PairRows::new(alloc) else {
        return Err(BiFault::NoMemory);
    };
    m.put(Elem::Int(1), Elem::Int(10), steps)?;
    m.put(Elem::Int(2), Elem::Int(20), steps)?;
    Ok(m)
}

/// What a put of 3 and 10 says, and the key that gave 10 up by force, where 3 stands then, and what follows it.
fn bound<L: Ledger>(
    alloc: Global,
    blank: Blank,
) -> Result<(Option<BiFault>, Option<Elem>, Option<Elem>, Option<Elem>), BiFault>
    requires name { blank.name ≡ L.name }
    requires parts { blank.parts ≡ L.parts }
    requires some { 0 < blank.parts }
{
    let mut steps = Steps::<L>::new(blank);
    let mut m = two(alloc, &mut steps)?;
    let refused = m.put(Elem::Int(3), Elem::Int(10), &mut steps).err();
    let Ok(before) = m.flip_force_put(Elem::Int(10), Elem::Int(3), &mut steps) else {
        return Err(BiFault::NoMemory);
    };
    let first = m.first(&mut steps);
    let after = key_after(&m, 3, &mut steps);
    Ok((refused, before, first, after))
}

/// The key after a number, where that is a key.
fn key_after<L: Ledger>(m: &PairRows, number: i64, steps: &mut Steps<L>) -> Option<Elem> {
    if m.by_key(Elem::Int(number), steps).is_none() {
        return None;
    }
    m.after(Elem::Int(number), steps)
}

/// The key before a number, where that is a key.
fn key_before<L: Ledger>(m: &PairRows, number: i64, steps: &mut Steps<L>) -> Option<Elem> {
    if m.by_key(Elem::Int(number), steps).is_none() {
        return None;
    }
    m.before(Elem::Int(number), steps)
}

/// The last key and the one before it after 20 went to 1 by force, and 30 to 4 from the side of the value.
fn forced<L: Ledger>(
    alloc: Global,
    blank: Blank,
) -> Result<(Option<Elem>, Option<Elem>, Option<Elem>), BiFault>
    requires name { blank.name ≡ L.name }
    requires parts { blank.parts ≡ L.parts }
    requires some { 0 < blank.parts }
{
    let mut steps = Steps::<L>::new(blank);
    let mut m = two(alloc, &mut steps)?;
    let Ok(before) = m.force_put(Elem::Int(1), Elem::Int(20), &mut steps) else {
        return Err(BiFault::NoMemory);
    };
    m.flip_put(Elem::Int(30), Elem::Int(4), &mut steps)?;
    let last = m.last(&mut steps);
    Ok((before, last, key_before(&m, 4, &mut steps)))
}

/// The value of 1, the key of 20 and the numbers of pairs as both go and all goes.
fn fewer<L: Ledger>(
    alloc: Global,
    blank: Blank,
) -> Result<(Option<Elem>, Option<Elem>, Option<Elem>, usize, usize), BiFault>
    requires name { blank.name ≡ L.name }
    requires parts { blank.parts ≡ L.parts }
    requires some { 0 < blank.parts }
{
    let mut steps = Steps::<L>::new(blank);
    let mut m = two(alloc, &mut steps)?;
    let value = m.remove_key(Elem::Int(1), &mut steps);
    let found = m.by_value(Elem::Int(20), &mut steps);
    let len = m.len();
    let key = m.remove_value(Elem::Int(20), &mut steps);
    m.clear();
    Ok((value, found, key, len, m.len()))
}

/// The first pair, the last, the one after the key 1 and the one before the key 2.
fn walked<L: Ledger>(alloc: Global, blank: Blank) -> Result<[Option<(Elem, Elem)>; 4], BiFault>
    requires name { blank.name ≡ L.name }
    requires parts { blank.parts ≡ L.parts }
    requires some { 0 < blank.parts }
{
    let mut steps = Steps::<L>::new(blank);
    let mut m = two(alloc, &mut steps)?;
    m.put(Elem::Int(3), Elem::Int(30), &mut steps)?;
    let first = m.first_row(&mut steps);
    let last = m.last_row(&mut steps);
    if m.by_key(Elem::Int(1), &mut steps).is_none()
        || m.by_key(Elem::Int(2), &mut steps).is_none()
    {
        return Ok([None; 4]);
    }
    let after = m.row_after(Elem::Int(1), &mut steps);
    let before = m.row_before(Elem::Int(2), &mut steps);
    Ok([first, last, after, before])
}

#[test]
fn a_pair_keeps_its_place(rt: HostRuntime) -> Result<(), Fail> {
    let (refused, before, first, after) = bound::<Brand>(rt.alloc(), Blank::new(1))
        .ok()
        .ok_or("memory")?;
    assert_eq!(rt; refused, Some(BiFault::Bound));
    assert_eq!(rt; before, Some(Elem::Int(1)));
    assert_eq!(rt; first, Some(Elem::Int(3)));
    assert_eq!(rt; after, Some(Elem::Int(2)));
    Ok(())
}

#[test]
fn another_pair_gives_way(rt: HostRuntime) -> Result<(), Fail> {
    let (before, last, previous) = forced::<Brand>(rt.alloc(), Blank::new(1))
        .ok()
        .ok_or("memory")?;
    assert_eq!(rt; before, Some(Elem::Int(10)));
    assert_eq!(rt; last, Some(Elem::Int(4)));
    assert_eq!(rt; previous, Some(Elem::Int(1)));
    Ok(())
}

#[test]
fn pairs_go_from_either_side(rt: HostRuntime) -> Result<(), Fail> {
    let (value, found, key, len, cleared) = fewer::<Brand>(rt.alloc(), Blank::new(1))
        .ok()
        .ok_or("memory")?;
    assert_eq!(rt; value, Some(Elem::Int(10)));
    assert_eq!(rt; found, Some(Elem::Int(2)));
    assert_eq!(rt; key, Some(Elem::Int(2)));
    assert_eq!(rt; len, 1);
    assert_eq!(rt; cleared, 0);
    Ok(())
}

#[test]
fn pairs_come_with_their_values(rt: HostRuntime) -> Result<(), Fail> {
    let rows = walked::<Brand>(rt.alloc(), Blank::new(1))
        .ok()
        .ok_or("memory")?;
    assert_eq!(rt; rows[0], Some((Elem::Int(1), Elem::Int(10))));
    assert_eq!(rt; rows[1], Some((Elem::Int(3), Elem::Int(30))));
    assert_eq!(rt; rows[2], Some((Elem::Int(2), Elem::Int(20))));
    assert_eq!(rt; rows[3], Some((Elem::Int(1), Elem::Int(10))));
    Ok(())
}
