//! Each public call once.
ghost use Rattle.std.specs.Prelude.{◌≡◌, ◌<◌};

use crate::{LinkedMap, LinkedSet};
use elem::{Elem, Keyed, NoMemory, Steps};
use std::alloc::Global;
use std::marker::Brand;
use std::sync::ledger::{Blank, Ledger};
use std::test::Fail;

fn add<L: Ledger>(
    m: &mut LinkedMap<u32>,
    number: i64,
    v: u32,
    steps: &mut Steps<L>,
) -> Result<(), NoMemory> {
    if m.probe(Elem::Int(number), steps).is_none() {
        m.insert(Elem::Int(number), v, steps)?;
    }
    Ok(())
}

/// The value of 2 before it was replaced, and the keys after it and before it, where 3 was renamed to 5.
fn changed<L: Ledger>(
    alloc: Global,
    blank: Blank,
) -> Result<(u32, Option<Elem>, Option<Elem>), NoMemory>
    requires name { blank.name ≡ L.name }
    requires parts { blank.parts ≡ L.parts }
    requires some { 0 < blank.parts }
{
    let mut steps = Steps::<L>::new(blank);
    let mut m = LinkedMap::new(alloc)?;
    for number in 1..5u8 {
        add(&mut m, number as i64, number as u32 * 10, &mut steps)?;
    }
    if m.probe(Elem::Int(3), &mut steps).is_some() && m.probe(Elem::Int(5), &mut steps).is_none() {
        m.rekey(Elem::Int(3), Elem::Int(5), 50, &mut steps)?;
    }
    if m.probe(Elem::Int(2), &mut steps).is_some() {
        let after = m.after(Elem::Int(2), &mut steps);
        let before = m.before(Elem::Int(2), &mut steps);
        let value = m.replace(Elem::Int(2), 21, &mut steps);
        return Ok((value, after, before));
    }
    Ok((0, None, None))
}

/// The ends and the number of the rows of 1 to 4 without 4, and then of no rows.
fn ends<L: Ledger>(
    alloc: Global,
    blank: Blank,
) -> Result<(Option<Elem>, Option<Elem>, usize, usize), NoMemory>
    requires name { blank.name ≡ L.name }
    requires parts { blank.parts ≡ L.parts }
    requires some { 0 < blank.parts }
{
    let mut steps = Steps::<L>::new(blank);
    let mut m = LinkedMap::new(alloc)?;
    for number in 1..5u8 {
        add(&mut m, number as i64, 0, &mut steps)?;
    }
    m.remove(Elem::Int(4), &mut steps);
    let len = m.len();
    let first = m.first(&mut steps);
    let last = m.last(&mut steps);
    m.clear();
    Ok((first, last, len, m.len()))
}

/// The first row and the last of 1 to 4 after 1 was put again, and the rows after 2 and before it.
fn whole_rows<L: Ledger>(alloc: Global, blank: Blank) -> Result<[Option<(Elem, u32)>; 4], NoMemory>
    requires name { blank.name ≡ L.name }
    requires parts { blank.parts ≡ L.parts }
    requires some { 0 < blank.parts }
{
    let mut steps = Steps::<L>::new(blank);
    let mut m = LinkedMap::new(alloc)?;
    for number in 1..5u8 {
        m.put(Elem::Int(number as i64), number as u32 * 10, &mut steps)?;
    }
    let one = m.put(Elem::Int(1), 11, &mut steps)?;
    let first = m.first_row(&mut steps);
    let last = m.last_row(&mut steps);
    if one == Some(10) && m.probe(Elem::Int(2), &mut steps).is_some() {
        let after = m.row_after(Elem::Int(2), &mut steps);
        let before = m.row_before(Elem::Int(2), &mut steps);
        return Ok([first, last, after, before]);
    }
    Ok([None; 4])
}

fn set_len(alloc: Global) -> Result<usize, NoMemory> {
    let set: LinkedSet = LinkedSet::new(alloc)?;
    Ok(set.len())
}

#[test]
fn rows_keep_their_places(rt: HostRuntime) -> Result<(), Fail> {
    let (value, after, before) = changed::<Brand>(rt.alloc(), Blank::new(1))
        .ok()
        .ok_or("memory")?;
    assert_eq!(rt; value, 20);
    assert_eq!(rt; after, Some(Elem::Int(5)));
    assert_eq!(rt; before, Some(Elem::Int(1)));
    Ok(())
}

#[test]
fn ends_and_numbers(rt: HostRuntime) -> Result<(), Fail> {
    let (first, last, len, cleared) = ends::<Brand>(rt.alloc(), Blank::new(1))
        .ok()
        .ok_or("memory")?;
    assert_eq!(rt; first, Some(Elem::Int(1)));
    assert_eq!(rt; last, Some(Elem::Int(3)));
    assert_eq!(rt; len, 3);
    assert_eq!(rt; cleared, 0);
    assert_eq!(rt; set_len(rt.alloc()).ok(), Some(0));
    Ok(())
}

#[test]
fn rows_come_with_their_values(rt: HostRuntime) -> Result<(), Fail> {
    let rows = whole_rows::<Brand>(rt.alloc(), Blank::new(1))
        .ok()
        .ok_or("memory")?;
    assert_eq!(rt; rows[0], Some((Elem::Int(1), 11)));
    assert_eq!(rt; rows[1], Some((Elem::Int(4), 40)));
    assert_eq!(rt; rows[2], Some((Elem::Int(3), 30)));
    assert_eq!(rt; rows[3], Some((Elem::Int(1), 11)));
    Ok(())
}
