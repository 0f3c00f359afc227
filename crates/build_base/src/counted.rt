//! The counts of a multiset's elements.
ghost use Rattle.std.specs.Prelude.{◌≡◌, ◌≢◌, ℕ, ◌+◌, ◌≤◌, cond, map, Some, Err, IfOk, OnOk, OnErr};
ghost use Rattle.std.specs.Map.{count_at};
ghost use Rattle.std.specs.HashMap as hash;
ghost use Rattle.elem.specs.declared.elements.Elem.{Elem as Element};
ghost use Rattle.elem.specs.Elements.{same};
ghost use Rattle.build_base.specs.declared.row.Row.{Row as AnyRow};
ghost use Rattle.build_base.specs.declared.row.Row.TheVariants.{Counted};
ghost use Rattle.build_base.specs.Rows.{first_of};
ghost use Rattle.build_base.specs.Built.{most, count_in};

use crate::firsts::push;
use crate::part::first_of;
use crate::{BuildFault, Row};
use elem::Elem;
use std::alloc::Global;
use std::collections::HashMap;

/// The count of an element.
pub fn count_at(counts: &HashMap<Elem, u32>, x: &Elem) -> u32
    ensures { result ≡ count_at (hash.get same counts.now) x.now }
{
    counts.get(x).copied().unwrap_or(0)
}

/// Counts the occurrences of one item more.
pub fn count_item(counts: &mut HashMap<Elem, u32>, item: &Row) -> Result<(), BuildFault>
    requires { (x : Element) (n : ℕ) → item.now ≡ Counted x n → count_at (hash.get same counts.old) x + n ≤ most }
    ensures ok { OnOk result ((x : Element) → count_at (hash.get same counts.new) x ≡ count_at (hash.get same counts.old) x + count_in x item.now) }
    ensures err { OnErr result ((x : Element) → count_at (hash.get same counts.new) x ≡ count_at (hash.get same counts.old) x) }
    ensures never { result ≢ Err BuildFault.Refused }
{
    match item {
        Row::Counted(x, n) => {
            let before = count_at(counts, x);
            write_count(counts, x, before + *n)?;
            Ok(())
        }
        _ => Ok(()),
    }
}

/// Gives an element another count.
fn write_count(counts: &mut HashMap<Elem, u32>, x: &Elem, n: u32) -> Result<(), BuildFault>
    ensures ok { OnOk result ((q : Element) → hash.get same counts.new q ≡ cond (same x.now q) (Some n) (hash.get same counts.old q)) }
    ensures err { OnErr result ((q : Element) → hash.get same counts.new q ≡ hash.get same counts.old q) }
    ensures never { result ≢ Err BuildFault.Refused }
{
    if counts.reserve(1).is_err() {
        return Err(BuildFault::NoMemory);
    }
    let _before = counts.insert(*x, n);
    Ok(())
}

/// Each of some elements with its count.
pub fn counted(
    alloc: Global,
    heads: &[Row],
    counts: &HashMap<Elem, u32>,
) -> Result<Vec<Row>, BuildFault>
    ensures rows { IfOk result (λ rows. rows.items ≡ map (λ (head : AnyRow). Counted (first_of head) (count_at (hash.get same counts.now) (first_of head))) heads.now) }
    ensures never { result ≢ Err BuildFault.Refused }
{
    let mut rows = Vec::new(alloc);
    for head in heads {
        let x = first_of(head);
        push(&mut rows, &Row::Counted(x, count_at(counts, &x)))?;
    }
    Ok(rows)
}
