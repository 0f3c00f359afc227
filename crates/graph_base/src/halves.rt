//! The halves of edges: an edge's number at each of its ends, in the order of the edges.
ghost use Rattle.std.specs.Prelude.{◌≡◌, List, ◌++◌, cond, [], ◌∷◌, IfOk, OnErr};
ghost use Rattle.elem.specs.Elements.{same};
ghost use Rattle.mm_base.specs.PairRows.{Row, IsNew, HasDistinctIds};
ghost use Rattle.graph_base.specs.EdgeRows.{halves_between};

use elem::{Elem, NoMemory, same};
use mm_base::{FreeFlatPairs, PairId};

/// Puts the second half of an edge, last, where it is no loop. The second half of a loop is its first.
fn add_second(
    halves: &mut FreeFlatPairs,
    from: &Elem,
    to: &Elem,
    number: &Elem,
    first: PairId,
) -> Result<PairId, NoMemory>
    ensures ok { IfOk result (λ second. halves.new ≡ halves.old ++ cond (same from.now to.now) [] ((second, (to.now, number.now)) ∷ [])) }
    ensures err { OnErr result (halves.new ≡ halves.old) }
{
    if same(from, to) {
        return Ok(first);
    }
    halves.add(*to, *number)
}

/// Puts the halves of an edge, last, and tells their ids.
pub fn add_halves(
    halves: &mut FreeFlatPairs,
    from: &Elem,
    to: &Elem,
    number: &Elem,
) -> Result<(PairId, PairId), NoMemory>
    ensures ok { IfOk result (λ ids. halves.new ≡ halves.old ++ halves_between number.now from.now to.now ids.0 ids.1) }
    ensures err { OnErr result (halves.new ≡ halves.old) }
{
    let first = halves.add(*from, *number)?;
    match add_second(halves, from, to, number, first) {
        Ok(second) => Ok((first, second)),
        Err(_) => {
            halves.remove_id(first);
            Err(NoMemory)
        }
    }
}

/// Takes out the halves of an edge, which stand together.
pub fn drop_halves(
    halves: &mut FreeFlatPairs,
    from: &Elem,
    to: &Elem,
    first: PairId,
    second: PairId,
    number: &Elem,
)
    requires { (us : List Row) × (vs : List Row) × (halves.old ≡ us ++ (halves_between number.now from.now to.now first second ++ vs)) }
    ensures { (us vs : List Row) → halves.old ≡ us ++ (halves_between number.now from.now to.now first second ++ vs) → halves.new ≡ us ++ vs }
{
    let _len = halves.len();
    halves.remove_id(first);
    if !same(from, to) {
        let _len = halves.len();
        halves.remove_id(second);
    }
}
