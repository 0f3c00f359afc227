ghost use Rattle.std.specs.Prelude.{◌≡◌, ◌↔◌};
ghost use Rattle.discrete_set.specs.Ranges.{HaveSameMembers, IsRangeSet, canonical_list};

use elem::Span;

/// Two lists of ranges have the same canonical list exactly where they have the same whole numbers.
pub fn canonical_law(rows: &[Span], others: &[Span])
    requires rows { IsRangeSet rows.now }
    requires others { IsRangeSet others.now }
    ensures { (canonical_list rows.now ≡ canonical_list others.now) ↔ HaveSameMembers rows.now others.now }
{
    let _ = rows;
    let _ = others;
}
