//! The places beside a pair's, and the ends of a key's pairs.
ghost use Rattle.std.specs.Prelude.{◌≡◌, ℕ, Some, nat_eq};
ghost use Rattle.std.specs.Option.{option_map};
ghost use Rattle.elem.specs.declared.elements.Elem.{Elem as Key};
ghost use Rattle.elem.specs.Rows.{last_key, key_after, key_before};
ghost use Rattle.mm_base.specs.PairRows.{HasDistinctIds, IsLive, pairs_of_key, pair_at};

use super::FreeFlatPairs;
use elem::Elem;
use linked_base::group::group_of;

impl FreeFlatPairs {
    /// The place of a key's last pair.
    pub(crate) fn last_in_key(&self, k: &Elem) -> Option<usize>
        ensures place { result ≡ last_key (pairs_of_key k.now self.now) }
        ensures distinct { HasDistinctIds self.now }
    {
        group_of(&self.groups, k).ends.last
    }

    /// The place of the pair after another.
    pub(crate) fn next_place(&self, place: usize) -> Option<usize>
        requires { IsLive self.now place }
        ensures { result ≡ key_after (nat_eq place) self.now }
    {
        self.nodes[place].all.next
    }

    /// The place of the pair before another.
    pub(crate) fn previous_place(&self, place: usize) -> Option<usize>
        requires { IsLive self.now place }
        ensures { result ≡ key_before (nat_eq place) self.now }
    {
        self.nodes[place].all.previous
    }

    /// The key of the pair at a place, where there is one.
    pub(crate) fn key_of(&self, place: Option<usize>) -> Option<Elem>
        requires { (p : ℕ) → place ≡ Some p → IsLive self.now p }
        ensures { result ≡ option_map (λ (pair : Key × Key). pair.0) (pair_at place self.now) }
    {
        match place {
            None => None,
            Some(place) => Some(self.pair_at(place).0),
        }
    }
}
