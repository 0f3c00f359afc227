//! The places of pairs.
ghost use Rattle.std.specs.Prelude.{◌≡◌, Some, nat_eq};
ghost use Rattle.elem.specs.Rows.{first_key, last_key, key_after};
ghost use Rattle.mm_base.specs.PairRows.{HasDistinctIds, IsLive, pair_of, rows_beside, id_of, rows_of_pair};

use super::FreeFlatPairs;
use crate::pair_nodes::{PairNode, PairsOfKey, find_value};
use elem::Elem;
use linked_base::group::group_of;
use linked_base::thread::nth;

impl FreeFlatPairs {
    /// The place of a key's pair number `i`.
    pub(crate) fn place_at(&self, k: &Elem, i: usize) -> Option<usize>
        ensures place { result ≡ id_of k.now i self.now }
        ensures distinct { HasDistinctIds self.now }
    {
        let group = group_of(&self.groups, k);
        nth::<PairsOfKey, PairNode>(&self.nodes, &group.ends, i)
    }

    /// The key and the value of the pair at a place.
    pub(crate) fn pair_at(&self, place: usize) -> (Elem, Elem)
        requires { IsLive self.now place }
        ensures pair { pair_of self.now place ≡ Some result }
        ensures distinct { HasDistinctIds self.now }
    {
        let node = &self.nodes[place];
        (node.key, node.value)
    }

    /// The place of the last pair.
    pub(crate) fn last_place(&self) -> Option<usize>
        ensures place { result ≡ last_key self.now }
        ensures distinct { HasDistinctIds self.now }
    {
        self.all.last
    }

    /// The place of the pair after another of its key.
    pub(crate) fn next_in_key(&self, place: usize) -> Option<usize>
        requires { IsLive self.now place }
        ensures place { result ≡ key_after (nat_eq place) (rows_beside (pair_of self.now place) self.now) }
        ensures distinct { HasDistinctIds self.now }
    {
        self.nodes[place].of_key.next
    }

    /// The place of the first pair of a key and a value.
    pub(crate) fn find(&self, k: &Elem, v: &Elem) -> Option<usize>
        ensures { result ≡ first_key (rows_of_pair k.now v.now self.now) }
    {
        let group = group_of(&self.groups, k);
        find_value(&self.nodes, &group, v)
    }
}
