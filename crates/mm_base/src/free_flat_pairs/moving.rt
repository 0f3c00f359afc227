//! Pairs that go last.
ghost use Rattle.std.specs.Prelude.{◌≡◌};
ghost use Rattle.mm_base.specs.PairRows.{IsLive};
ghost use Rattle.mm_base.specs.Moving.{moved_last, key_moved_last};

use super::FreeFlatPairs;
use crate::pair_nodes::move_last;
use elem::Elem;
use linked_base::group::{group_of, keep_group};

impl FreeFlatPairs {
    /// Puts the pair at a place last, of all and of its key. It takes no memory.
    pub(crate) fn to_end(&mut self, place: usize)
        requires { IsLive self.old place }
        ensures { self.new ≡ moved_last place self.old }
    {
        let key = self.nodes[place].key;
        let mut group = group_of(&self.groups, &key);
        move_last(&mut self.nodes, &mut self.all, &mut group, place);
        keep_group(&mut self.groups, &key, group);
    }

    /// Puts the pairs of a key last, in their order. It takes no memory.
    pub(crate) fn key_to_end(&mut self, k: &Elem)
        ensures { self.new ≡ key_moved_last k.now self.old }
    {
        let count = group_of(&self.groups, k).count;
        for _step in 0..count {
            if let Some(place) = self.place_at(k, 0) {
                self.to_end(place);
            }
        }
    }
}
