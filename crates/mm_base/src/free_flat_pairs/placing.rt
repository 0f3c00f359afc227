//! New pairs of a key where its pairs begin, and its first pairs removed.
ghost use Rattle.std.specs.Prelude.{◌≡◌, List, ◌++◌, OnOk, OnErr};
ghost use Rattle.mm_base.specs.PairRows.{Row, count_of, without_key};
ghost use Rattle.mm_base.specs.Exchanging.{IsEdge, IsPlaced};

use super::FreeFlatPairs;
use elem::{Elem, NoMemory};

impl FreeFlatPairs {
    /// Puts a pair for each value before the place `next`, where the pairs of the key begin, or last.
    pub(crate) fn place_all(
        &mut self,
        k: &Elem,
        vs: &[Elem],
        next: Option<usize>,
    ) -> Result<(), NoMemory>
        requires { (front : List Row) × (back : List Row) × IsEdge k.now next self.old front back }
        ensures ok { OnOk result (IsPlaced k.now vs.now next self.old self.new) }
        ensures err { OnErr result (self.new ≡ self.old) }
    {
        for (placed, v) in vs.iter().enumerate() {
            let _len = self.len();
            if self.link(k, v, next, next).is_err() {
                self.remove_first(k, placed);
                return Err(NoMemory);
            }
        }
        Ok(())
    }

    /// Removes the first pairs of a key.
    fn remove_first(&mut self, k: &Elem, count: usize)
        ensures { (front back : List Row) → self.old ≡ front ++ back → count ≡ count_of k.now front → self.new ≡ without_key k.now front ++ back }
    {
        for _step in 0..count {
            if let Some(place) = self.place_at(k, 0) {
                self.remove_at(place);
            }
        }
    }
}
