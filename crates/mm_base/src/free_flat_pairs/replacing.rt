//! The values of a key replaced by others. New pairs come first, so that nothing is lost where memory is refused.
ghost use Rattle.std.specs.Prelude.{◌≡◌, List, ◌++◌, length, OnOk, OnErr};
ghost use Rattle.mm_base.specs.PairRows.{Row, without_key};
ghost use Rattle.mm_base.specs.Replacing.{IsAppended, IsReplaced, IsWritten, IsCutAt};

use super::FreeFlatPairs;
use elem::{Elem, NoMemory};

impl FreeFlatPairs {
    /// Gives a key these values. Its pairs keep their places and ids as far as there are values; then the rest of the
    /// pairs goes, or the rest of the values comes last of all.
    pub fn replace_values(&mut self, k: Elem, vs: &[Elem]) -> Result<(), NoMemory>
        ensures ok { OnOk result (IsReplaced k vs.now self.old self.new) }
        ensures err { OnErr result (self.new ≡ self.old) }
    {
        let count = self.count_of(k);
        if count < vs.len() {
            self.append(&k, &vs[count..])?;
        }
        let rest = self.overwrite(&k, vs);
        self.remove_from(&k, rest);
        Ok(())
    }

    /// Puts a pair for each value, last.
    pub(crate) fn append(&mut self, k: &Elem, vs: &[Elem]) -> Result<(), NoMemory>
        ensures ok { OnOk result (IsAppended k.now vs.now self.old self.new) }
        ensures err { OnErr result (self.new ≡ self.old) }
    {
        for (placed, v) in vs.iter().enumerate() {
            if self.link(k, v, None, None).is_err() {
                self.remove_last(placed);
                return Err(NoMemory);
            }
        }
        Ok(())
    }

    /// Removes the last pairs.
    fn remove_last(&mut self, count: usize)
        ensures { (xs added : List Row) → self.old ≡ xs ++ added → length added ≡ count → self.new ≡ xs }
    {
        for _step in 0..count {
            if let Some(place) = self.last_place() {
                self.remove_at(place);
            }
        }
    }

    /// Writes the values into the key's pairs in turn, and tells the first pair that is left.
    fn overwrite(&mut self, k: &Elem, vs: &[Elem]) -> Option<usize>
        ensures { IsWritten k.now vs.now self.old self.new result }
    {
        let mut at = self.place_at(k, 0);
        for v in vs {
            let Some(place) = at else {
                return None;
            };
            at = self.next_in_key(place);
            self.write(place, v);
        }
        at
    }

    /// Removes the pairs of a key from a place on.
    pub(crate) fn remove_from(&mut self, k: &Elem, from: Option<usize>)
        requires { (front : List Row) × (back : List Row) × IsCutAt k.now from self.old front back }
        ensures { (front back : List Row) → IsCutAt k.now from self.old front back → self.new ≡ front ++ without_key k.now back }
    {
        let mut at = from;
        for _step in 0..self.len() {
            let Some(place) = at else {
                return;
            };
            at = self.next_in_key(place);
            self.remove_at(place);
        }
    }
}
