//! Rows in a tree that are trees themselves: what becomes of the rows of a key.
ghost use Rattle.std.specs.Prelude.{◌≡◌, Some, OnOk, OnErr};
ghost use Rattle.elem.specs.Keyed.{value_at, IsPresent, IsAbsent, with_value, without};
ghost use Rattle.plain_base.specs.Sorted.{placed};
ghost use Rattle.plain_base.specs.Groups.{rows_in};

use super::FreeTreeMapRows;
use crate::ranked::Ranked;
use elem::{Compare, Elem, NoMemory};

impl<V: Copy, C: Compare> FreeTreeMapRows<FreeTreeMapRows<V, C>, C> {
    /// Adds a row to those of `k`.
    pub(crate) fn insert_in(&mut self, k: &Elem, x: &Elem, v: V) -> Result<(), NoMemory>
        requires present { IsPresent self.old k.now }
        requires absent { IsAbsent (rows_in (value_at self.old k.now)) x.now }
        ensures ok { OnOk result (self.new ≡ with_value self.old k.now (placed C.before (rows_in (value_at self.old k.now)) x.now v)) }
        ensures err { OnErr result (self.new ≡ self.old) }
    {
        match self.rows.get_mut(&Ranked::new(*k)) {
            Some(group) => group.insert(*x, v),
            None => Ok(()),
        }
    }

    /// Gives a row of `k` another value, and tells the one before.
    pub(crate) fn replace_in(&mut self, k: &Elem, x: &Elem, v: V) -> V
        requires present { IsPresent self.old k.now }
        requires there { IsPresent (rows_in (value_at self.old k.now)) x.now }
        ensures value { value_at (rows_in (value_at self.old k.now)) x.now ≡ Some result }
        ensures rows { self.new ≡ with_value self.old k.now (with_value (rows_in (value_at self.old k.now)) x.now v) }
    {
        match self.rows.get_mut(&Ranked::new(*k)) {
            Some(group) => group.replace(*x, v),
            None => v,
        }
    }

    /// Removes a row of `k`, and tells its value.
    pub(crate) fn remove_in(&mut self, k: &Elem, x: &Elem) -> Option<V>
        requires present { IsPresent self.old k.now }
        ensures value { result ≡ value_at (rows_in (value_at self.old k.now)) x.now }
        ensures rows { self.new ≡ with_value self.old k.now (without (rows_in (value_at self.old k.now)) x.now) }
    {
        match self.rows.get_mut(&Ranked::new(*k)) {
            Some(group) => group.remove(*x),
            None => None,
        }
    }
}
