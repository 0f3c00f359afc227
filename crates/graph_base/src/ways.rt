/// The edges of a node that are counted: all, those that enter it, or those that leave it.
#[derive(Clone, Copy, Debug, PartialEq, Eq)]
pub enum Way {
    Both,
    Into,
    Out,
}
