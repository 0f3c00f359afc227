/// Why a bag took nothing. It is as before.
#[derive(Clone, Copy, Debug, PartialEq, Eq, Drop)]
pub enum BagFault {
    /// The count would pass 2147483647.
    TooMany,
    /// Want of memory.
    NoMemory,
}
