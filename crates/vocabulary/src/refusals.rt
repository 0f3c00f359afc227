//! Why a call is refused.

/// The exceptions that a call may answer, and the limits. A refused call changes nothing.
#[derive(Clone, Copy)]
pub enum Refusal {
    ConcurrentModification = 1,
    IllegalState = 2,
    IndexOutOfBounds = 3,
    NoSuchElement = 4,
    UnsupportedOperation = 5,
    IllegalArgument = 6,
    /// A limit on names, rows, or the length of a path of steps.
    Limit = 7,
    /// Want of memory, which has no printed word.
    NoMemory = 8,
}

impl Refusal {
    ghost use Rattle.std.specs.Prelude.{◌≡◌, ◌≢◌};
    ghost use Rattle.vocabulary.specs.Refusals.{name_of};
    ghost use Rattle.vocabulary.specs.declared.refusals.Refusal.TheVariants.{NoMemory};

    /// The printed word.
    pub fn name(&self) -> &'static str
        requires { self.now ≢ NoMemory }
        ensures { result.now ≡ name_of self.now }
    {
        match self {
            Refusal::ConcurrentModification => "ConcurrentModificationException",
            Refusal::IllegalState => "IllegalStateException",
            Refusal::IndexOutOfBounds => "IndexOutOfBoundsException",
            Refusal::NoSuchElement => "NoSuchElementException",
            Refusal::UnsupportedOperation => "UnsupportedOperationException",
            Refusal::IllegalArgument => "IllegalArgumentException",
            Refusal::Limit => "?limit",
            Refusal::NoMemory => "",
        }
    }
}
