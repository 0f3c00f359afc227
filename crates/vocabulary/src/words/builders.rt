//! The words of builders.

use crate::Action::{self, Call, Make};
use crate::{CallForm as On, Making, OnBuilder};
use build_base::Finish;

/// The words of a builder that takes elements.
pub const ONE_BUILDERS: [(&[u8], Action); 1] = [(b"add", Call(On::Build(OnBuilder::AddOne)))];

/// The words of a builder that takes elements with counts.
pub const COUNTED_BUILDERS: [(&[u8], Action); 2] = [
    (b"add", Call(On::Build(OnBuilder::AddOne))),
    (b"addCopies", Call(On::Build(OnBuilder::AddCopies))),
];

/// The words of a builder that takes keys and values.
pub const ENTRY_BUILDERS: [(&[u8], Action); 1] = [(b"put", Call(On::Build(OnBuilder::PutEntry)))];

/// The words of a builder that takes cells.
pub const CELL_BUILDERS: [(&[u8], Action); 1] = [(b"put", Call(On::Build(OnBuilder::PutCell)))];

/// The words of a builder that takes ranges.
pub const SPAN_BUILDERS: [(&[u8], Action); 1] = [(b"add", Call(On::Build(OnBuilder::AddSpan)))];

/// The words of a builder that takes ranges with values.
pub const SPAN_VALUE_BUILDERS: [(&[u8], Action); 1] = [(
    b"put",
    Call(On::Build(OnBuilder::PutSpan)),
)];

/// The words of a builder that builds in one way alone.
pub const BUILT: [(&[u8], Action); 1] = [(b"build", Make(Making::Build(Finish::Plain)))];

/// The words of a builder that refuses what was added twice.
pub const BUILT_OR_THROWN: [(&[u8], Action); 1] = [(
    b"buildOrThrow",
    Make(Making::Build(Finish::OrThrow)),
)];

/// The words of a builder that may keep what was added last.
pub const BUILT_KEEPING_LAST: [(&[u8], Action); 1] = [(
    b"buildKeepingLast",
    Make(Making::Build(Finish::KeepingLast)),
)];
