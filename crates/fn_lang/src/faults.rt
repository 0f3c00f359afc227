use thiserror::Error;

/// Why a text gives no predicate or function.
#[derive(Clone, Copy, Debug, PartialEq, Eq, Drop, Error)]
pub enum FnFault {
    /// The text is not in the language.
    #[error("no predicate or function")]
    NotGrammar,
    /// It has more than 64 parts.
    #[error("more than 64 parts")]
    TooLarge,
}
