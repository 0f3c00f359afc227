//! The part of the language whose code stands: its kinds and its words. All else is refused as a word that is not there.
ghost use Rattle.std.specs.Prelude.{◌≡◌};
ghost use Rattle.vocabulary.specs.Known as spec;

use crate::{Action, Ask, CallForm, Kind, OnElement, OnOther, OnPair, PlainStep, StepForm};

/// Whether bases of a kind can be made: lists, sets, maps and bimaps.
pub fn is_known_kind(kind: Kind) -> bool
    ensures { result ≡ spec.is_known_kind kind }
{
    matches!(
        kind,
        Kind::ArrayList
            | Kind::LinkedHashSet
            | Kind::TreeSet
            | Kind::TreeSetReverse
            | Kind::TreeSetLength
            | Kind::LinkedHashMap
            | Kind::TreeMap
            | Kind::TreeMapReverse
            | Kind::TreeMapLength
            | Kind::HashBiMap
    )
}

/// Whether a word that a view has can be carried out.
pub fn is_known(action: Action) -> bool
    ensures { result ≡ spec.is_known action }
{
    match action {
        Action::Step(form) => is_known_step(form),
        Action::Call(form) => is_known_call(form),
        Action::Make(_) => false,
    }
}

/// Whether the step can be made: one over one view, which goes row by row.
pub fn is_known_step(form: StepForm) -> bool
    ensures { result ≡ spec.is_known_step form }
{
    match form {
        StepForm::Plain(word) => matches!(
            word,
            PlainStep::Reverse
                | PlainStep::KeySet
                | PlainStep::Values
                | PlainStep::EntrySet
                | PlainStep::Descending
                | PlainStep::Inverse
                | PlainStep::Unmodifiable
        ),
        StepForm::Filter(_) | StepForm::FilterPairs | StepForm::Change(_) | StepForm::Within =>
            true,
        _ => false,
    }
}

/// Whether the call can be made: one on the views of lists, sets, maps and bimaps.
pub fn is_known_call(form: CallForm) -> bool
    ensures { result ≡ spec.is_known_call form }
{
    match form {
        CallForm::Ask(word) => is_known_ask(word),
        CallForm::Element(word) => is_known_element(word),
        CallForm::Index(_) | CallForm::Indexed(_) => true,
        CallForm::Pair(word) => matches!(
            word,
            OnPair::Put | OnPair::ForcePut | OnPair::ContainsEntry | OnPair::RemoveEntry
        ),
        CallForm::Other(word) => is_known_other(word),
        _ => false,
    }
}

fn is_known_ask(word: Ask) -> bool
    ensures { result ≡ spec.is_known_ask word }
{
    !matches!(word, Ask::FirstEntry | Ask::LastEntry | Ask::SpanOf)
}

fn is_known_element(word: OnElement) -> bool
    ensures { result ≡ spec.is_known_element word }
{
    matches!(
        word,
        OnElement::Contains
            | OnElement::Add
            | OnElement::Remove
            | OnElement::IndexOf
            | OnElement::ValueOf
            | OnElement::ContainsKey
            | OnElement::ContainsValue
            | OnElement::RemoveKey
    )
}

fn is_known_other(word: OnOther) -> bool
    ensures { result ≡ spec.is_known_other word }
{
    matches!(
        word,
        OnOther::ContainsAll
            | OnOther::AddAll
            | OnOther::RemoveAll
            | OnOther::RetainAll
            | OnOther::PutAll
            | OnOther::Equals
    )
}
