//! What calls ask of their receivers.
ghost use Rattle.std.specs.Prelude.{◌≡◌};
ghost use Rattle.vocabulary.specs.Needs as spec;

use crate::{
    Ask, Call, Needs, OnCounted, OnElement, OnIndex, OnOther, OnPair, OnSpan, OnSpanValue,
    OnTriple, OnValues,
};

/// What a call asks of its receiver.
pub fn needs_of(call: &Call) -> Needs
    ensures { result ≡ spec.needs_of call.now }
{
    match call {
        Call::Element(OnElement::Add | OnElement::AddNode, _)
        | Call::Indexed(_, _, _)
        | Call::Counted(OnCounted::AddSome, _, _)
        | Call::Pair(OnPair::Put | OnPair::ForcePut | OnPair::PutPair, _, _)
        | Call::Triple(OnTriple::PutCell | OnTriple::PutEdge, _, _, _)
        | Call::Span(OnSpan::AddSpan, _)
        | Call::SpanValue(OnSpanValue::PutSpan | OnSpanValue::PutCoalescing, _, _) => Needs::Add,
        Call::Ask(Ask::Clear)
        | Call::Element(
            OnElement::Remove
            | OnElement::RemoveKey
            | OnElement::RemoveGroup
            | OnElement::RemoveValues
            | OnElement::RemoveNode,
            _,
        )
        | Call::Index(OnIndex::RemoveAt, _)
        | Call::Counted(
            OnCounted::RemoveSome | OnCounted::SetCount | OnCounted::RemoveCounted,
            _,
            _,
        )
        | Call::Pair(
            OnPair::RemoveEntry | OnPair::RemoveAtCell | OnPair::RemoveEdge | OnPair::RemoveEnds,
            _,
            _,
        )
        | Call::Triple(OnTriple::RemoveCell, _, _, _)
        | Call::Span(OnSpan::RemoveSpan | OnSpan::DropSpan, _)
        | Call::SpanValue(OnSpanValue::DropSpanValue, _, _) => Needs::Remove,
        _ => Needs::Nothing,
    }
}

/// What a call with another view asks of its receiver.
pub fn needs_with(word: OnOther) -> Needs
    ensures { result ≡ spec.needs_with word }
{
    match word {
        OnOther::ContainsAll | OnOther::Equals => Needs::Nothing,
        OnOther::AddAll | OnOther::PutAll | OnOther::AddSpans => Needs::Add,
        OnOther::RemoveAll | OnOther::RetainAll | OnOther::RemoveSpans => Needs::Remove,
    }
}

/// What a call with a key and another view asks of its receiver.
pub fn needs_for(word: OnValues) -> Needs
    ensures { result ≡ spec.needs_for word }
{
    match word {
        OnValues::PutValues => Needs::Add,
        OnValues::ReplaceValues => Needs::AddAndRemove,
    }
}
