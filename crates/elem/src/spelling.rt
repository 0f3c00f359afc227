//! Reading and writing the one spelling of an element.
ghost use Rattle.std.specs.Prelude.{FitsSigned, ◌≡◌, ◌≢◌, ◌≤◌, ℤ, length, IfSome, IfNone, Some};
ghost use Rattle.std.specs.Fmt.{signed_decimal};
ghost use Rattle.std.specs.Int.{w64};
ghost use Rattle.elem.specs.Elements.{IsElem};
ghost use Rattle.elem.specs.Spelling.{spelling, elem_of, number_of};
ghost use Rattle.elem.specs.declared.elements.Elem.{Elem as Element};

use crate::{Elem, Word};
use arrayvec::ArrayVec;
use itoa::Buffer;
use std::str;

/// The element that the text spells, where it spells one.
///
/// A number has no leading zero and is not `-0`; everything else that is no word spells nothing.
pub fn read_elem(text: &[u8]) -> Option<Elem>
    ensures exact { result ≡ elem_of text.now }
    ensures found { IfSome result (λ e. IsElem e × (text.now ≡ spelling e)) }
    ensures none { IfNone result ((e : Element) → IsElem e → text.now ≢ spelling e) }
    ensures only { (e : Element) → IsElem e → text.now ≡ spelling e → result ≡ Some e }
{
    spelled_elem(text)
}

fn spelled_elem(text: &[u8]) -> Option<Elem>
    ensures exact { result ≡ elem_of text.now }
    ensures found { IfSome result (λ e. IsElem e × (text.now ≡ spelling e)) }
    ensures none { IfNone result ((e : Element) → IsElem e → text.now ≢ spelling e) }
{
    match Word::new(text) {
        Some(word) => Some(Elem::Text(word)),
        None => Some(Elem::Int(read_number(text)?)),
    }
}

/// The number whose decimal spelling is the text: it prints as it was read.
pub fn read_number(text: &[u8]) -> Option<i64>
    ensures exact { result ≡ number_of text.now }
    ensures found { IfSome result (λ n. FitsSigned w64 n × (text.now ≡ signed_decimal n)) }
    ensures none { IfNone result ((n : ℤ) → FitsSigned w64 n → text.now ≢ signed_decimal n) }
{
    let number: i64 = str::from_utf8(text).ok()?.parse().ok()?;
    let mut digits = Buffer::new();
    if digits.format(number).as_bytes() == text {
        Some(number)
    } else {
        None
    }
}

/// The one spelling of an element. It takes no memory.
pub fn write_elem(e: Elem) -> ArrayVec<u8, 24>
    ensures { result.items ≡ spelling e }
{
    let mut digits = Buffer::new();
    match &e {
        Elem::Int(number) => short_text(digits.format(*number).as_bytes()),
        Elem::Text(word) => short_text(word.bytes()),
    }
}

fn short_text(bytes: &[u8]) -> ArrayVec<u8, 24>
    requires { length bytes.now ≤ 24 }
    ensures { result.items ≡ bytes.now }
{
    let mut text = ArrayVec::new();
    let _ = text.try_extend_from_slice(bytes);
    text
}

/// The number of bytes of the one spelling of an element.
pub(crate) fn text_length(e: &Elem) -> usize
    ensures { result ≡ length (spelling e.now) }
{
    let mut digits = Buffer::new();
    match e {
        Elem::Int(number) => digits.format(*number).len(),
        Elem::Text(word) => word.bytes().len(),
    }
}
