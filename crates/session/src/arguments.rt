//! Reading the texts of arguments.
ghost use Rattle.std.specs.Prelude.{◌≡◌, ◌≤◌, true, length, is_some};
ghost use Rattle.machine.specs.Arguments as spec;
ghost use Rattle.session.specs.Following.{asked};
ghost use Rattle.vocabulary.specs.Known.{is_known_step};
ghost use Rattle.vocabulary.specs.declared.steps.ChangeStep.{ChangeStep};
ghost use Rattle.vocabulary.specs.declared.steps.FilterStep.{FilterStep};
ghost use Rattle.vocabulary.specs.declared.steps.StepForm.TheVariants as form;

use elem::{SpanFault, Word, read_number, read_span};
use fn_lang::{FnFault, read_func, read_pair_pred, read_pred};
use script_text::is_name;
use vocabulary::StepForm;

/// The index that a text is: a number of 32 bits. One below zero is the index of nothing.
pub fn read_index(text: &[u8]) -> Option<Option<usize>>
    ensures { result ≡ spec.index_in text.now }
{
    index_of(read_number(text)?)
}

fn index_of(number: i64) -> Option<Option<usize>>
    ensures { result ≡ spec.index_of number }
{
    if number < -0x8000_0000 || number > 0x7FFF_FFFF {
        return None;
    }
    if number < 0 {
        Some(None)
    } else {
        Some(Some(number as usize))
    }
}

/// The name that a text is.
pub fn read_name(text: &[u8]) -> Option<Word>
    ensures { result ≡ spec.name_in text.now }
{
    let word = Word::new(text)?;
    if is_name(&word) { Some(word) } else { None }
}

/// Whether a text fits the argument of a known step.
pub fn fits_step(form: StepForm, text: &[u8]) -> bool
    requires known { is_known_step form ≡ true }
    requires short { length text.now ≤ 1024 }
    ensures { result ≡ is_some (asked form text.now) }
{
    match form {
        StepForm::Plain(_) => true,
        StepForm::Filter(_) => is_pred(text),
        StepForm::FilterPairs => is_pair_pred(text),
        StepForm::Change(_) => is_func(text),
        StepForm::Within => is_range(text),
        _ => false,
    }
}

// What is read is large, and ends here: each of these has a frame of its own, which a plain step does not pay for.

#[inline(never)]
fn is_pred(text: &[u8]) -> bool
    requires { length text.now ≤ 1024 }
    ensures { (word : FilterStep) → result ≡ is_some (asked (form.Filter word) text.now) }
{
    !matches!(read_pred(text), Err(FnFault::NotGrammar))
}

#[inline(never)]
fn is_pair_pred(text: &[u8]) -> bool
    requires { length text.now ≤ 1024 }
    ensures { result ≡ is_some (asked form.FilterPairs text.now) }
{
    !matches!(read_pair_pred(text), Err(FnFault::NotGrammar))
}

#[inline(never)]
fn is_func(text: &[u8]) -> bool
    requires { length text.now ≤ 1024 }
    ensures { (word : ChangeStep) → result ≡ is_some (asked (form.Change word) text.now) }
{
    !matches!(read_func(text), Err(FnFault::NotGrammar))
}

fn is_range(text: &[u8]) -> bool
    ensures { result ≡ is_some (asked form.Within text.now) }
{
    !matches!(read_span(text), Err(SpanFault::NotGrammar))
}
