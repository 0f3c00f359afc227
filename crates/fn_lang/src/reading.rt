//! The reader of predicates and functions.
ghost use Rattle.std.specs.Prelude.{◌≡◌, ◌≤◌, ◌+◌, ◌++◌, [], ◌∷◌, List, length, take, MatchOption, None, Some, option_to_list, false};
ghost use Rattle.fn_lang.specs.Reading.{parse_all, reading};
ghost use Rattle.fn_lang.specs.Grammar.{is_padded};
ghost use Rattle.std.specs.Prelude.{IfOk, MatchResult, Ok, Err};
ghost use Rattle.fn_lang.specs.Flat.{IsSort};
ghost use Rattle.elem.specs.Lexing.{lexed};
ghost use Rattle.fn_lang.specs.declared.steps.Want.TheVariants.{Tree};
ghost use Rattle.fn_lang.specs.declared.parts.Part.{Part as AnyPart};

use crate::faults::FnFault;
use crate::names::Sort;
use crate::parts::Part;
use crate::steps::{Want, is_open, step_of};
use arrayvec::ArrayVec;
use elem::{Ahead, next_lexeme};

/// The most parts of a value.
const MOST_PARTS: usize = 64;

/// Puts what a token wants on the stack.
fn put_wants(stack: &mut ArrayVec<Want, 1032>, next: Option<Want>, later: Option<Want>)
    requires { length stack.old.items + 2 ≤ 1032 }
    ensures { stack.new.items ≡ stack.old.items ++ (option_to_list later ++ option_to_list next) }
{
    if let Some(want) = later {
        stack.push(want);
    }
    if let Some(want) = next {
        stack.push(want);
    }
}

/// Keeps an item where it is one of the first 64, and counts it.
fn keep<T: Copy>(items: &mut ArrayVec<T, 64>, item: &Option<T>) -> usize
    ensures items { (found : List T) → items.old.items ≡ take 64 found → items.new.items ≡ take 64 (found ++ option_to_list item.now) }
    ensures count { result ≡ length (option_to_list item.now) }
{
    match item {
        Some(item) => {
            if !items.is_full() {
                items.push(*item);
            }
            1
        }
        None => 0,
    }
}

/// The first 64 parts that the tokens of a text are, and their number.
fn read_tokens(text: &[u8], sort: Sort) -> Option<(ArrayVec<Part, 64>, usize)>
    requires { length text.now ≤ 1024 }
    ensures { MatchOption result (parse_all false (Tree sort ∷ []) (lexed text.now) ≡ None) (λ r. (ps : List AnyPart) × (parse_all false (Tree sort ∷ []) (lexed text.now) ≡ Some ps) × (r.0.items ≡ take 64 ps) × (r.1 ≡ length ps)) }
{
    let mut parts = ArrayVec::new();
    let mut count: usize = 0;
    let mut stack = ArrayVec::new();
    stack.push(Want::Tree(sort));
    let mut bare = false;
    let mut at = 0;
    loop {
        let token = match next_lexeme(text, at) {
            Ahead::Nothing => break,
            Ahead::Fault => return None,
            Ahead::Next(token) => token,
        };
        let kind = token.token;
        if bare && is_open(&kind) {
            stack.push(Want::Close);
            bare = false;
        } else {
            let want = stack.pop()?;
            let step = step_of(want, &kind)?;
            put_wants(&mut stack, step.next, step.later);
            count += keep(&mut parts, &step.part);
            bare = step.bare;
        }
        at = token.end;
    }
    if stack.is_empty() {
        Some((parts, count))
    } else {
        None
    }
}

fn is_padded(text: &[u8]) -> bool
    ensures { result ≡ is_padded text.now }
{
    !text.is_empty() && (text[0] == b' ' || text[text.len() - 1] == b' ')
}

/// The parts of a text.
#[tactic(auto, unfolding(crate::specs::Reading::parts_of))]
pub fn read_parts(text: &[u8], sort: Sort) -> Result<ArrayVec<Part, 64>, FnFault>
    requires { length text.now ≤ 1024 }
    ensures exact { MatchResult result (λ v. reading sort text.now ≡ Ok v.items) (λ e. reading sort text.now ≡ Err e) }
    ensures tree { IfOk result (λ v. IsSort sort v.items) }
{
    if is_padded(text) {
        return Err(FnFault::NotGrammar);
    }
    let Some((parts, count)) = read_tokens(text, sort) else {
        return Err(FnFault::NotGrammar);
    };
    if count > MOST_PARTS {
        return Err(FnFault::TooLarge);
    }
    Ok(parts)
}
