//! The readers of predicates and functions.
ghost use Rattle.std.specs.Prelude.{◌≡◌, ◌↔◌, ◌<◌, ◌≤◌, length, Ok, Err};
ghost use Rattle.fn_lang.specs.Grammar.{IsPredText, IsPairText, IsFuncText};
ghost use Rattle.fn_lang.specs.Reading.{reading, with_parts};
ghost use Rattle.fn_lang.specs.declared.faults.FnFault.TheVariants.{NotGrammar, TooLarge};
ghost use Rattle.fn_lang.specs.declared.names.Sort.TheVariants as sorts;
ghost use Rattle.fn_lang.specs.Trees.{PredTree, PairTree, FuncTree, pred_parts, pair_parts, func_parts};

use crate::faults::FnFault;
use crate::names::Sort;
use crate::reading::read_parts;
use crate::values::{Func, PairPred, Pred};

fn pred_of(text: &[u8]) -> Result<Pred, FnFault>
    requires { length text.now ≤ 1024 }
    ensures { with_parts pred_parts result ≡ reading sorts.Pred text.now }
{
    match read_parts(text, Sort::Pred) {
        Ok(parts) => Ok(Pred::of_parts(parts)),
        Err(fault) => Err(fault),
    }
}

fn pair_pred_of(text: &[u8]) -> Result<PairPred, FnFault>
    requires { length text.now ≤ 1024 }
    ensures { with_parts pair_parts result ≡ reading sorts.PairPred text.now }
{
    match read_parts(text, Sort::PairPred) {
        Ok(parts) => Ok(PairPred::of_parts(parts)),
        Err(fault) => Err(fault),
    }
}

fn func_of(text: &[u8]) -> Result<Func, FnFault>
    requires { length text.now ≤ 1024 }
    ensures { with_parts func_parts result ≡ reading sorts.Func text.now }
{
    match read_parts(text, Sort::Func) {
        Ok(parts) => Ok(Func::of_parts(parts)),
        Err(fault) => Err(fault),
    }
}

/// The predicate that a text is, with any spaces between its tokens and none at its two ends. It takes no memory.
///
/// A name with nothing in its brackets may stand without them. The fault is `NotGrammar` exactly where the text is not
/// in the language, and `TooLarge` exactly where it is and has more than 64 parts. No text has two readings.
pub fn read_pred(text: &[u8]) -> Result<Pred, FnFault>
    requires { length text.now ≤ 1024 }
    ensures exact { with_parts pred_parts result ≡ reading sorts.Pred text.now }
    ensures found { (tree : PredTree) → (result ≡ Ok tree) ↔ (IsPredText text.now tree × (length (pred_parts tree) ≤ 64)) }
    ensures too_large { (result ≡ Err TooLarge) ↔ ((tree : PredTree) × IsPredText text.now tree × (64 < length (pred_parts tree))) }
    ensures not_grammar { (result ≡ Err NotGrammar) ↔ ((tree : PredTree) → IsPredText text.now tree → ⊥) }
    ensures one { (a b : PredTree) → IsPredText text.now a → IsPredText text.now b → a ≡ b }
{
    pred_of(text)
}

/// The predicate on pairs that a text is, with any spaces between its tokens and none at its two ends. It takes no memory.
///
/// A name with nothing in its brackets may stand without them. The fault is `NotGrammar` exactly where the text is not
/// in the language, and `TooLarge` exactly where it is and has more than 64 parts. No text has two readings.
pub fn read_pair_pred(text: &[u8]) -> Result<PairPred, FnFault>
    requires { length text.now ≤ 1024 }
    ensures exact { with_parts pair_parts result ≡ reading sorts.PairPred text.now }
    ensures found { (tree : PairTree) → (result ≡ Ok tree) ↔ (IsPairText text.now tree × (length (pair_parts tree) ≤ 64)) }
    ensures too_large { (result ≡ Err TooLarge) ↔ ((tree : PairTree) × IsPairText text.now tree × (64 < length (pair_parts tree))) }
    ensures not_grammar { (result ≡ Err NotGrammar) ↔ ((tree : PairTree) → IsPairText text.now tree → ⊥) }
    ensures one { (a b : PairTree) → IsPairText text.now a → IsPairText text.now b → a ≡ b }
{
    pair_pred_of(text)
}

/// The function that a text is, with any spaces between its tokens and none at its two ends. It takes no memory.
///
/// A name with nothing in its brackets may stand without them. The fault is `NotGrammar` exactly where the text is not
/// in the language, and `TooLarge` exactly where it is and has more than 64 parts. No text has two readings.
pub fn read_func(text: &[u8]) -> Result<Func, FnFault>
    requires { length text.now ≤ 1024 }
    ensures exact { with_parts func_parts result ≡ reading sorts.Func text.now }
    ensures found { (tree : FuncTree) → (result ≡ Ok tree) ↔ (IsFuncText text.now tree × (length (func_parts tree) ≤ 64)) }
    ensures too_large { (result ≡ Err TooLarge) ↔ ((tree : FuncTree) × IsFuncText text.now tree × (64 < length (func_parts tree))) }
    ensures not_grammar { (result ≡ Err NotGrammar) ↔ ((tree : FuncTree) → IsFuncText text.now tree → ⊥) }
    ensures one { (a b : FuncTree) → IsFuncText text.now a → IsFuncText text.now b → a ≡ b }
{
    func_of(text)
}
