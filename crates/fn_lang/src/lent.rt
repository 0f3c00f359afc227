//! Predicates and functions by reference to their parts.
ghost use Rattle.std.specs.Prelude.{◌≡◌, ◌≤◌, length};
ghost use Rattle.fn_lang.specs.Flat.{IsPred, IsPairPred, IsFunc};
ghost use Rattle.fn_lang.specs.PartTrees.{pred_of, pair_of, func_of};
ghost use Rattle.fn_lang.specs.Trees.{pred_parts, pair_parts, func_parts};
ghost use Rattle.fn_lang.specs.Meaning.{pred_holds, pair_holds, func_value};

use crate::eval::{apply, holds, pair_holds};
use crate::parts::Part;
use elem::Elem;
use std::marker::Model;

/// A predicate whose parts stand elsewhere. Contracts see its tree.
#[derive(Debug, Drop)]
pub struct PredRef<'a> {
    parts: &'a [Part],
}

/// A predicate on pairs of a key and a value whose parts stand elsewhere. Contracts see its tree.
#[derive(Debug, Drop)]
pub struct PairPredRef<'a> {
    parts: &'a [Part],
}

/// A function whose parts stand elsewhere. Contracts see its tree.
#[derive(Debug, Drop)]
pub struct FuncRef<'a> {
    parts: &'a [Part],
}

impl<'a> Model for PredRef<'a> {
    ghost use Rattle.std.specs.Prelude.{◌≤◌, length};
    ghost use Rattle.fn_lang.specs.Trees.{PredTree};
    ghost use Rattle.fn_lang.specs.PartTrees.{pred_of, pred_code};

    ghost Value = { PredTree };

    ghost coded = { pred_code };

    ghost use Rattle.fn_lang.specs.Flat.{IsPred};

    ghost view = { λ p. pred_of p.parts.now };

    ghost invariant = { λ p. IsPred p.parts.now × (length p.parts.now ≤ 64) };
}

impl<'a> Model for PairPredRef<'a> {
    ghost use Rattle.std.specs.Prelude.{◌≤◌, length};
    ghost use Rattle.fn_lang.specs.Trees.{PairTree};
    ghost use Rattle.fn_lang.specs.PartTrees.{pair_of, pair_code};

    ghost Value = { PairTree };

    ghost coded = { pair_code };

    ghost use Rattle.fn_lang.specs.Flat.{IsPairPred};

    ghost view = { λ p. pair_of p.parts.now };

    ghost invariant = { λ p. IsPairPred p.parts.now × (length p.parts.now ≤ 64) };
}

impl<'a> Model for FuncRef<'a> {
    ghost use Rattle.std.specs.Prelude.{◌≤◌, length};
    ghost use Rattle.fn_lang.specs.Trees.{FuncTree};
    ghost use Rattle.fn_lang.specs.PartTrees.{func_of, func_code};

    ghost Value = { FuncTree };

    ghost coded = { func_code };

    ghost use Rattle.fn_lang.specs.Flat.{IsFunc};

    ghost view = { λ p. func_of p.parts.now };

    ghost invariant = { λ p. IsFunc p.parts.now × (length p.parts.now ≤ 64) };
}

impl<'a> PredRef<'a> {
    /// The value that these parts are.
    pub fn of_parts(parts: &'a [Part]) -> PredRef<'a>
        requires tree { IsPred parts.now }
        requires fits { length parts.now ≤ 64 }
        ensures value { result ≡ pred_of parts.now }
    {
        PredRef { parts }
    }

    /// The parts, each name before what stands in its brackets.
    pub fn parts(&self) -> &'a [Part]
        ensures parts { result.now ≡ pred_parts self.now }
        ensures few { length result.now ≤ 64 }
    {
        self.parts
    }

    /// Whether the predicate holds for an element.
    pub fn eval(&self, x: Elem) -> bool
        ensures { result ≡ pred_holds self.now x }
    {
        let (truth, _) = holds(self.parts, x);
        truth
    }
}

impl<'a> PairPredRef<'a> {
    /// The value that these parts are.
    pub fn of_parts(parts: &'a [Part]) -> PairPredRef<'a>
        requires tree { IsPairPred parts.now }
        requires fits { length parts.now ≤ 64 }
        ensures value { result ≡ pair_of parts.now }
    {
        PairPredRef { parts }
    }

    /// The parts, each name before what stands in its brackets.
    pub fn parts(&self) -> &'a [Part]
        ensures parts { result.now ≡ pair_parts self.now }
        ensures few { length result.now ≤ 64 }
    {
        self.parts
    }

    /// Whether the predicate holds for a key and a value.
    pub fn eval(&self, k: Elem, v: Elem) -> bool
        ensures { result ≡ pair_holds self.now k v }
    {
        let (truth, _) = pair_holds(self.parts, k, v);
        truth
    }
}

impl<'a> FuncRef<'a> {
    /// The value that these parts are.
    pub fn of_parts(parts: &'a [Part]) -> FuncRef<'a>
        requires tree { IsFunc parts.now }
        requires fits { length parts.now ≤ 64 }
        ensures value { result ≡ func_of parts.now }
    {
        FuncRef { parts }
    }

    /// The parts, each name before what stands in its brackets.
    pub fn parts(&self) -> &'a [Part]
        ensures parts { result.now ≡ func_parts self.now }
        ensures few { length result.now ≤ 64 }
    {
        self.parts
    }

    /// The value of the function for an element.
    pub fn eval(&self, x: Elem) -> Elem
        ensures { result ≡ func_value self.now x }
    {
        let (value, _) = apply(self.parts, x);
        value
    }
}
