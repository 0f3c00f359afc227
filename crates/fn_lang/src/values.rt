//! Predicates and functions as they were read.
ghost use Rattle.std.specs.Prelude.{◌≡◌, ◌≤◌, length};
ghost use Rattle.fn_lang.specs.Flat.{IsPred, IsPairPred, IsFunc};
ghost use Rattle.fn_lang.specs.Trees.{pred_parts, pair_parts, func_parts};

use crate::lent::{FuncRef, PairPredRef, PredRef};
use crate::parts::Part;
use arrayvec::ArrayVec;
use std::marker::Model;

/// A predicate of at most 64 parts. Contracts see its tree.
#[derive(Debug, Drop)]
pub struct Pred {
    parts: ArrayVec<Part, 64>,
}

/// A predicate on pairs of a key and a value of at most 64 parts. Contracts see its tree.
#[derive(Debug, Drop)]
pub struct PairPred {
    parts: ArrayVec<Part, 64>,
}

/// A function of at most 64 parts. Contracts see its tree.
#[derive(Debug, Drop)]
pub struct Func {
    parts: ArrayVec<Part, 64>,
}

impl Model for Pred {
    ghost use Rattle.std.specs.Prelude.{◌≤◌, length};
    ghost use Rattle.fn_lang.specs.Trees.{PredTree};
    ghost use Rattle.fn_lang.specs.PartTrees.{pred_of, pred_code};

    ghost Value = { PredTree };

    ghost coded = { pred_code };

    ghost use Rattle.fn_lang.specs.Flat.{IsPred};

    ghost view = { λ p. pred_of p.parts.items };

    ghost invariant = { λ p. IsPred p.parts.items × (length p.parts.items ≤ 64) };
}

impl Model for PairPred {
    ghost use Rattle.std.specs.Prelude.{◌≤◌, length};
    ghost use Rattle.fn_lang.specs.Trees.{PairTree};
    ghost use Rattle.fn_lang.specs.PartTrees.{pair_of, pair_code};

    ghost Value = { PairTree };

    ghost coded = { pair_code };

    ghost use Rattle.fn_lang.specs.Flat.{IsPairPred};

    ghost view = { λ p. pair_of p.parts.items };

    ghost invariant = { λ p. IsPairPred p.parts.items × (length p.parts.items ≤ 64) };
}

impl Model for Func {
    ghost use Rattle.std.specs.Prelude.{◌≤◌, length};
    ghost use Rattle.fn_lang.specs.Trees.{FuncTree};
    ghost use Rattle.fn_lang.specs.PartTrees.{func_of, func_code};

    ghost Value = { FuncTree };

    ghost coded = { func_code };

    ghost use Rattle.fn_lang.specs.Flat.{IsFunc};

    ghost view = { λ p. func_of p.parts.items };

    ghost invariant = { λ p. IsFunc p.parts.items × (length p.parts.items ≤ 64) };
}

impl Pred {
    /// The value with these parts.
    pub(crate) fn of_parts(parts: ArrayVec<Part, 64>) -> Pred
        requires { IsPred parts.items }
        ensures { pred_parts result ≡ parts.items }
    {
        let _len = parts.as_slice().len();
        Pred { parts }
    }

    /// The same, by reference.
    pub fn lend(&self) -> PredRef<'_>
        ensures { result ≡ self.now }
    {
        PredRef::of_parts(self.parts.as_slice())
    }
}

impl PairPred {
    /// The value with these parts.
    pub(crate) fn of_parts(parts: ArrayVec<Part, 64>) -> PairPred
        requires { IsPairPred parts.items }
        ensures { pair_parts result ≡ parts.items }
    {
        let _len = parts.as_slice().len();
        PairPred { parts }
    }

    /// The same, by reference.
    pub fn lend(&self) -> PairPredRef<'_>
        ensures { result ≡ self.now }
    {
        PairPredRef::of_parts(self.parts.as_slice())
    }
}

impl Func {
    /// The value with these parts.
    pub(crate) fn of_parts(parts: ArrayVec<Part, 64>) -> Func
        requires { IsFunc parts.items }
        ensures { func_parts result ≡ parts.items }
    {
        let _len = parts.as_slice().len();
        Func { parts }
    }

    /// The same, by reference.
    pub fn lend(&self) -> FuncRef<'_>
        ensures { result ≡ self.now }
    {
        FuncRef::of_parts(self.parts.as_slice())
    }
}
