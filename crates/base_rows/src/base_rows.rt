//! The rows of a base, in the type of its kind.
ghost use Rattle.std.specs.Prelude.{◌≡◌, [], length, true, IfOk};
ghost use Rattle.base_rows.specs.BaseRows.{kind_of, plain, rows_of, AreRowsOf};
ghost use Rattle.base_rows.specs.BaseSpots.{HasKeys};
ghost use Rattle.vocabulary.specs.Kinds.{shape_of_kind};
ghost use Rattle.vocabulary.specs.Known.{is_known_kind};
ghost use Rattle.vocabulary.specs.Shapes.{is_keyed};

mod dropping;
mod found_rows;
mod placing;
mod reading;

use bimap_base::PairRows;
use elem::{ByLength, Elem, Keyed, NoMemory, Reverse};
use hash_seed::Seed;
use linked_base::{LinkedMap, LinkedSet};
use plain_base::{ArrayRows, TreeMapRows, TreeSetRows};
use std::alloc::Global;
use vocabulary::Kind;

/// The rows of a base.
#[derive(Drop)]
pub enum BaseRows {
    ArrayList(ArrayRows),
    LinkedHashSet(LinkedSet),
    TreeSet(TreeSetRows),
    TreeSetReverse(TreeSetRows<Reverse>),
    TreeSetLength(TreeSetRows<ByLength>),
    LinkedHashMap(LinkedMap<Elem>),
    TreeMap(TreeMapRows<Elem>),
    TreeMapReverse(TreeMapRows<Elem, Reverse>),
    TreeMapLength(TreeMapRows<Elem, ByLength>),
    HashBiMap(PairRows),
}

impl BaseRows {
    /// No rows, of a known kind, under the fixed seed.
    pub fn new(alloc: Global, kind: Kind) -> Result<BaseRows, NoMemory>
        requires known { is_known_kind kind ≡ true }
        ensures rows { IfOk result (λ base. rows_of base ≡ []) }
        ensures kind { IfOk result (λ base. kind_of base ≡ kind) }
    {
        BaseRows::with_hasher(alloc, Seed::fixed(), kind)
    }

    /// No rows, of a known kind. What is hashed is hashed by the seed.
    pub fn with_hasher(alloc: Global, seed: Seed, kind: Kind) -> Result<BaseRows, NoMemory>
        requires known { is_known_kind kind ≡ true }
        ensures rows { IfOk result (λ base. rows_of base ≡ []) }
        ensures kind { IfOk result (λ base. kind_of base ≡ kind) }
    {
        match kind {
            Kind::ArrayList => Ok(BaseRows::ArrayList(ArrayRows::new(alloc))),
            Kind::LinkedHashSet => Ok(BaseRows::LinkedHashSet(LinkedMap::with_hasher(
                alloc, seed,
            )?)),
            Kind::TreeSet => Ok(BaseRows::TreeSet(TreeMapRows::new(alloc))),
            Kind::TreeSetReverse => Ok(BaseRows::TreeSetReverse(TreeMapRows::new(alloc))),
            Kind::TreeSetLength => Ok(BaseRows::TreeSetLength(TreeMapRows::new(alloc))),
            Kind::LinkedHashMap => Ok(BaseRows::LinkedHashMap(LinkedMap::with_hasher(
                alloc, seed,
            )?)),
            Kind::TreeMap => Ok(BaseRows::TreeMap(TreeMapRows::new(alloc))),
            Kind::TreeMapReverse => Ok(BaseRows::TreeMapReverse(TreeMapRows::new(alloc))),
            Kind::TreeMapLength => Ok(BaseRows::TreeMapLength(TreeMapRows::new(alloc))),
            Kind::HashBiMap => Ok(BaseRows::HashBiMap(PairRows::with_hasher(alloc, seed)?)),
            _ => unreachable!(),
        }
    }

    /// The kind.
    pub fn kind(&self) -> Kind
        ensures { result ≡ kind_of self.now }
    {
        match self {
            BaseRows::ArrayList(_) => Kind::ArrayList,
            BaseRows::LinkedHashSet(_) => Kind::LinkedHashSet,
            BaseRows::TreeSet(_) => Kind::TreeSet,
            BaseRows::TreeSetReverse(_) => Kind::TreeSetReverse,
            BaseRows::TreeSetLength(_) => Kind::TreeSetLength,
            BaseRows::LinkedHashMap(_) => Kind::LinkedHashMap,
            BaseRows::TreeMap(_) => Kind::TreeMap,
            BaseRows::TreeMapReverse(_) => Kind::TreeMapReverse,
            BaseRows::TreeMapLength(_) => Kind::TreeMapLength,
            BaseRows::HashBiMap(_) => Kind::HashBiMap,
        }
    }

    /// How many rows there are.
    #[tactic(auto, using(crate::proofs::KeyedRows::has_keys, crate::proofs::KeyedRows::has_keys_alone))]
    pub fn len(&self) -> usize
        ensures len { result ≡ length (rows_of self.now) }
        ensures keys { HasKeys (plain self.now) }
    {
        match self {
            BaseRows::ArrayList(rows) => rows.len(),
            BaseRows::LinkedHashSet(rows) => rows.len(),
            BaseRows::TreeSet(rows) => rows.len(),
            BaseRows::TreeSetReverse(rows) => rows.len(),
            BaseRows::TreeSetLength(rows) => rows.len(),
            BaseRows::LinkedHashMap(rows) => rows.len(),
            BaseRows::TreeMap(rows) => rows.len(),
            BaseRows::TreeMapReverse(rows) => rows.len(),
            BaseRows::TreeMapLength(rows) => rows.len(),
            BaseRows::HashBiMap(rows) => rows.len(),
        }
    }

    /// Does nothing; its contract says that the rows are such as the kind has.
    pub fn rows_fit(&self)
        ensures { AreRowsOf (kind_of self.now) (rows_of self.now) }
    {}

    /// Whether no two rows have the same key, by which each is found.
    pub fn goes_by_key(&self) -> bool
        ensures { result ≡ is_keyed (shape_of_kind (kind_of self.now)) }
    {
        !matches!(self, BaseRows::ArrayList(_))
    }
}
