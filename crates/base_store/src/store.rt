ghost use Rattle.std.specs.Prelude.{◌≡◌, ◌+◌, ◌++◌, ◌∷◌, [], ◌<◌, ◌≤◌, ◌⊎◌, length, OnOk, OnErr, IfOk, IfErr, IsSome, Some, slice_get, true};
ghost use Rattle.base_store.specs.Stored.{view_in, with_base, with_kept, with_node, without_temporary};
ghost use Rattle.base_store.specs.Limits.{most_handles};
ghost use Rattle.base_store.specs.Unfolding.{Unfolds};
ghost use Rattle.base_store.specs.Nodes.{IsBelow};
ghost use Rattle.base_rows.specs.BaseRows.{kind_of, rows_of, AreRowsOf};
ghost use Rattle.base_store.specs.Facts.{facts_at};
ghost use Rattle.base_store.specs.NodeLists.{with_lasting};
ghost use Rattle.base_store.specs.declared.store.Made.TheVariants.{Base as base_node, Over as step_node};
ghost use Rattle.machine.specs.KeptSteps.{order_at, window_at};
ghost use Rattle.machine.specs.MadeViews.{IsKept, IsMade};
ghost use Rattle.machine.specs.RowCounts.{rows_in};
ghost use Rattle.vocabulary.specs.Limits.{most_rows};
ghost use Rattle.base_rows.specs.BaseSpots.{HasKeys};
ghost use Rattle.base_store.specs.Courses.{spots_in};
ghost use Rattle.view_laws.specs.ItemForms.{IsFormed};
ghost use Rattle.view_laws.specs.RowForm.{is_by_row};
ghost use Rattle.view_laws.specs.Spots.{TellAll};
ghost use Rattle.vocabulary.specs.Known.{is_known_kind};
ghost use Rattle.vocabulary.specs.StepShapes.{apply};
ghost use Rattle.machine.specs.Views.{base, over, path, shape_at, flags_at};
ghost use Rattle.view_steps.specs.KnownViews.{is_known, is_known_view, number_under};
ghost use Rattle.machine.specs.Leaves.{stored};
ghost use Rattle.machine.specs.Bases.{base_at, empty_base};
ghost use Rattle.machine.specs.Spots.{own_spot};
ghost use Rattle.view_steps.specs.Turning.{turned};

mod courses;
mod dropping;
mod facts;
mod kept;
mod nodes;
mod reading;
mod room;
mod shown;
mod slots;
mod writing;

use crate::{AnyRef, BaseId, Node};
use base_rows::BaseRows;
pub use courses::Course;
use elem::{NoMemory, Window};
use facts::Facts;
use hash_seed::Seed;
use nodes::Nodes;
use std::alloc::Global;
use std::marker::Model;
use vocabulary::{Flags, Kind, Order, Refusal, Shape, Spot, Step, order_of_kind};

/// How a node was made: it is the base of a number, or a step over the node of a number.
#[derive(Drop)]
pub enum Made<'a> {
    Base(usize),
    Over(Step<'a>, usize),
}

/// A base: its rows, how often one was added or removed, and whether it is frozen.
#[derive(Drop)]
pub struct Slot {
    rows: BaseRows,
    change: u64,
    frozen: bool,
}

impl Model for Slot {
    ghost use Rattle.base_rows.specs.BaseRows.{kind_of, rows_of};
    ghost use Rattle.machine.specs.Bases.{Base};
    ghost use Rattle.std.specs.Prelude.{[]};

    ghost Value = { Base };

    ghost view = { λ s. record { kind = kind_of s.rows; rows = rows_of s.rows; keys = []; change = s.change; frozen = s.frozen } };
}

/// Bases, and the nodes over them.
///
/// The nodes that an expression makes on its way are temporary: there is room for 32 of them, which is the length of
/// the longest path of steps, and they end with the expression.
#[derive(Drop)]
pub struct Store {
    alloc: Global,
    seed: Seed,
    slots: Vec<Slot>,
    nodes: Nodes,
    handles: usize,
    rows: usize,
}

/// The most bases and steps behind names.
const MOST_HANDLES: usize = 65_536;

/// The most rows of all bases together.
const MOST_ROWS: usize = 4_194_304;

impl Model for Store {
    ghost use Rattle.base_store.specs.Stored.{Stored, IsSound};

    ghost Value = { Stored };

    ghost use Rattle.base_store.specs.Codes.{made_code};
    ghost use Rattle.std.specs.Coded.{codes};

    ghost coded = { Prim.hlevel (codes, made_code) };

    ghost view = { λ s. record { world = s.slots.items; nodes = s.nodes.made; lasting = s.nodes.lasting; handles = s.handles } };

    ghost invariant = { λ s. IsSound (record { world = s.slots.items; nodes = s.nodes.made; lasting = s.nodes.lasting; handles = s.handles }) s.nodes.facts s.rows };
}

impl Store {
    /// A store without bases, under the fixed seed.
    pub fn empty(alloc: Global) -> Store
        ensures { result ≡ record { world = []; nodes = []; lasting = 0; handles = 0 } }
    {
        Store::with_hasher(alloc, Seed::fixed())
    }

    /// A store without bases, which are to hash by a seed.
    pub fn with_hasher(alloc: Global, seed: Seed) -> Store
        ensures { result ≡ record { world = []; nodes = []; lasting = 0; handles = 0 } }
    {
        Store {
            alloc,
            seed,
            slots: Vec::new(alloc),
            nodes: Nodes::new(alloc),
            handles: 0,
            rows: 0,
        }
    }

    /// A new base without rows, of a known kind, and its node, for one handle. The temporary nodes end.
    ///
    /// # Errors
    ///
    /// `Limit` where there is no handle left, and `NoMemory`.
    pub fn new_base(&mut self, kind: Kind) -> Result<AnyRef, Refusal>
        requires known { is_known_kind kind ≡ true }
        ensures number { IfOk result (λ n. n ≡ self.old.lasting) }
        ensures ok { OnOk result (self.new ≡ with_base self.old kind) }
        ensures room { OnOk result (self.old.handles < most_handles) }
        ensures err { OnErr result (self.new ≡ self.old) }
        ensures cause { IfErr result (λ why. ((why ≡ Refusal.Limit) × (self.old.handles ≡ most_handles)) ⊎ (why ≡ Refusal.NoMemory)) }
    {
        if self.handles == MOST_HANDLES {
            return Err(Refusal::Limit);
        }
        let Ok(rows) = BaseRows::with_hasher(self.alloc, self.seed, kind) else {
            return Err(Refusal::NoMemory);
        };
        let number = self.nodes.lasting();
        let Ok(()) = add_base(&mut self.slots, &mut self.nodes, rows) else {
            return Err(Refusal::NoMemory);
        };
        self.handles += 1;
        Ok(AnyRef::at(number))
    }

    /// A temporary node: a known step over a node, as the rule of `within` leaves the step. It takes no memory.
    pub fn new_view(&mut self, parent: AnyRef, step: &Step) -> AnyRef
        requires parent { parent < length self.old.nodes }
        requires room { length self.old.nodes < self.old.lasting + 32 }
        requires known { is_known step.now ≡ true }
        requires given { IsSome (apply (shape_at self.old.world (view_in self.old parent)) step.now) }
        requires kept { IsKept self.old.world (view_in self.old parent) step.now }
        requires short { path (view_in self.old parent) < 32 }
        ensures number { result ≡ length self.old.nodes }
        ensures made { self.new ≡ with_node self.old (step_node step.now parent) }
        ensures view { view_in self.new result ≡ over step.now (view_in self.old parent) }
    {
        let number = self.nodes.count();
        let facts = self.nodes.facts(parent.number()).over(step);
        self.nodes.push_step(step, parent.number(), facts);
        AnyRef::at(number)
    }

    /// Ends all temporary nodes.
    pub fn drop_temporary(&mut self)
        ensures { self.new ≡ without_temporary self.old }
    {
        self.nodes.drop_temporary();
    }

    /// Makes the temporary nodes lasting, for so many handles.
    ///
    /// # Errors
    ///
    /// `Limit` where there are not so many handles left, and `NoMemory`.
    pub fn keep(&mut self, handles: usize) -> Result<(), Refusal>
        ensures ok { OnOk result (self.new ≡ with_kept self.old handles) }
        ensures room { OnOk result (self.old.handles + handles ≤ most_handles) }
        ensures err { OnErr result (self.new ≡ self.old) }
        ensures cause { IfErr result (λ why. ((why ≡ Refusal.Limit) × (most_handles < self.old.handles + handles)) ⊎ (why ≡ Refusal.NoMemory)) }
    {
        if handles > MOST_HANDLES - self.handles {
            return Err(Refusal::Limit);
        }
        if self.nodes.keep().is_err() {
            return Err(Refusal::NoMemory);
        }
        self.handles += handles;
        Ok(())
    }

    /// How a node was made.
    pub fn node(&self, n: AnyRef) -> Node<'_>
        requires { n < length self.now.nodes }
        ensures { Unfolds self.now n result }
    {
        match self.made(n.number()) {
            Made::Base(b) => Node::Base(BaseId::at(b)),
            Made::Over(step, parent) => Node::Step {
                step,
                parent: AnyRef::at(parent),
            },
        }
    }

    fn made(&self, n: usize) -> Made<'_>
        requires { n < length self.now.nodes }
        ensures at { slice_get self.now.nodes n ≡ Some result }
        ensures below { IsBelow (length self.now.world) n result }
    {
        self.nodes.made(n)
    }

    fn facts(&self, n: AnyRef) -> &Facts
        requires { n < length self.now.nodes }
        ensures { result.now ≡ facts_at self.now.world (view_in self.now n) }
    {
        // What is sound about a store is known once a field of it is read.
        let _ = &self.alloc;
        self.nodes.facts(n.number())
    }

    /// The base under a node. What stands there is sound: each step is known and one that the view below it has, the
    /// kind of the base is known, and no two rows of a set, a map or a bimap have the same key, nor two of a bimap the same
    /// value.
    pub fn base_of(&self, n: AnyRef) -> BaseId
        requires { n < length self.now.nodes }
        ensures base { result ≡ number_under (view_in self.now n) }
        ensures within { result < length self.now.world }
        ensures made { IsMade self.now.world (view_in self.now n) }
        ensures known { is_known_view (view_in self.now n) ≡ true }
        ensures kind { is_known_kind (base_at self.now.world result).kind ≡ true }
        ensures keys { HasKeys (base_at self.now.world result) }
    {
        // What is sound about a store is known once a field of it is read.
        let _ = &self.alloc;
        BaseId::at(self.facts(n).base)
    }

    /// Does nothing; its contract says that the laws of views that go row by row hold of a node: its rows and items have
    /// their forms, and spots tell the rows of each base apart.
    pub fn is_lawful(&self, n: AnyRef)
        requires { n < length self.now.nodes }
        ensures formed { IsFormed self.now.world (view_in self.now n) }
        ensures by_row { is_by_row self.now.world (view_in self.now n) ≡ true }
        ensures tell { TellAll self.now.world (spots_in self.now.world) }
    {
        // What is sound about a store is known once a field of it is read.
        let _ = &self.alloc;
        self.rows_fit(self.base_of(n));
    }

    /// How many steps lead to a node.
    pub fn path(&self, n: AnyRef) -> usize
        requires { n < length self.now.nodes }
        ensures path { result ≡ path (view_in self.now n) }
        ensures within { result ≤ n }
    {
        // What is sound about a store is known once a field of it is read.
        let _ = &self.alloc;
        self.facts(n).path
    }

    /// The shape of a node.
    pub fn shape(&self, n: AnyRef) -> Shape
        requires { n < length self.now.nodes }
        ensures { result ≡ shape_at self.now.world (view_in self.now n) }
    {
        self.facts(n).shape
    }

    /// What a node allows.
    pub fn flags_of(&self, n: AnyRef) -> Flags
        requires { n < length self.now.nodes }
        ensures { result ≡ flags_at self.now.world (view_in self.now n) }
    {
        self.facts(n).flags
    }

    /// The window of a node: that of the last `within` on its path.
    pub fn window_of(&self, n: AnyRef) -> Window
        requires { n < length self.now.nodes }
        ensures { result ≡ window_at (view_in self.now n) }
    {
        self.facts(n).window
    }

    /// Whether a node is walked from the back of its base.
    pub fn is_turned(&self, n: AnyRef) -> bool
        requires { n < length self.now.nodes }
        ensures { result ≡ turned (view_in self.now n) }
    {
        self.facts(n).turned
    }

    /// Where a row goes by itself that comes to the base through a node: as its key says, or its value, where keys and
    /// values stand exchanged.
    pub fn own_spot(&self, n: AnyRef) -> Spot
        requires { n < length self.now.nodes }
        ensures { result ≡ own_spot (view_in self.now n) }
    {
        if self.facts(n).swapped {
            Spot::Swapped
        } else {
            Spot::Own
        }
    }

    /// The order in which a node's windows are read.
    pub fn order_of(&self, n: AnyRef) -> Order
        requires { n < length self.now.nodes }
        ensures { result ≡ order_at self.now.world (view_in self.now n) }
    {
        order_of_kind(self.kind(self.base_of(n)))
    }

    /// The kind of a base.
    pub fn kind(&self, b: BaseId) -> Kind
        requires { b < length self.now.world }
        ensures { result ≡ (base_at self.now.world b).kind }
    {
        self.slots[b.number()].rows.kind()
    }

    /// How often a row of a base was added or removed.
    pub fn change(&self, b: BaseId) -> u64
        requires { b < length self.now.world }
        ensures { result ≡ (base_at self.now.world b).change }
    {
        self.slots[b.number()].change
    }

    /// How many rows a base has.
    pub fn len(&self, b: BaseId) -> usize
        requires { b < length self.now.world }
        ensures len { result ≡ length (base_at self.now.world b).rows }
        ensures few { result ≤ most_rows }
    {
        self.slots[b.number()].rows.len()
    }

    /// Does nothing; its contract says that the rows of a base are such as its kind has.
    pub fn rows_fit(&self, b: BaseId)
        requires { b < length self.now.world }
        ensures { AreRowsOf (base_at self.now.world b).kind (base_at self.now.world b).rows }
    {
        let _ = &self.alloc;
        self.slots[b.number()].rows.rows_fit();
    }

    /// The allocator of the store.
    pub fn alloc(&self) -> Global {
        self.alloc
    }

    /// The seed by which the bases hash.
    pub fn seed(&self) -> Seed {
        self.seed
    }

    /// How many rows may still come.
    pub fn rows_left(&self) -> usize
        ensures { result + rows_in self.now.world ≡ most_rows }
    {
        MOST_ROWS - self.rows
    }
}

/// Adds a base without rows, and its node. The temporary nodes end.
fn add_base(slots: &mut Vec<Slot>, nodes: &mut Nodes, rows: BaseRows) -> Result<(), NoMemory>
    requires { rows_of rows ≡ [] }
    ensures slots { OnOk result (slots.new.items ≡ slots.old.items ++ empty_base (kind_of rows) ∷ []) }
    ensures nodes { OnOk result (nodes.new ≡ with_lasting nodes.old (base_node (length slots.old.items)) (facts_at (slots.old.items ++ empty_base (kind_of rows) ∷ []) (base (stored (length slots.old.items))))) }
    ensures err { OnErr result ((slots.new.items ≡ slots.old.items) × (nodes.new ≡ nodes.old)) }
{
    let number = slots.as_slice().len();
    let facts = Facts::of_base(number, rows.kind(), false);
    if slots.reserve(1).is_err() || nodes.push_base(number, facts).is_err() {
        return Err(NoMemory);
    }
    slots.push_reserved(Slot {
        rows,
        change: 0,
        frozen: false,
    });
    Ok(())
}
