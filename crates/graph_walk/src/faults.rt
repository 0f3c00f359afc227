use elem::NoMemory;
use thiserror::Error;

/// Why a walk gives no list.
#[derive(Clone, Copy, Debug, PartialEq, Eq, Drop, Error)]
pub enum WalkFault {
    /// The walk is to begin at a node that is not in the graph.
    #[error("no such node")]
    NoNode,
    /// Want of memory.
    #[error("no memory")]
    NoMemory,
}

impl From<NoMemory> for WalkFault {
    ghost use Rattle.std.specs.Prelude.{◌≡◌};
    ghost use Rattle.graph_walk.specs.declared.faults.WalkFault.TheVariants.{NoMemory as WantOfMemory};

    ghost from_gives = { λ x r. r ≡ WantOfMemory };

    fn from(_fault: NoMemory) -> WalkFault {
        WalkFault::NoMemory
    }
}

/// Why there is no closure.
#[derive(Clone, Copy, Debug, PartialEq, Eq, Drop, Error)]
pub enum ClosureFault {
    /// Its nodes and edges are more than there is room for.
    #[error("no room for the closure")]
    Limit,
    /// Want of memory.
    #[error("no memory")]
    NoMemory,
}

impl From<NoMemory> for ClosureFault {
    ghost use Rattle.std.specs.Prelude.{◌≡◌};
    ghost use Rattle.graph_walk.specs.declared.faults.ClosureFault.TheVariants.{NoMemory as WantOfMemory};

    ghost from_gives = { λ x r. r ≡ WantOfMemory };

    fn from(_fault: NoMemory) -> ClosureFault {
        ClosureFault::NoMemory
    }
}
