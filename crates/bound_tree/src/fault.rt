// Why a tree did not grow.
ghost use Rattle.std.specs.Prelude.{◌≡◌};
ghost use Rattle.bound_tree.specs.declared.fault.GrowFault.TheVariants as variants;

use mov_base::Memory;

/// Why a tree did not grow.
#[derive(Debug, Drop)]
pub enum GrowFault {
    /// The tree would have passed `MOST_NODES` nodes.
    TooManyNodes,
    /// A kid would have stood deeper than `MOST_DEPTH`.
    TooDeep,
    /// There was no memory.
    Memory,
}

impl From<Memory> for GrowFault {
    ghost from_gives = { λ _ fault. fault ≡ variants.Memory };

    fn from(_error: Memory) -> GrowFault {
        GrowFault::Memory
    }
}
