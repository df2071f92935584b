// Memory that one leaf after another is made in.
ghost use Rattle.std.specs.Prelude.{◌≤◌};
ghost use Rattle.search_leaves.specs.Rooms.{HasRoom};

use dual_bound::Scratch;
use lex_dual::Buffers;
use mov_base::Memory;
use std::alloc::Global;

/// Memory that one leaf after another is made in.
#[derive(Drop)]
pub struct Tools {
    pub(crate) scratch: Scratch,
    pub(crate) buffers: Buffers,
    ghost room: { HasRoom scratch },
}

impl Tools {
    /// Room for the classes of each goal.
    pub fn new(alloc: Global) -> Result<Tools, Memory> {
        Ok(Tools {
            scratch: Scratch::new(alloc)?,
            buffers: Buffers::new(alloc),
        })
    }
}
