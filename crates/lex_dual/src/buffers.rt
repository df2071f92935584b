// Memory that is lent from one program to the next.

use pivot_form::Room;
use std::alloc::Global;

/// The memory in which programs are solved, one after another. Nothing depends on what it keeps.
#[derive(Debug, Drop)]
pub struct Buffers {
    pub(crate) room: Room,
    pub(crate) places: Vec<Option<usize>>,
    pub(crate) candidates: Vec<usize>,
}

impl Buffers {
    /// No memory yet. It takes none.
    pub fn new(alloc: Global) -> Buffers {
        Buffers {
            room: Room::new(alloc),
            places: Vec::new(alloc),
            candidates: Vec::new(alloc),
        }
    }
}
