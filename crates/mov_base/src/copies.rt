// Values that can be copied exactly.
ghost use Rattle.std.specs.Prelude.{◌≡◌, IfOk};

use crate::Memory;
use std::alloc::Global;

/// A value that can be copied exactly, where memory is to be had.
pub trait Copies: Drop {
    /// Gives an equal value.
    fn copied(&self, alloc: Global) -> Result<Self, Memory>
        ensures { IfOk result (λ copy. copy ≡ self.now) };
}

impl Copies for u8 {
    fn copied(&self, _alloc: Global) -> Result<u8, Memory> {
        Ok(*self)
    }
}

impl Copies for u16 {
    fn copied(&self, _alloc: Global) -> Result<u16, Memory> {
        Ok(*self)
    }
}

impl Copies for u32 {
    fn copied(&self, _alloc: Global) -> Result<u32, Memory> {
        Ok(*self)
    }
}

impl Copies for u64 {
    fn copied(&self, _alloc: Global) -> Result<u64, Memory> {
        Ok(*self)
    }
}

impl Copies for i64 {
    fn copied(&self, _alloc: Global) -> Result<i64, Memory> {
        Ok(*self)
    }
}
