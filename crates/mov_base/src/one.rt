// An owner of one value.
ghost use Rattle.std.specs.Prelude.{◌≡◌, IfOk};
ghost use Rattle.std.specs.Borrow.{sem};
ghost use Rattle.mov_base.specs.Lending.{lends_value};

use crate::Memory;
use std::alloc::Global;
use std::marker::Model;

/// A box that contracts see as its value. A type may hold itself through it.
#[derive(Debug, Drop)]
pub struct One<T> {
    held: Box<T>,
}

impl<T> Model for One<T> {
    ghost use Rattle.std.specs.Coded.{Coded};

    ghost Value = { T };

    ghost coded = { T.code };

    ghost view = { λ one. one.held.value };
}

impl<T> One<T> {
    /// Lends the value.
    pub fn get(&self) -> &T
        ensures { result.now ≡ self.now }
    {
        &self.held
    }

    /// Lends the value for writing. What is written there is the value from then on.
    pub fn get_mut(&mut self) -> &mut T
        ensures* writes_back { sem 𝓛 (lends_value T.row self.entry result) }
        ensures value { result.now ≡ self.old }
    {
        &mut self.held
    }

    /// The value, no longer owned. It takes no memory.
    pub fn into_inner(self) -> T
        ensures { result ≡ self }
    {
        let One { held } = self;
        Box::into_inner(held)
    }
}

impl<T: Drop> One<T> {
    /// The owner of this value. Without memory the value is dropped.
    pub fn new(alloc: Global, value: T) -> Result<One<T>, Memory>
        ensures { IfOk result (λ one. one ≡ value) }
    {
        Ok(One {
            held: Box::new(alloc, value)?,
        })
    }
}
