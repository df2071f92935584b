// Lists of multipliers.
ghost use Rattle.std.specs.Prelude.{◌≡◌, ◌<◌, [], ◌∷◌, ◌++◌, All, length, IfOk, OnOk, OnErr};
ghost use Rattle.exact_num.specs.declared.limits.TheConstants.{WIDE};

use mov_base::{Copies, List, Memory};
use std::alloc::Global;
use std::marker::Model;

/// The multipliers of a cut, one for each goal row and then one for each limit: numbers that aren't wide, seen as their list.
#[derive(Debug, Drop)]
pub struct Multipliers {
    numbers: Vec<u64>,
}

impl Model for Multipliers {
    ghost use Rattle.std.specs.Prelude.{List, ℕ, ◌<◌, All};
    ghost use Rattle.exact_num.specs.declared.limits.TheConstants.{WIDE};

    ghost Value = { List ℕ };

    ghost view = { λ multipliers. multipliers.numbers.items };

    ghost invariant = { λ multipliers. All (λ number. number < WIDE) multipliers.numbers.items };
}

impl Multipliers {
    /// No multipliers. It takes no memory.
    pub fn new(alloc: Global) -> Multipliers
        ensures { result ≡ [] }
    {
        Multipliers {
            numbers: Vec::new(alloc),
        }
    }

    /// The multipliers of these numbers. It takes no memory.
    pub fn from_vec(numbers: Vec<u64>) -> Multipliers
        requires small { All (λ number. number < WIDE) numbers.items }
        ensures { result ≡ numbers.items }
    {
        Multipliers { numbers }
    }

    /// The numbers, in a vector. It takes no memory.
    pub fn into_vec(self) -> Vec<u64>
        ensures numbers { result.items ≡ self }
        ensures small { All (λ number. number < WIDE) self }
    {
        let Multipliers { numbers } = self;
        numbers
    }

    /// Adds a multiplier at the end. Without memory the list stays as it was.
    pub fn push(&mut self, number: u64) -> Result<(), Memory>
        requires small { number < WIDE }
        ensures ok { OnOk result (self.new ≡ self.old ++ number ∷ []) }
        ensures err { OnErr result (self.new ≡ self.old) }
    {
        self.numbers.push(number)?;
        Ok(())
    }

    /// Lends the numbers, in order.
    pub fn as_slice(&self) -> &[u64]
        ensures numbers { result.now ≡ self.now }
        ensures small { All (λ number. number < WIDE) self.now }
    {
        self.numbers.as_slice()
    }

    /// How many multipliers there are.
    pub fn len(&self) -> usize
        ensures { result ≡ length self.now }
    {
        self.numbers.len()
    }

    /// Equal multipliers.
    pub fn copy(&self) -> Result<Multipliers, Memory>
        ensures { IfOk result (λ copy. copy ≡ self.now) }
    {
        let alloc = *self.numbers.allocator();
        let numbers = Vec::from_slice(alloc, self.numbers.as_slice())?;
        Ok(Multipliers { numbers })
    }
}

impl Copies for Multipliers {
    fn copied(&self, _alloc: Global) -> Result<Multipliers, Memory> {
        self.copy()
    }
}

/// Multipliers of several cuts, in order.
pub type MultiplierLists = List<Multipliers>;
