// Lists that numbers are read into.
ghost use Rattle.std.specs.Prelude.{◌≡◌, ◌≤◌, ◌++◌, ◌∷◌, [], List, ℕ, OnOk, OnErr};

use mov_base::{List, Memory};

/// A list of numbers up to a limit of its kind.
pub trait NumberList: Drop {
    ghost numbers: { Self → List ℕ };

    ghost most: { ℕ };

    /// Adds a number at the end. Without memory the list stays as it was.
    fn keep(&mut self, number: u64) -> Result<(), Memory>
        requires small { number ≤ most }
        ensures ok { OnOk result (numbers self.new ≡ numbers self.old ++ number ∷ []) }
        ensures err { OnErr result (numbers self.new ≡ numbers self.old) };
}

impl NumberList for List<u8> {
    ghost numbers = { λ list. list };

    ghost most = { 255 };

    fn keep(&mut self, number: u64) -> Result<(), Memory> {
        self.push(number as u8)
    }
}

impl NumberList for List<u16> {
    ghost numbers = { λ list. list };

    ghost most = { 65535 };

    fn keep(&mut self, number: u64) -> Result<(), Memory> {
        self.push(number as u16)
    }
}

impl NumberList for List<u64> {
    ghost numbers = { λ list. list };

    ghost most = { 18446744073709551615 };

    fn keep(&mut self, number: u64) -> Result<(), Memory> {
        self.push(number)
    }
}
