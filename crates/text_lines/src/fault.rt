// What is wrong with a line first.
ghost use Rattle.std.specs.Prelude.{◌≡◌};
ghost use Rattle.text_lines.specs.Faults as spec;
ghost use Rattle.text_lines.specs.declared.fault.LineFault.TheVariants.{Memory};

use mov_base::Memory;

/// What is wrong with a line.
#[derive(Clone, Copy, Debug, PartialEq, Eq)]
pub enum LineFault {
    /// Its words or the number of its fields differ, or a field where a number stands has no digit or another byte.
    BadLine,
    /// A number has a leading zero or is outside its limits.
    BadNumber,
    /// There was no memory for what it says.
    Memory,
}

impl LineFault {
    /// The graver of two faults: want of memory before a bad line, and that before a bad number.
    fn graver(self, other: LineFault) -> LineFault
        ensures { result ≡ spec.graver self other }
    {
        match (self, other) {
            (LineFault::Memory, _) | (_, LineFault::Memory) => LineFault::Memory,
            (LineFault::BadLine, _) | (_, LineFault::BadLine) => LineFault::BadLine,
            _ => LineFault::BadNumber,
        }
    }
}

impl From<Memory> for LineFault {
    ghost from_gives = { λ _ fault. fault ≡ Memory };

    fn from(_: Memory) -> LineFault {
        LineFault::Memory
    }
}

/// Two parts of a line, or the graver fault of them.
pub fn both<A: Drop, B: Drop>(
    first: Result<A, LineFault>,
    second: Result<B, LineFault>,
) -> Result<(A, B), LineFault>
    ensures { result ≡ spec.both first second }
{
    match (first, second) {
        (Ok(x), Ok(y)) => Ok((x, y)),
        (Ok(_), Err(fault)) => Err(fault),
        (Err(fault), Ok(_)) => Err(fault),
        (Err(fault), Err(other)) => Err(fault.graver(other)),
    }
}
