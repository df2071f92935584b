// Why a text is no certificate.
ghost use Rattle.std.specs.Prelude.{◌≡◌};
ghost use Rattle.cert_text.specs.Faults.{cert_kind_text, no_memory};

use std::alloc::{AllocError, AllocFailed};
use thiserror::Error;

/// What is wrong with a text.
#[derive(Clone, Copy, Debug, PartialEq, Eq, Error)]
pub enum CertKind {
    /// A line isn't ended by a line feed, its words or the number of its fields differ from every form allowed there, a field
    /// where a number stands is empty or has a byte that isn't a digit, or the text ends before the tree.
    #[error("bad line")]
    BadLine,
    /// A number has a leading zero or is outside its limits, in a line that is good otherwise.
    #[error("bad number")]
    BadNumber,
    /// A good line of the tree at depth 257, where the first has depth 1.
    #[error("too deep")]
    TooDeep,
    /// The text ends where a line of the tree is expected.
    #[error("tree ends")]
    TreeEnds,
    /// Something stands after the tree.
    #[error("tail")]
    Tail,
    /// A good line of the tree that is its 100,001st.
    #[error("too many nodes")]
    TooManyNodes,
    /// There was no memory.
    #[error("out of memory")]
    Memory,
}

impl CertKind {
    /// What is said of the fault.
    pub fn text(self) -> &'static str
        ensures { result.now ≡ cert_kind_text self }
    {
        match self {
            CertKind::BadLine => "bad line",
            CertKind::BadNumber => "bad number",
            CertKind::TooDeep => "too deep",
            CertKind::TreeEnds => "tree ends",
            CertKind::Tail => "tail",
            CertKind::TooManyNodes => "too many nodes",
            CertKind::Memory => "out of memory",
        }
    }
}

/// The first fault of a text.
#[derive(Clone, Copy, Debug, PartialEq, Eq)]
pub struct CertFault {
    /// What is wrong.
    pub kind: CertKind,
    /// The number of the line, from 1; where the text ends too early, that of the line that is missing. It is 0 at `Memory`.
    pub line: u32,
}

impl From<AllocError> for CertFault {
    ghost from_gives = { λ _ fault. fault ≡ no_memory };

    fn from(_: AllocError) -> CertFault {
        no_memory()
    }
}

impl<T: Drop> From<AllocFailed<T>> for CertFault {
    ghost from_gives = { λ _ fault. fault ≡ no_memory };

    fn from(_: AllocFailed<T>) -> CertFault {
        no_memory()
    }
}

/// Want of memory, which names no line.
pub(crate) fn no_memory() -> CertFault
    ensures { result ≡ no_memory }
{
    CertFault {
        kind: CertKind::Memory,
        line: 0,
    }
}
