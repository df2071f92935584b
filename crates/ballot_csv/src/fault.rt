// What is wrong with a ballot file.
ghost use Rattle.std.specs.Prelude.{◌≡◌};
ghost use Rattle.ballot_csv.specs.Faults.{ballot_kind_text};
ghost use Rattle.ballot_csv.specs.declared.fault.BallotKind.TheVariants.{Memory};

use mov_base::Memory;
use thiserror::Error;

/// What is wrong with a ballot file.
#[derive(Debug, Drop, Error)]
pub enum BallotKind {
    /// The file has no record.
    #[error("empty")]
    Empty,
    /// The first cell of the head isn't `ballots`.
    #[error("bad head")]
    BadHead,
    /// The head has no name.
    #[error("no candidates")]
    NoCandidates,
    /// The head has more than 12 names.
    #[error("too many candidates")]
    TooManyCandidates,
    /// A name is empty, longer than 64 bytes, not UTF-8, or has a control byte.
    #[error("bad name")]
    BadName,
    /// A name stands in the head twice.
    #[error("name twice")]
    NameTwice,
    /// The first cell of a record isn't `0` or digits without a leading zero.
    #[error("bad count")]
    BadCount,
    /// A cell isn't a name of the head.
    #[error("unknown name")]
    UnknownName,
    /// The file has more than 1,000,000 ballots.
    #[error("too many ballots")]
    TooManyBallots,
    /// There was no memory.
    #[error("out of memory")]
    Memory,
}

impl BallotKind {
    /// What is said of the fault.
    pub fn text(&self) -> &'static str
        ensures { result.now ≡ ballot_kind_text self.now }
    {
        match self {
            BallotKind::Empty => "empty",
            BallotKind::BadHead => "bad head",
            BallotKind::NoCandidates => "no candidates",
            BallotKind::TooManyCandidates => "too many candidates",
            BallotKind::BadName => "bad name",
            BallotKind::NameTwice => "name twice",
            BallotKind::BadCount => "bad count",
            BallotKind::UnknownName => "unknown name",
            BallotKind::TooManyBallots => "too many ballots",
            BallotKind::Memory => "out of memory",
        }
    }
}

impl From<Memory> for BallotKind {
    ghost from_gives = { λ _ kind. kind ≡ Memory };

    fn from(_: Memory) -> BallotKind {
        BallotKind::Memory
    }
}

/// The first fault of a ballot file.
#[derive(Debug, Drop)]
pub struct BallotFault {
    /// What is wrong.
    pub kind: BallotKind,
    /// The number of the record, the head being 1. It says nothing at `Memory`.
    pub at: u64,
}
