// What is said of each kind of fault is what it displays as.
use ballot_csv::BallotKind;
use cert_text::CertKind;
use mov_words::WordFault;
use std::test::Fail;

#[test]
fn each_fault_displays_as_its_text(rt: HostRuntime) -> Result<(), Fail> {
    let ballot_kinds = [
        BallotKind::Empty,
        BallotKind::BadHead,
        BallotKind::NoCandidates,
        BallotKind::TooManyCandidates,
        BallotKind::BadName,
        BallotKind::NameTwice,
        BallotKind::BadCount,
        BallotKind::UnknownName,
        BallotKind::TooManyBallots,
        BallotKind::Memory,
    ];
    for kind in &ballot_kinds {
        let shown = kind.to_string(rt.alloc())?;
        assert_eq!(rt; shown.as_str(), kind.text());
    }
    let cert_kinds = [
        CertKind::BadLine,
        CertKind::BadNumber,
        CertKind::TooDeep,
        CertKind::TreeEnds,
        CertKind::Tail,
        CertKind::TooManyNodes,
        CertKind::Memory,
    ];
    for kind in cert_kinds {
        let shown = kind.to_string(rt.alloc())?;
        assert_eq!(rt; shown.as_str(), kind.text());
    }
    Ok(())
}

#[test]
fn each_fault_of_words_displays_as_its_text(rt: HostRuntime) -> Result<(), Fail> {
    let faults = [
        WordFault::NoCommand,
        WordFault::UnknownCommand,
        WordFault::Line,
        WordFault::UnknownRule,
        WordFault::BadSeats,
        WordFault::SeatsMissing,
        WordFault::SeatsUnwanted,
        WordFault::BadBudget,
        WordFault::BadSeed,
        WordFault::Memory,
    ];
    for fault in faults {
        let shown = fault.to_string(rt.alloc())?;
        assert_eq!(rt; shown.as_str(), fault.text());
    }
    Ok(())
}
