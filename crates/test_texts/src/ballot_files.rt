// Files with each fault, files that are accepted, and their plain form.
use ballot_csv::{print_ballots, read_ballots};
use std::alloc::Global;
use std::test::Fail;

/// The plain form of what a file says.
fn shown(alloc: Global, file: &[u8]) -> Result<Vec<u8>, Fail> {
    let contest = read_ballots(alloc, file)?;
    Ok(print_ballots(alloc, &contest)?)
}

#[test]
fn the_first_fault_is_told(rt: HostRuntime) -> Result<(), Fail> {
    let table: [(&[u8], &[u8], u64); 28] = [
        (b"", b"empty", 1),
        (b"\n\r\n", b"empty", 1),
        (b"votes,A\n", b"bad head", 1),
        (b",,,\n", b"bad head", 1),
        (b"ballots2,A\n", b"bad head", 1),
        (b"ballots\n", b"no candidates", 1),
        (b"ballots,,\n", b"no candidates", 1),
        (
            b"ballots,A,B,C,D,E,F,G,H,I,J,K,L,M\n",
            b"too many candidates",
            1,
        ),
        (b"ballots,A,,B\n", b"bad name", 1),
        (b"ballots,A,\xff\n", b"bad name", 1),
        (b"ballots,A,\x7f\n", b"bad name", 1),
        (
            b"ballots,xxxxxxxxxxxxxxxxxxxxxxxxxxxxxxxxxxxxxxxxxxxxxxxxxxxxxxxxxxxxxxxxx\n",
            b"bad name",
            1,
        ),
        (b"ballots,\"A\tB\"\n", b"bad name", 1),
        (b"ballots,A,A,\xff\n", b"name twice", 1),
        (b"ballots,A,A\n", b"name twice", 1),
        (b"ballots,A\n007,A\n", b"bad count", 2),
        (b"ballots,A\n,A\n", b"bad count", 2),
        (b"ballots,A\n+1,A\n", b"bad count", 2),
        (b"ballots,A\n1,A\n\n,,\n-1,A\n", b"bad count", 4),
        (b"ballots,A\n1,A\n1,Z\n", b"unknown name", 3),
        (b"ballots,A\n0,A,,Z\n", b"unknown name", 2),
        (b"ballots,North\n1,north\n", b"unknown name", 2),
        (b"ballots,North\n1,Nor\n", b"unknown name", 2),
        (b"ballots,A\n1000001,A\n", b"too many ballots", 2),
        (b"ballots,A\n4294967296,A\n", b"too many ballots", 2),
        (b"ballots,A\n18446744073709551617,Z\n", b"unknown name", 2),
        (
            b"ballots,A\n18446744073709551617,A\n",
            b"too many ballots",
            2,
        ),
        (
            b"ballots,A\n600000,A\n400000,A\n1\n",
            b"too many ballots",
            4,
        ),
    ];
    for (file, want, at) in table {
        match read_ballots(rt.alloc(), file) {
            Ok(_) => assert!(rt; false, "accepted: {file:?}"),
            Err(fault) => {
                let text = fault.kind.to_string(rt.alloc())?;
                assert_eq!(rt; text.as_bytes(), want, "at {file:?}");
                assert_eq!(rt; fault.at, at, "at {file:?}");
            }
        }
    }
    Ok(())
}

#[test]
fn accepted_files_are_shown_in_the_plain_form(rt: HostRuntime) -> Result<(), Fail> {
    let table: [(&[u8], &[u8]); 7] = [
        (
            b"\xef\xbb\xbfballots,A,B,C,\r\n5,A,,A\r\n4,B,C\r\n3,C,A\r\n,,,\r\n",
            b"ballots,A,B,C\n5,A\n4,B,C\n3,C,A\n",
        ),
        (
            b"\xef\xbb\xbf\xef\xbb\xbfballots,A,B\n1,A\n2,A\n1,B\n0,A\n1\n2,A",
            b"ballots,A,B\n3,A\n1,B\n1\n2,A\n",
        ),
        (
            b"ballots,\"A, B\",C\n7,\"A, B\"\n",
            b"ballots,\"A, B\",C\n7,\"A, B\"\n",
        ),
        (
            b"ballots,\"Ann \"\"Red\"\" Lee\",ann,Ann\n2,Ann,ann,\"Ann \"\"Red\"\" Lee\"\n",
            b"ballots,\"Ann \"\"Red\"\" Lee\",ann,Ann\n2,Ann,ann,\"Ann \"\"Red\"\" Lee\"\n",
        ),
        (b"ballots,A\n7,A\n", b"ballots,A\n7,A\n"),
        (
            b"ballots,xxxxxxxxxxxxxxxxxxxxxxxxxxxxxxxxxxxxxxxxxxxxxxxxxxxxxxxxxxxxxxxx",
            b"ballots,xxxxxxxxxxxxxxxxxxxxxxxxxxxxxxxxxxxxxxxxxxxxxxxxxxxxxxxxxxxxxxxx\n",
        ),
        (b"ballots,\xc3\x89mile", b"ballots,\xc3\x89mile\n"),
    ];
    for (file, want) in table {
        let form = shown(rt.alloc(), file)?;
        assert_eq!(rt; form.as_slice(), want);
    }
    let contest = read_ballots(rt.alloc(), b"ballots,A,B,C\n5,A\n4,B,C\n3,C,A\n")?;
    assert_eq!(rt; contest.names.len(), 3);
    assert_eq!(rt; contest.roll.candidates(), 3);
    assert_eq!(rt; contest.roll.len(), 12);
    assert_eq!(rt; contest.roll.row(4), [0].as_slice());
    assert_eq!(rt; contest.roll.row(5), [1, 2].as_slice());
    assert_eq!(rt; contest.roll.row(11), [2, 0].as_slice());
    Ok(())
}
