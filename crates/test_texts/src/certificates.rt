// Certificates of worked contests, read and printed again, and texts with each fault.
use cert_text::{Claim, GoalText, is_printable, print_cert, read_cert};
use std::alloc::Global;
use std::process::Abort;
use std::test::Fail;

/// The text that a certificate has which was read from this text.
fn printed(alloc: Global, text: &[u8]) -> Result<Vec<u8>, Fail> {
    let cert = read_cert(alloc, text)?;
    if !is_printable(&cert) {
        return Err("not printable".into());
    }
    Ok(print_cert(alloc, &cert)?)
}

/// Looks for the first fault of a text.
fn expect<R: Abort>(
    rt: &R,
    alloc: Global,
    text: &[u8],
    want: &[u8],
    line: u32,
) -> Result<(), Fail> {
    match read_cert(alloc, text) {
        Ok(_) => assert!(rt; false, "accepted, and not {want:?} in line {line}"),
        Err(fault) => {
            let kind = fault.kind.to_string(alloc)?;
            assert_eq!(rt; kind.as_bytes(), want, "wanted in line {line}");
            assert_eq!(rt; fault.line, line, "of {want:?}");
        }
    }
    Ok(())
}

#[test]
fn certificates_are_read_and_printed_again_within_limits(rt: HostRuntime) -> Result<(), Fail> {
    let table: [&[u8]; 14] = [
        b"movcert 1\nrule plurality\nsize 2 7\nreported 0\nmargin 2\ngoal pair 1 0\nput 1 1\nput 2 1\nsplit 1\ncut 1\n",
        b"movcert 1\nrule plurality\nsize 2 6\nreported 0\nmargin 0\ngoal pair 1 0\ncut\n",
        b"movcert 1\nrule plurality\nsize 2 9\nreported 0\nmargin 3\ngoal pair 1 0\nput 1 1\nput 2 1\nput 3 1\nsplit 1\ncut 1\n",
        b"movcert 1\nrule irv\nsize 1 7\nreported 0\nfixed\nsplit 0\n",
        b"movcert 1\nrule dhondt 3\nsize 2 0\nreported 3 0\nmargin 0\ngoal pair 1 0\ncut\n",
        b"movcert 1\nrule borda\nsize 3 5\nreported 1\nmargin 1\ngoal pair 0 1\nput 4 0\nsplit 2\ncut 1\ncut 1\n",
        b"movcert 1\nrule condorcet\nsize 3 3\nreported none\nmargin 1\ngoal cover 0\nput 2 0\nsplit 3\ncut 0 1\ncut 1 0\ncut 0 1\n",
        b"movcert 1\nrule dhondt 3\nsize 2 9\nreported 2 1\nmargin 1\ngoal pair 0 1\nput 7 0\nsplit 2\ncut 1\ncut 1\n",
        b"movcert 1\nrule irv\nsize 3 12\nreported 0\nmargin 1\ngoal order 0 2 1\nput 1 2\nsplit 2\nsplit 2\ncut 1\nsplit 1\ncut 1 1 0\nsplit 2\nsplit 1\ncut 0 1 0\ncut 1\n",
        b"movcert 1\nrule irv\nsize 3 10\nreported 0\nmargin 0\ngoal order 1 0 2\nsplit 2\nsplit 2\ncut 1\nsplit 1\ncut 1 1 0\nsplit 2\nsplit 1\ncut 0 0 0\ncut 0\n",
        b"movcert 1\nrule irv\nsize 3 12\nreported 0\nbounds 0 2 budget 1\ngoal order 0 2 1\nput 1 1\nput 2 1\ncut\n",
        b"movcert 1\nrule condorcet\nsize 3 3\nreported none\nmargin 1\ngoal cover 0\nput 2 0\nsplit 3\nbranch from 7 0\ncut 0 1 0\ncut 0 0 1\ncut 1 0\ncut 0 1\n",
        b"movcert 1\nrule condorcet\nsize 12 1000000\nreported 255\nbounds 1000000 1 depth\ngoal cover 255\nput 1000000\nbranch arc 39 40 999999\ncut 9223372036854775807\nbranch from 1099511627775 0\ncut\ncut\n",
        b"movcert 1\nrule dhondt 500\nsize 1 0\nreported 500\nbounds 0 0 budget 40000\ngoal order 255\nsplit 0\n",
    ];
    for text in table {
        let again = printed(rt.alloc(), text)?;
        assert_eq!(rt; again.as_slice(), text);
    }
    let mut cert = read_cert(
        rt.alloc(),
        b"movcert 1\nrule irv\nsize 1 7\nreported 0\nfixed\nsplit 0\n",
    )?;
    assert!(rt; is_printable(&cert));
    cert.claim = Claim::Margin(0);
    assert!(rt; !is_printable(&cert));
    cert.goal = Some(GoalText::Cover(0));
    assert!(rt; is_printable(&cert));
    cert.ballots = 1_000_001;
    assert!(rt; !is_printable(&cert));
    Ok(())
}

#[test]
fn the_first_fault_is_told(rt: HostRuntime) -> Result<(), Fail> {
    let table: [(&[u8], &[u8], u32); 14] = [
        (b"", b"bad line", 1),
        (b"movcert 1", b"bad line", 1),
        (b"movcert 1\nrule  plurality\nsize 2 7\n", b"bad line", 2),
        (b"movcert 1\nrule dhondt 501\n", b"bad number", 2),
        (b"movcert 1\nrule irv\nsize 13 x\n", b"bad line", 3),
        (
            b"movcert 1\nrule irv\nsize 2 7\nreported none\n",
            b"bad line",
            4,
        ),
        (
            b"movcert 1\nrule dhondt 3\nsize 2 7\nreported 3\n",
            b"bad line",
            4,
        ),
        (
            b"movcert 1\nrule irv\nsize 2 7\nreported 0\nmargin 02\n",
            b"bad number",
            5,
        ),
        (
            b"movcert 1\nrule irv\nsize 2 7\nreported 0\nbounds 01 2 budget\n",
            b"bad line",
            5,
        ),
        (
            b"movcert 1\nrule irv\nsize 2 7\nreported 0\nmargin 1\ngoal order 0\n",
            b"bad line",
            6,
        ),
        (
            b"movcert 1\nrule irv\nsize 2 7\nreported 0\nmargin 1\ngoal cover 0\nput 01 x\n",
            b"bad line",
            7,
        ),
        (
            b"movcert 1\nrule irv\nsize 2 7\nreported 0\nfixed\nsplit 2\ncut 1\n",
            b"tree ends",
            8,
        ),
        (
            b"movcert 1\nrule irv\nsize 2 7\nreported 0\nfixed\ncut 1",
            b"bad line",
            6,
        ),
        (
            b"movcert 1\nrule plurality\nsize 2 7\nreported 0\nmargin 2\ngoal pair 1 0\nput 1 1\nput 2 1\nsplit 1\ncut 1\ncut 1\n",
            b"tail",
            11,
        ),
    ];
    for (text, want, line) in table {
        expect(&rt, rt.alloc(), text, want, line)?;
    }
    Ok(())
}

const HEAD: &[u8] =
    b"movcert 1\nrule plurality\nsize 2 7\nreported 0\nmargin 2\ngoal pair 1 0\nput 1 1\nput 2 1\n";

/// The head, and then each line so many times.
fn tall(alloc: Global, parts: &[(u32, &[u8])]) -> Result<Vec<u8>, Fail> {
    let mut text = Vec::from_slice(alloc, HEAD)?;
    for (times, line) in parts {
        for _ in 0..*times {
            text.extend_from_slice(line)?;
        }
    }
    Ok(text)
}

#[test]
fn a_tree_has_limits(rt: HostRuntime) -> Result<(), Fail> {
    let alloc = rt.alloc();
    let deep = tall(alloc, &[(257, b"split 1\n"), (1, b"cut\n")])?;
    expect(&rt, alloc, deep.as_slice(), b"too deep", 265)?;
    let deepest = tall(alloc, &[(255, b"split 1\n"), (1, b"cut\n")])?;
    let again = printed(alloc, deepest.as_slice())?;
    assert_eq!(rt; again.as_slice(), deepest.as_slice());
    let large = tall(alloc, &[(100, b"split 1560\n"), (99_901, b"cut\n")])?;
    expect(&rt, alloc, large.as_slice(), b"too many nodes", 100_009)?;
    let largest = tall(
        alloc,
        &[
            (64, b"split 1560\n"),
            (1, b"split 159\n"),
            (99_935, b"cut 1\n"),
        ],
    )?;
    let again = printed(alloc, largest.as_slice())?;
    assert_eq!(rt; again.as_slice(), largest.as_slice());
    Ok(())
}
