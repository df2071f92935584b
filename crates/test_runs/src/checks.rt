// Whole runs of `check`: its verdicts, what is wrong with a certificate, and which fault comes first.
use crate::runs::words_of;
use mov_edge::{MemFiles, MemSink};
use mov_run::run;
use std::alloc::Global;
use std::process::Abort;
use std::test::Fail;

/// Five ballots for A and two for B.
const FIVE_TWO: &[u8] = b"ballots,A,B\n5,A\n2,B\n";

/// Runs the words where the file `F` holds the ballots and `C` the certificate, and compares the status and what went out.
fn expect_run<R: Abort>(
    rt: &R,
    alloc: Global,
    words: &[&str],
    ballots: &[u8],
    cert: &[u8],
    ends: (u8, &[u8], &[u8]),
) -> Result<(), Fail> {
    let mut files = MemFiles::new(alloc, 8, Vec::new(alloc));
    files.add("F", Vec::from_slice(alloc, ballots)?)?;
    files.add("C", Vec::from_slice(alloc, cert)?)?;
    expect_over(rt, alloc, words, &mut files, ends)
}

/// Runs the words over the files, and compares the status and what went out.
fn expect_over<R: Abort>(
    rt: &R,
    alloc: Global,
    words: &[&str],
    files: &mut MemFiles,
    ends: (u8, &[u8], &[u8]),
) -> Result<(), Fail> {
    let mut output = MemSink::new(alloc, 1000, 1000, Vec::new(alloc))?;
    let mut error = MemSink::new(alloc, 1000, 10, Vec::new(alloc))?;
    let words = words_of(alloc, words)?;
    let status = run(alloc, words.as_slice(), files, &mut output, &mut error);
    let (number, out, err) = ends;
    assert_eq!(rt; output.taken(), out, "of {words:?}");
    assert_eq!(rt; error.taken(), err, "of {words:?}");
    assert_eq!(rt; status.number(), number, "of {words:?}");
    Ok(())
}

#[test]
fn verdicts_on_certificates(rt: HostRuntime) -> Result<(), Fail> {
    let table: [(&[u8], u8, &[u8]); 11] = [
        (
            b"movcert 1\nrule plurality\nsize 2 7\nreported 0\nmargin 2\ngoal pair 1 0\nput 1 1\nput 2 1\nsplit 1\ncut 1\n",
            0,
            b"VALID\nrule plurality\nmargin 2\n",
        ),
        (
            b"movcert 1\nrule plurality\nsize 2 8\nreported 0\nmargin 2\ngoal pair 1 0\nput 1 1\nput 2 1\nsplit 1\ncut 1\n",
            2,
            b"REFUSED 1 HeadDiffers line 3\n",
        ),
        (
            b"movcert 1\nrule plurality\nsize 2 7\nreported 1\nmargin 2\ngoal pair 1 0\nput 1 1\nput 2 1\nsplit 1\ncut 1\n",
            2,
            b"REFUSED 2 ReportedDiffers line 4\n",
        ),
        (
            b"movcert 1\nrule plurality\nsize 2 7\nreported 0\nmargin 2\ngoal pair 1 0\nput 1 1\nput 8 1\nsplit 1\ncut 1\n",
            2,
            b"REFUSED 3 BadAlteration line 8\n",
        ),
        (
            b"movcert 1\nrule plurality\nsize 2 7\nreported 0\nbounds 1 2 budget 1\ngoal pair 1 0\nput 1 1\nput 2 1\nsplit 1\ncut 1\n",
            0,
            b"VALID\nrule plurality\nbounds 1 2 budget 1\n",
        ),
        (
            b"movcert 1\nrule plurality\nsize 2 7\nreported 0\nmargin 2\ngoal pair 1 0\nput 1 1\nput 2 1\nsplit 1\ncut 0\n",
            2,
            b"REFUSED 6 CutFails line 10\n",
        ),
        (
            b"movcert 1\nrule plurality\nsize 2 7\nreported 0\nmargin 2\ngoal pair 1 0\nput 1 0\nput 2 1\nsplit 1\ncut 1\n",
            2,
            b"REFUSED 4 ClaimFails line 6\n",
        ),
        (
            b"movcert 1\nrule plurality\nsize 2 7\nreported 0\nmargin 2\ngoal pair 1 0\nput 1 1\nput 2 1\nsplit 2\ncut 1\ncut 1\n",
            2,
            b"REFUSED 5 ShapeDiffers line 9\n",
        ),
        (
            b"movcert 1\nrule plurality\nsize 2 7\nreported 0\nmargin 2\ngoal pair 1 0\nput 1 1\nput 2 1\nbranch from 1 0\ncut 1\ncut 1\n",
            2,
            b"REFUSED 5 ShapeDiffers line 9\n",
        ),
        (
            b"movcert 1\nrule irv\nsize 2 7\nreported 0\nmargin 2\ngoal order 0 1\nput 1 1\nput 2 1\nsplit 1\ncut 1\n",
            2,
            b"REFUSED 5 ShapeDiffers line 10\n",
        ),
        (
            b"movcert 1\nrule plurality\nsize 2 7\nreported 0\nbounds 2 2 depth\ngoal pair 1 0\nput 1 1\nput 2 1\nsplit 1\ncut 1\n",
            2,
            b"REFUSED 7 NumbersDisagree line 5\n",
        ),
    ];
    for (cert, number, out) in table {
        let ends = (number, out, b"".as_slice());
        expect_run(&rt, rt.alloc(), &["check", "F", "C"], FIVE_TWO, cert, ends)?;
    }
    Ok(())
}

/// A runoff of three; its last round alone would say that two replacements are needed.
const RUNOFF: &[u8] = b"ballots,A,B,C\n5,A\n4,B,C\n3,C,A\n";

/// Three who are each preferred to the next.
const CYCLE: &[u8] = b"ballots,A,B,C\n1,A,B,C\n1,B,C,A\n1,C,A,B\n";

/// The head of the runoff's certificates up to the claim.
const RUNOFF_HEAD: &str = "movcert 1\nrule irv\nsize 3 12\nreported 0\n";

/// What follows it in the certificate of its margin: the goal with the replacement, and the tree.
const RUNOFF_TURN: &str = "goal order 0 2 1\nput 1 2\n";

const RUNOFF_TREE: &str =
    "split 2\nsplit 2\ncut 1\nsplit 1\ncut 1 1 0\nsplit 2\nsplit 1\ncut 0 1 0\ncut 1\n";

/// The head of the cycle's certificates, with the goal and the replacement.
const CYCLE_HEAD: &str =
    "movcert 1\nrule condorcet\nsize 3 3\nreported none\nmargin 1\ngoal cover 0\nput 2 0\n";

/// What `check` says of a certificate that is joined of parts.
fn says(
    rt: &impl Abort,
    alloc: Global,
    ballots: &[u8],
    parts: [&str; 4],
    ends: (u8, &str, &str),
) -> Result<(), Fail> {
    let mut cert = String::new(alloc);
    for part in parts {
        cert.push_str(part)?;
    }
    let ends = (ends.0, ends.1.as_bytes(), ends.2.as_bytes());
    expect_run(
        rt,
        alloc,
        &["check", "F", "C"],
        ballots,
        cert.as_bytes(),
        ends,
    )
}

#[test]
fn verdicts_on_runoffs(rt: HostRuntime) -> Result<(), Fail> {
    let table = [
        (
            "margin 1\n",
            RUNOFF_TURN,
            RUNOFF_TREE,
            "VALID\nrule irv\nmargin 1\n",
        ),
        (
            "margin 1\n",
            "goal order 1 0 2\nput 6 2\n",
            "split 2\nsplit 2\ncut 2\nsplit 1\ncut 1 0 0\nsplit 2\nsplit 1\ncut 0 5 0\ncut 1\n",
            "VALID\nrule irv\nmargin 1\n",
        ),
        (
            "bounds 0 2 budget 1\n",
            "goal order 0 2 1\nput 1 1\nput 2 1\n",
            "cut\n",
            "VALID\nrule irv\nbounds 0 2 budget 1\n",
        ),
        (
            "margin 1\n",
            RUNOFF_TURN,
            "split 2\nsplit 2\ncut 1\nsplit 1\ncut 1 1 0\nsplit 2\nsplit 1\ncut 0 0 0\ncut 1\n",
            "REFUSED 6 CutFails line 15\n",
        ),
        (
            "margin 1\n",
            "goal order 0 2 1\nput 13 2\n",
            RUNOFF_TREE,
            "REFUSED 3 BadAlteration line 7\n",
        ),
        (
            "margin 1\n",
            "goal order 0 2 1\nput 1 0\n",
            RUNOFF_TREE,
            "REFUSED 4 ClaimFails line 6\n",
        ),
        (
            "bounds 1 1 budget 5\n",
            RUNOFF_TURN,
            RUNOFF_TREE,
            "REFUSED 7 NumbersDisagree line 5\n",
        ),
    ];
    for (claim, turn, tree, out) in table {
        let status = if out.starts_with("VALID") { 0 } else { 2 };
        says(
            &rt,
            rt.alloc(),
            RUNOFF,
            [RUNOFF_HEAD, claim, turn, tree],
            (status, out, ""),
        )?;
    }
    Ok(())
}

#[test]
fn verdicts_on_cycles(rt: HostRuntime) -> Result<(), Fail> {
    let table = [
        (
            "split 3\ncut 0 1\ncut 1 0\ncut 0 1\n",
            "VALID\nrule condorcet\nmargin 1\n",
        ),
        (
            "split 3\nbranch from 7 0\ncut 0 1 0\ncut 0 0 1\ncut 1 0\ncut 0 1\n",
            "VALID\nrule condorcet\nmargin 1\n",
        ),
        (
            "split 2\ncut 0 1\ncut 1 0\n",
            "REFUSED 5 ShapeDiffers line 8\n",
        ),
        (
            "split 3\nbranch arc 0 1 0\ncut 0 1 0\ncut 0 0 1\ncut 1 0\ncut 0 1\n",
            "REFUSED 5 ShapeDiffers line 9\n",
        ),
    ];
    for (tree, out) in table {
        let status = if out.starts_with("VALID") { 0 } else { 2 };
        says(
            &rt,
            rt.alloc(),
            CYCLE,
            [CYCLE_HEAD, tree, "", ""],
            (status, out, ""),
        )?;
    }
    Ok(())
}

/// Two candidates, one replacement more than the bound, and a tree with a branch whose low half alone passes at three.
#[test]
fn limits_on_keys_and_arcs(rt: HostRuntime) -> Result<(), Fail> {
    let head = "movcert 1\nrule irv\nsize 2 7\nreported 0\nbounds 3 4 budget 9\n";
    let turn = "goal order 0 1\nput 1 1\nput 2 1\nput 3 1\nput 4 1\nsplit 1\nsplit 1\n";
    for branch in ["branch arc 0 2 0\n", "branch from 1 1\n"] {
        let ends = (2, "REFUSED 6 CutFails line 15\n", "");
        says(
            &rt,
            rt.alloc(),
            FIVE_TWO,
            [head, turn, branch, "cut 1 2\ncut 1 0\n"],
            ends,
        )?;
        let ends = (2, "REFUSED 6 CutFails line 14\n", "");
        says(
            &rt,
            rt.alloc(),
            FIVE_TWO,
            [head, turn, branch, "cut 1 0\ncut 1 2\n"],
            ends,
        )?;
    }
    Ok(())
}

#[test]
fn heads_and_ends_of_a_runoff(rt: HostRuntime) -> Result<(), Fail> {
    let rest = [RUNOFF_TURN, RUNOFF_TREE];
    for (head, out) in [
        (
            "movcert 1\nrule irv\nsize 3 13\nreported 0\nmargin 1\n",
            "REFUSED 1 HeadDiffers line 3\n",
        ),
        (
            "movcert 1\nrule irv\nsize 3 12\nreported 1\nmargin 1\n",
            "REFUSED 2 ReportedDiffers line 4\n",
        ),
    ] {
        says(
            &rt,
            rt.alloc(),
            RUNOFF,
            [head, rest[0], rest[1], ""],
            (2, out, ""),
        )?;
    }
    let short = "split 2\nsplit 2\ncut 1\nsplit 1\ncut 1 1 0\nsplit 2\nsplit 1\ncut 0 1 0\n";
    let ends = (5, "", "mov: certificate: line 16: tree ends\n");
    says(
        &rt,
        rt.alloc(),
        RUNOFF,
        [RUNOFF_HEAD, "margin 1\n", RUNOFF_TURN, short],
        ends,
    )
}

#[test]
fn the_first_fault_decides(rt: HostRuntime) -> Result<(), Fail> {
    let check: &[&str] = &["check", "F", "C"];
    let two_spaces: &[u8] =
        b"movcert 1\nrule  plurality\nsize 2 7\nreported 0\nmargin 2\ngoal pair 1 0\nput 1 1\nput 2 1\nsplit 1\ncut 1\n";
    let table: [(&[&str], &[u8], &[u8], u8, &[u8]); 8] = [
        (
            check,
            FIVE_TWO,
            two_spaces,
            5,
            b"mov: certificate: line 2: bad line\n",
        ),
        (
            check,
            FIVE_TWO,
            b"movcert 1\nrule plurality\nsize 2 7\nreported 0\nmargin 02\ngoal pair 1 0\nput 1 1\nput 2 1\nsplit 1\ncut 1\n",
            5,
            b"mov: certificate: line 5: bad number\n",
        ),
        (
            check,
            FIVE_TWO,
            b"movcert 1\nrule plurality\nsize 2 7\nreported 0\nmargin 2\ngoal pair 1 0\nput 1 1\nput 2 1\nsplit 1\ncut 1\ncut 1\n",
            5,
            b"mov: certificate: line 11: tail\n",
        ),
        (
            check,
            b"ballots,A,B\n05,A\n",
            two_spaces,
            4,
            b"mov: ballots: record 2: bad count\n",
        ),
        (
            &["check", "F", "G"],
            FIVE_TWO,
            b"",
            6,
            b"mov: read failed: G\n",
        ),
        (
            &["check", "F", "G"],
            b"",
            b"",
            4,
            b"mov: ballots: record 1: empty\n",
        ),
        (&["check", "E", "G"], b"", b"", 6, b"mov: read failed: E\n"),
        (
            &["check", "F"],
            b"",
            b"",
            3,
            b"mov: words: wrong arguments\n",
        ),
    ];
    for (words, ballots, cert, number, err) in table {
        let ends = (number, b"".as_slice(), err);
        expect_run(&rt, rt.alloc(), words, ballots, cert, ends)?;
    }
    Ok(())
}

/// The certificate of five against two with another tree: a line so many times, then the line `cut` so many times.
fn with_tree(alloc: Global, line: &[u8], lines: u32, cuts: u32) -> Result<Vec<u8>, Fail> {
    let mut text = Vec::from_slice(
        alloc,
        b"movcert 1\nrule plurality\nsize 2 7\nreported 0\nmargin 2\ngoal pair 1 0\nput 1 1\nput 2 1\n",
    )?;
    for _ in 0..lines {
        text.extend_from_slice(line)?;
    }
    for _ in 0..cuts {
        text.extend_from_slice(b"cut\n")?;
    }
    Ok(text)
}

#[test]
fn trees_past_their_limits(rt: HostRuntime) -> Result<(), Fail> {
    let alloc = rt.alloc();
    let table: [(&[u8], u32, u32, &[u8]); 2] = [
        (
            b"split 1\n",
            257,
            1,
            b"mov: certificate: line 265: too deep\n",
        ),
        (
            b"split 1560\n",
            100,
            99_901,
            b"mov: certificate: line 100009: too many nodes\n",
        ),
    ];
    for (line, lines, cuts, err) in table {
        let mut files = MemFiles::new(alloc, 16_384, Vec::new(alloc));
        files.add("F", Vec::from_slice(alloc, FIVE_TWO)?)?;
        files.add("C", with_tree(alloc, line, lines, cuts)?)?;
        let ends = (5, b"".as_slice(), err);
        expect_over(&rt, alloc, &["check", "F", "C"], &mut files, ends)?;
    }
    Ok(())
}

#[test]
fn a_certificate_of_instant_runoff_cut_short(rt: HostRuntime) -> Result<(), Fail> {
    expect_run(
        &rt,
        rt.alloc(),
        &["check", "F", "C"],
        b"ballots,A,B,C\n5,A\n4,B,C\n3,C,A\n",
        b"movcert 1\nrule irv\nsize 3 12\nreported 0\nmargin 1\ngoal order 0 2 1\nput 1 2\nsplit 2\nsplit 2\ncut 1\nsplit 1\ncut 1 1 0\nsplit 2\nsplit 1\ncut 0 1 0\n",
        (5, b"", b"mov: certificate: line 16: tree ends\n"),
    )
}

/// The ballot file is begun by the first call, and read by the next four, eight bytes at most each.
#[test]
fn a_failed_call_names_its_file(rt: HostRuntime) -> Result<(), Fail> {
    let alloc = rt.alloc();
    let table: [(u32, &[u8]); 4] = [
        (1, b"mov: read failed: F\n"),
        (5, b"mov: read failed: F\n"),
        (6, b"mov: read failed: C\n"),
        (7, b"mov: read failed: C\n"),
    ];
    for (call, err) in table {
        let mut files = MemFiles::new(alloc, 8, vec![in alloc; call]?);
        files.add("F", Vec::from_slice(alloc, FIVE_TWO)?)?;
        files.add("C", with_tree(alloc, b"cut\n", 1, 0)?)?;
        let ends = (6, b"".as_slice(), err);
        expect_over(&rt, alloc, &["check", "F", "C"], &mut files, ends)?;
    }
    Ok(())
}
