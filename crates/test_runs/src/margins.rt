// Whole runs of `margin`, each certificate then judged by `check`.
use crate::runs::words_of;
use mov_edge::{MemFiles, MemSink};
use mov_run::run;
use std::alloc::Global;
use std::process::Abort;
use std::test::Fail;

/// Runs `margin` on the ballots in the file `F`, compares the certificate and the status, and then `check` of it in the file
/// `C`, which is to say that it is valid.
fn expect_valid<R: Abort>(
    rt: &R,
    alloc: Global,
    words: &[&str],
    ballots: &[u8],
    ends: u8,
    cert: &[u8],
    verdict: &[u8],
) -> Result<(), Fail> {
    let mut files = MemFiles::new(alloc, 1000, Vec::new(alloc));
    files.add("F", Vec::from_slice(alloc, ballots)?)?;
    files.add("C", Vec::from_slice(alloc, cert)?)?;
    expect_text(rt, alloc, words, &mut files, ends, cert)?;
    expect_text(rt, alloc, &["check", "F", "C"], &mut files, 0, verdict)
}

/// Runs the words over the files, and compares what went out, and the status.
fn expect_text<R: Abort>(
    rt: &R,
    alloc: Global,
    words: &[&str],
    files: &mut MemFiles,
    ends: u8,
    text: &[u8],
) -> Result<(), Fail> {
    let mut output = MemSink::new(alloc, 500_000, 100_000, Vec::new(alloc))?;
    let mut error = MemSink::new(alloc, 1000, 10, Vec::new(alloc))?;
    let words = words_of(alloc, words)?;
    let status = run(alloc, words.as_slice(), files, &mut output, &mut error);
    assert_eq!(rt; error.taken(), b"".as_slice(), "of {words:?}");
    assert_eq!(rt; output.taken(), text, "of {words:?}");
    assert_eq!(rt; status.number(), ends, "of {words:?}");
    Ok(())
}

#[test]
fn margins_of_small_contests(rt: HostRuntime) -> Result<(), Fail> {
    let plurality: &[&str] = &["margin", "plurality", "F"];
    let borda: &[&str] = &["margin", "borda", "F"];
    let seats: &[&str] = &["margin", "dhondt", "F", "--seats", "3"];
    let irv: &[&str] = &["margin", "irv", "F"];
    let table: [(&[&str], &[u8], &[u8], &[u8]); 6] = [
        (
            irv,
            b"ballots,A\n7,A\n",
            b"movcert 1\nrule irv\nsize 1 7\nreported 0\nfixed\nsplit 0\n",
            b"VALID\nrule irv\nfixed\n",
        ),
        (
            plurality,
            b"ballots,A,B\n",
            b"movcert 1\nrule plurality\nsize 2 0\nreported 0\nmargin 0\ngoal pair 1 0\ncut\n",
            b"VALID\nrule plurality\nmargin 0\n",
        ),
        (
            seats,
            b"ballots,A,B\n",
            b"movcert 1\nrule dhondt 3\nsize 2 0\nreported 3 0\nmargin 0\ngoal pair 1 0\ncut\n",
            b"VALID\nrule dhondt 3\nmargin 0\n",
        ),
        (
            borda,
            b"ballots,A,B,C\n3,A,B,C\n2,B,C,A\n",
            b"movcert 1\nrule borda\nsize 3 5\nreported 1\nmargin 1\ngoal pair 0 1\nput 4 0\nsplit 2\ncut 1\ncut 1\n",
            b"VALID\nrule borda\nmargin 1\n",
        ),
        (
            seats,
            b"ballots,A,B\n6,A\n3,B\n",
            b"movcert 1\nrule dhondt 3\nsize 2 9\nreported 2 1\nmargin 1\ngoal pair 0 1\nput 7 0\nsplit 2\ncut 1\ncut 1\n",
            b"VALID\nrule dhondt 3\nmargin 1\n",
        ),
        (
            borda,
            b"ballots,A\n7,A\n",
            b"movcert 1\nrule borda\nsize 1 7\nreported 0\nfixed\nsplit 0\n",
            b"VALID\nrule borda\nfixed\n",
        ),
    ];
    for (words, ballots, cert, verdict) in table {
        expect_valid(&rt, rt.alloc(), words, ballots, 0, cert, verdict)?;
    }
    Ok(())
}

#[test]
fn seats_of_a_whole_election(rt: HostRuntime) -> Result<(), Fail> {
    let alloc = rt.alloc();
    let mut cert = Vec::from_slice(
        alloc,
        b"movcert 1\nrule dhondt 7\nsize 4 840000\nreported 3 3 1 0\nmargin 14286\ngoal pair 0 1\n",
    )?;
    for number in 340_001u32..354_287 {
        cert.extend_from_slice(format!(in alloc; "put {number} 0\n")?.as_bytes())?;
    }
    cert.extend_from_slice(b"split 9\n")?;
    for _ in 0..9 {
        cert.extend_from_slice(b"cut 1\n")?;
    }
    expect_valid(
        &rt,
        alloc,
        &["margin", "dhondt", "F", "--seats", "7"],
        b"ballots,North,South,East,West\n340000,North\n280000,South\n160000,East\n60000,West\n",
        0,
        cert.as_slice(),
        b"VALID\nrule dhondt 7\nmargin 14286\n",
    )
}

#[test]
fn margins_of_cycles_and_runoffs(rt: HostRuntime) -> Result<(), Fail> {
    let condorcet: &[&str] = &["margin", "condorcet", "F"];
    let irv: &[&str] = &["margin", "irv", "F"];
    let twelve =
        b"movcert 1\nrule irv\nsize 3 12\nreported 0\nmargin 1\ngoal order 0 2 1\nput 1 2\nsplit 2\nsplit 2\ncut 1\nsplit 1\ncut 1 1 0\nsplit 2\nsplit 1\ncut 0 1 0\ncut 1\n";
    let table: [(&[&str], u8, &[u8], &[u8], &[u8]); 4] = [
        (
            condorcet,
            0,
            b"ballots,A,B,C\n1,A,B,C\n1,B,C,A\n1,C,A,B\n",
            b"movcert 1\nrule condorcet\nsize 3 3\nreported none\nmargin 1\ngoal cover 0\nput 2 0\nsplit 3\ncut 0 1\ncut 1 0\ncut 0 1\n",
            b"VALID\nrule condorcet\nmargin 1\n",
        ),
        (
            irv,
            0,
            b"ballots,A,B,C\n5,A\n4,B,C\n3,C,A\n",
            twelve,
            b"VALID\nrule irv\nmargin 1\n",
        ),
        (
            irv,
            0,
            b"\xEF\xBB\xBFballots,A,B,C,\r\n5,A,,A\r\n4,B,C\r\n3,C,A\r\n,,,\r\n",
            twelve,
            b"VALID\nrule irv\nmargin 1\n",
        ),
        (
            irv,
            0,
            b"ballots,A,B,C\n4,A\n3,B,C\n3,C,A\n",
            b"movcert 1\nrule irv\nsize 3 10\nreported 0\nmargin 0\ngoal order 1 0 2\nsplit 2\nsplit 2\ncut 1\nsplit 1\ncut 1 1 0\nsplit 2\nsplit 1\ncut 0 0 0\ncut 0\n",
            b"VALID\nrule irv\nmargin 0\n",
        ),
    ];
    for (words, ends, ballots, cert, verdict) in table {
        expect_valid(&rt, rt.alloc(), words, ballots, ends, cert, verdict)?;
    }
    Ok(())
}

#[test]
fn a_budget_of_one(rt: HostRuntime) -> Result<(), Fail> {
    let table: [&[&str]; 3] = [
        &["margin", "irv", "F", "--budget", "1"],
        &["margin", "irv", "F", "--budget=1"],
        &["margin", "--budget", "1", "irv", "F"],
    ];
    for words in table {
        expect_valid(
            &rt,
            rt.alloc(),
            words,
            b"ballots,A,B,C\n5,A\n4,B,C\n3,C,A\n",
            1,
            b"movcert 1\nrule irv\nsize 3 12\nreported 0\nbounds 0 2 budget 1\ngoal order 0 2 1\nput 1 1\nput 2 1\ncut\n",
            b"VALID\nrule irv\nbounds 0 2 budget 1\n",
        )?;
    }
    Ok(())
}

#[test]
fn a_drill_of_seven(rt: HostRuntime) -> Result<(), Fail> {
    let alloc = rt.alloc();
    for _ in 0..2 {
        let mut files = MemFiles::new(alloc, 1000, Vec::new(alloc));
        expect_text(
            &rt,
            alloc,
            &["drill", "7"],
            &mut files,
            0,
            b"drill 7\nsize 5 10000\nplurality margin 347 nodes 5\nborda margin 336 nodes 5\ncondorcet margin 578 nodes 5\ndhondt 7 margin 88 nodes 17\nirv margin 578 nodes 52\n",
        )?;
    }
    Ok(())
}
