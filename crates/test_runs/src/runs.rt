// Whole runs over files and sinks in memory: the texts, the fault lines, the statuses, and calls of the outside that fail.
use mov_edge::{MemFiles, MemSink};
use mov_run::run;
use std::alloc::{AllocError, Global};
use std::process::Abort;
use std::test::Fail;

/// The words as the program gets them.
pub(crate) fn words_of(alloc: Global, words: &[&str]) -> Result<Vec<String>, AllocError> {
    let mut all = Vec::new(alloc);
    for word in words {
        all.push(String::from_str(alloc, word)?)?;
    }
    Ok(all)
}

/// Runs the words where the file `F` holds the text, and compares the status and what went out.
pub(crate) fn expect<R: Abort>(
    rt: &R,
    alloc: Global,
    words: &[&str],
    text: &[u8],
    number: u8,
    out: &[u8],
    err: &[u8],
) -> Result<(), Fail> {
    let mut files = MemFiles::new(alloc, 8, Vec::new(alloc));
    files.add("F", Vec::from_slice(alloc, text)?)?;
    let mut output = MemSink::new(alloc, 4000, 1000, Vec::new(alloc))?;
    let mut error = MemSink::new(alloc, 4000, 10, Vec::new(alloc))?;
    let words = words_of(alloc, words)?;
    let status = run(alloc, words.as_slice(), &mut files, &mut output, &mut error);
    assert_eq!(rt; output.taken(), out, "of {words:?}");
    assert_eq!(rt; error.taken(), err, "of {words:?}");
    assert_eq!(rt; status.number(), number, "of {words:?}");
    Ok(())
}

#[test]
fn the_margin_under_plurality(rt: HostRuntime) -> Result<(), Fail> {
    let table: [(&[u8], &[u8]); 7] = [
        (
            b"ballots,A,B\n5,A\n2,B\n",
            b"movcert 1\nrule plurality\nsize 2 7\nreported 0\nmargin 2\ngoal pair 1 0\nput 1 1\nput 2 1\nsplit 1\ncut 1\n",
        ),
        (
            b"ballots,A,B\n3,A\n3,B\n",
            b"movcert 1\nrule plurality\nsize 2 6\nreported 0\nmargin 0\ngoal pair 1 0\ncut\n",
        ),
        (
            b"ballots,A,B\n5,A\n4\n",
            b"movcert 1\nrule plurality\nsize 2 9\nreported 0\nmargin 3\ngoal pair 1 0\nput 1 1\nput 2 1\nput 3 1\nsplit 1\ncut 1\n",
        ),
        (
            b"ballots,A,B\n",
            b"movcert 1\nrule plurality\nsize 2 0\nreported 0\nmargin 0\ngoal pair 1 0\ncut\n",
        ),
        (
            b"ballots,A\n7,A\n",
            b"movcert 1\nrule plurality\nsize 1 7\nreported 0\nfixed\nsplit 0\n",
        ),
        (
            b"ballots,A,B,C\n1,A\n4,B\n2,C\n1\n",
            b"movcert 1\nrule plurality\nsize 3 8\nreported 1\nmargin 1\ngoal pair 2 1\nput 2 2\nsplit 2\ncut 1\ncut 1\n",
        ),
        (
            b"ballots,A,B,C\n2,B,A\n2,C\n1,A,B,C\n3,B\n",
            b"movcert 1\nrule plurality\nsize 3 8\nreported 1\nmargin 2\ngoal pair 0 1\nput 1 0\nput 2 0\nsplit 2\ncut 1\ncut 1\n",
        ),
    ];
    for (text, out) in table {
        expect(
            &rt,
            rt.alloc(),
            &["margin", "plurality", "F"],
            text,
            0,
            out,
            b"",
        )?;
    }
    Ok(())
}

#[test]
fn a_ballot_file_is_shown_plain(rt: HostRuntime) -> Result<(), Fail> {
    expect(
        &rt,
        rt.alloc(),
        &["show", "F"],
        b"\xEF\xBB\xBFballots,A,B,C,\r\n5,A,,A\r\n4,B,C\r\n3,C,A\r\n,,,\r\n",
        0,
        b"ballots,A,B,C\n5,A\n4,B,C\n3,C,A\n",
        b"",
    )?;
    expect(
        &rt,
        rt.alloc(),
        &["show", "F"],
        b"ballots,\"A, B\",C\n2,\"A, B\"\n",
        0,
        b"ballots,\"A, B\",C\n2,\"A, B\"\n",
        b"",
    )
}

#[test]
fn faults_are_told_in_one_line(rt: HostRuntime) -> Result<(), Fail> {
    let margin: &[&str] = &["margin", "plurality", "F"];
    let table: [(&[&str], &[u8], u8, &[u8]); 12] = [
        (&[], b"", 3, b"mov: words: no command\n"),
        (&["count", "F"], b"", 3, b"mov: words: unknown command\n"),
        (
            &["margin", "plurality"],
            b"",
            3,
            b"mov: words: wrong arguments\n",
        ),
        (
            &["margin", "stv", "F"],
            b"",
            3,
            b"mov: words: unknown rule\n",
        ),
        (&["show"], b"", 3, b"mov: words: wrong arguments\n"),
        (&["show", "G"], b"", 6, b"mov: read failed: G\n"),
        (margin, b"", 4, b"mov: ballots: record 1: empty\n"),
        (
            margin,
            b"votes,A\n",
            4,
            b"mov: ballots: record 1: bad head\n",
        ),
        (
            margin,
            b"ballots,A\n007,A\n",
            4,
            b"mov: ballots: record 2: bad count\n",
        ),
        (
            margin,
            b"ballots,A\n1,A\n1,Z\n",
            4,
            b"mov: ballots: record 3: unknown name\n",
        ),
        (
            margin,
            b"ballots,A\n1000001,A\n",
            4,
            b"mov: ballots: record 2: too many ballots\n",
        ),
        (
            margin,
            b"ballots,A,A\n",
            4,
            b"mov: ballots: record 1: name twice\n",
        ),
    ];
    for (words, text, number, err) in table {
        expect(&rt, rt.alloc(), words, text, number, b"", err)?;
    }
    Ok(())
}

#[test]
fn the_second_write_fails(rt: HostRuntime) -> Result<(), Fail> {
    let alloc = rt.alloc();
    let mut files = MemFiles::new(alloc, 8, Vec::new(alloc));
    files.add("F", Vec::from_slice(alloc, b"ballots,A,B\n5,A\n2,B\n")?)?;
    let mut output = MemSink::new(alloc, 4000, 10, vec![in alloc; 2]?)?;
    let mut error = MemSink::new(alloc, 4000, 10, Vec::new(alloc))?;
    let words = words_of(alloc, &["margin", "plurality", "F"])?;
    let status = run(alloc, words.as_slice(), &mut files, &mut output, &mut error);
    assert_eq!(rt; status.number(), 7);
    assert_eq!(rt; output.taken(), b"movcert 1\n".as_slice());
    assert_eq!(rt; error.taken(), b"mov: write failed\n".as_slice());
    Ok(())
}

/// Runs the words without any file, where this call of the error sink fails, and compares the status and what it took.
fn expect_cut<R: Abort>(
    rt: &R,
    alloc: Global,
    words: &[&str],
    call: u32,
    number: u8,
    err: &[u8],
) -> Result<(), Fail> {
    let mut files = MemFiles::new(alloc, 8, Vec::new(alloc));
    let mut output = MemSink::new(alloc, 100, 10, Vec::new(alloc))?;
    let mut error = MemSink::new(alloc, 100, 10, vec![in alloc; call]?)?;
    let words = words_of(alloc, words)?;
    let status = run(alloc, words.as_slice(), &mut files, &mut output, &mut error);
    assert_eq!(rt; status.number(), number, "of {words:?}");
    assert!(rt; output.taken().is_empty());
    assert_eq!(rt; error.taken(), err, "of {words:?}");
    Ok(())
}

#[test]
fn the_status_stays_where_the_line_is_cut(rt: HostRuntime) -> Result<(), Fail> {
    let show: &[&str] = &["show", "G"];
    let table: [(&[&str], u32, u8, &[u8]); 4] = [
        (&[], 1, 3, b""),
        (&[], 2, 3, b"mov: words"),
        (show, 1, 6, b""),
        (show, 3, 6, b"mov: read failed: "),
    ];
    for (words, call, number, err) in table {
        expect_cut(&rt, rt.alloc(), words, call, number, err)?;
    }
    Ok(())
}

#[test]
fn the_third_call_of_the_files_fails(rt: HostRuntime) -> Result<(), Fail> {
    let alloc = rt.alloc();
    let mut files = MemFiles::new(alloc, 8, vec![in alloc; 3]?);
    files.add("F", Vec::from_slice(alloc, b"ballots,A,B\n5,A\n2,B\n")?)?;
    let mut output = MemSink::new(alloc, 4000, 10, Vec::new(alloc))?;
    let mut error = MemSink::new(alloc, 4000, 10, Vec::new(alloc))?;
    let words = words_of(alloc, &["margin", "plurality", "F"])?;
    let status = run(alloc, words.as_slice(), &mut files, &mut output, &mut error);
    assert_eq!(rt; status.number(), 6);
    assert!(rt; output.taken().is_empty());
    assert_eq!(rt; error.taken(), b"mov: read failed: F\n".as_slice());
    Ok(())
}

#[test]
fn a_million_ballots(rt: HostRuntime) -> Result<(), Fail> {
    let alloc = rt.alloc();
    let mut files = MemFiles::new(alloc, 1000, Vec::new(alloc));
    files.add(
        "F",
        Vec::from_slice(alloc, b"ballots,A,B\n600000,A\n400000,B\n")?,
    )?;
    let mut output = MemSink::new(alloc, 2_000_000, 1_000_000, Vec::new(alloc))?;
    let mut error = MemSink::new(alloc, 100, 10, Vec::new(alloc))?;
    let words = words_of(alloc, &["margin", "plurality", "F"])?;
    let status = run(alloc, words.as_slice(), &mut files, &mut output, &mut error);
    let head =
        b"movcert 1\nrule plurality\nsize 2 1000000\nreported 0\nmargin 100000\ngoal pair 1 0\nput 1 1\n".as_slice();
    assert_eq!(rt; status.number(), 0);
    assert_eq!(rt; output.taken().len(), 1_188_988);
    assert!(rt; output.taken().starts_with(head));
    assert!(rt;
        output
            .taken()
            .ends_with(b"put 99999 1\nput 100000 1\nsplit 1\ncut 1\n".as_slice())
    );
    Ok(())
}
