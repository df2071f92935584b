// Whole runs of `tally`: its texts under each rule, and what is wrong with its words.
use crate::runs::expect;
use std::test::Fail;

#[test]
fn tallies_of_small_contests(rt: HostRuntime) -> Result<(), Fail> {
    let table: [(&[&str], &[u8], &[u8]); 8] = [
        (
            &["tally", "plurality", "F"],
            b"ballots,A,B\n5,A\n2,B\n",
            b"rule plurality\nsize 2 7\nname 0 A\nname 1 B\nscore 0 5\nscore 1 2\nreported 0\n",
        ),
        (
            &["tally", "borda", "F"],
            b"ballots,A,B,C\n3,A,B,C\n2,B,C,A\n",
            b"rule borda\nsize 3 5\nname 0 A\nname 1 B\nname 2 C\nscore 0 6\nscore 1 7\nscore 2 2\nreported 1\n",
        ),
        (
            &["tally", "condorcet", "F"],
            b"ballots,A,B,C\n1,A,B,C\n1,B,C,A\n1,C,A,B\n",
            b"rule condorcet\nsize 3 3\nname 0 A\nname 1 B\nname 2 C\npair 0 1 2 1\npair 0 2 1 2\npair 1 2 2 1\nreported none\n",
        ),
        (
            &["tally", "condorcet", "F"],
            b"ballots,A,B\n1,B\n1\n",
            b"rule condorcet\nsize 2 2\nname 0 A\nname 1 B\npair 0 1 0 1\nreported 1\n",
        ),
        (
            &["tally", "dhondt", "F", "--seats", "3"],
            b"ballots,A,B\n6,A\n3,B\n",
            b"rule dhondt 3\nsize 2 9\nname 0 A\nname 1 B\nvotes 0 6 seats 2\nvotes 1 3 seats 1\nreported 2 1\n",
        ),
        (
            &["tally", "irv", "F"],
            b"ballots,A,B,C\n5,A\n4,B,C\n3,C,A\n",
            b"rule irv\nsize 3 12\nname 0 A\nname 1 B\nname 2 C\nround 1 out 2 held 5 4 3\nround 2 out 1 held 8 4 -\nreported 0\n",
        ),
        (
            &["tally", "irv", "F"],
            b"ballots,A,B,C\n4,A\n3,B,C\n3,C,A\n",
            b"rule irv\nsize 3 10\nname 0 A\nname 1 B\nname 2 C\nround 1 out 2 held 4 3 3\nround 2 out 1 held 7 3 -\nreported 0\n",
        ),
        (
            &["tally", "irv", "F"],
            b"ballots,A\n7,A\n",
            b"rule irv\nsize 1 7\nname 0 A\nreported 0\n",
        ),
    ];
    for (words, text, out) in table {
        expect(&rt, rt.alloc(), words, text, 0, out, b"")?;
    }
    Ok(())
}

#[test]
fn what_is_wrong_with_the_words(rt: HostRuntime) -> Result<(), Fail> {
    let table: [(&[&str], &[u8]); 24] = [
        (&["drill"], b"wrong arguments"),
        (&["drill", "01"], b"bad seed"),
        (&["drill", "18446744073709551616"], b"bad seed"),
        (&["tally", "irv"], b"wrong arguments"),
        (&["tally", "dhondt", "F", "--seats"], b"wrong arguments"),
        (&["tally", "dhondt", "F", "--seat", "3"], b"wrong arguments"),
        (
            &["tally", "dhondt", "F", "--seats=3", "--seats=3"],
            b"wrong arguments",
        ),
        (
            &["tally", "dhondt", "F", "--seats", "3", "3"],
            b"wrong arguments",
        ),
        (&["tally", "stv", "F"], b"unknown rule"),
        (&["tally", "stv", "F", "--seats", "0"], b"unknown rule"),
        (&["tally", "dhondt", "F", "--seats", "0"], b"bad seats"),
        (&["tally", "dhondt", "F", "--seats", "501"], b"bad seats"),
        (&["tally", "dhondt", "F", "--seats", "03"], b"bad seats"),
        (&["tally", "dhondt", "F", "--seats", "+3"], b"bad seats"),
        (&["tally", "dhondt", "F", "--seats", ""], b"bad seats"),
        (&["tally", "irv", "F", "--seats", "65537"], b"bad seats"),
        (&["tally", "dhondt", "F"], b"seats missing"),
        (&["tally", "irv", "F", "--seats", "500"], b"seats unwanted"),
        (&["margin", "irv"], b"wrong arguments"),
        (
            &["margin", "irv", "F", "--budget", "1", "--budget", "2"],
            b"wrong arguments",
        ),
        (&["margin", "stv", "F"], b"unknown rule"),
        (&["margin", "irv", "F", "--seats", "3"], b"seats unwanted"),
        (&["margin", "irv", "F", "--budget", "0"], b"bad budget"),
        (&["margin", "irv", "F", "--budget", "40001"], b"bad budget"),
    ];
    for (words, fault) in table {
        let alloc = rt.alloc();
        let mut line = Vec::from_slice(alloc, b"mov: words: ")?;
        line.extend_from_slice(fault)?;
        line.push(b'\n')?;
        expect(
            &rt,
            alloc,
            words,
            b"ballots,A\n1,A\n",
            3,
            b"",
            line.as_slice(),
        )?;
    }
    Ok(())
}
