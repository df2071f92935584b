// Words of the command line: what they ask for, and what is wrong with them first.
use ballot_form::Rule;
use mov_words::{DEFAULT_BUDGET, Job, WordFault, parse};
use std::alloc::{AllocError, Global};
use std::test::Fail;

/// The words as the program gets them.
fn words_of(alloc: Global, words: &[&str]) -> Result<Vec<String>, AllocError> {
    let mut all = Vec::new(alloc);
    for word in words {
        all.push(String::from_str(alloc, word)?)?;
    }
    Ok(all)
}

/// What the words ask for.
fn job_of(alloc: Global, words: &[&str]) -> Result<Result<Job, WordFault>, AllocError> {
    let words = words_of(alloc, words)?;
    Ok(parse(alloc, words.as_slice()))
}

#[test]
fn options_stand_anywhere(rt: HostRuntime) -> Result<(), Fail> {
    let table: [(&[&str], Rule, u32); 6] = [
        (&["margin", "irv", "F", "--budget=1"], Rule::Irv, 1),
        (&["margin", "--budget", "1", "irv", "F"], Rule::Irv, 1),
        (&["margin", "irv", "F"], Rule::Irv, DEFAULT_BUDGET),
        (
            &["margin", "borda", "--budget=40000", "--", "F"],
            Rule::Borda,
            40_000,
        ),
        (
            &["margin", "dhondt", "--seats=500", "F", "--budget", "2"],
            Rule::Dhondt(500),
            2,
        ),
        (
            &["margin", "dhondt", "F", "--budget=2", "--seats", "1"],
            Rule::Dhondt(1),
            2,
        ),
    ];
    for (words, want, nodes) in table {
        match job_of(rt.alloc(), words)? {
            Ok(Job::Margin { rule, file, budget }) => {
                assert_eq!(rt; rule, want, "of {words:?}");
                assert_eq!(rt; budget, nodes, "of {words:?}");
                assert_eq!(rt; file.as_str(), "F", "of {words:?}");
            }
            other => assert!(rt; false, "{words:?} are {other:?}"),
        }
    }
    Ok(())
}

#[test]
fn the_other_commands(rt: HostRuntime) -> Result<(), Fail> {
    match job_of(rt.alloc(), &["tally", "dhondt", "F", "--seats=3"])? {
        Ok(Job::Tally { rule, file }) => {
            assert_eq!(rt; rule, Rule::Dhondt(3));
            assert_eq!(rt; file.as_str(), "F");
        }
        other => assert!(rt; false, "{other:?}"),
    }
    match job_of(rt.alloc(), &["check", "F", "C"])? {
        Ok(Job::Check { file, cert }) => {
            assert_eq!(rt; (file.as_str(), cert.as_str()), ("F", "C"));
        }
        other => assert!(rt; false, "{other:?}"),
    }
    match job_of(rt.alloc(), &["show", "--", "--seats"])? {
        Ok(Job::Show { file }) => assert_eq!(rt; file.as_str(), "--seats"),
        other => assert!(rt; false, "{other:?}"),
    }
    let seeds: [(&str, u64); 2] = [("0", 0), ("18446744073709551615", u64::MAX)];
    for (text, want) in seeds {
        match job_of(rt.alloc(), &["drill", text])? {
            Ok(Job::Drill { seed }) => assert_eq!(rt; seed, want),
            other => assert!(rt; false, "{other:?}"),
        }
    }
    Ok(())
}

#[test]
fn the_first_fault_is_told(rt: HostRuntime) -> Result<(), Fail> {
    let table: [(&[&str], WordFault); 29] = [
        (&[], WordFault::NoCommand),
        (&["count", "F"], WordFault::UnknownCommand),
        (&["--help"], WordFault::UnknownCommand),
        (&["margin", "irv"], WordFault::Line),
        (&["margin", "irv", "F", "G"], WordFault::Line),
        (&["margin", "irv", "F", "--budget"], WordFault::Line),
        (&["margin", "irv", "F", "--limit", "1"], WordFault::Line),
        (
            &["margin", "irv", "F", "--budget=1", "--budget=1"],
            WordFault::Line,
        ),
        (&["margin", "stv", "F", "--help"], WordFault::Line),
        (&["tally", "irv", "F", "--budget=1"], WordFault::Line),
        (&["tally", "--version"], WordFault::Line),
        (&["check", "F"], WordFault::Line),
        (&["show"], WordFault::Line),
        (&["drill", "-1"], WordFault::Line),
        (&["margin", "stv", "F"], WordFault::UnknownRule),
        (&["margin", "stv", "F", "--seats=0"], WordFault::UnknownRule),
        (
            &["margin", "dhondt", "F", "--seats", "0"],
            WordFault::BadSeats,
        ),
        (
            &["margin", "irv", "F", "--seats", "03"],
            WordFault::BadSeats,
        ),
        (
            &["tally", "dhondt", "F", "--seats=501"],
            WordFault::BadSeats,
        ),
        (&["tally", "dhondt", "F", "--seats="], WordFault::BadSeats),
        (&["margin", "dhondt", "F"], WordFault::SeatsMissing),
        (
            &["margin", "dhondt", "F", "--budget=0"],
            WordFault::SeatsMissing,
        ),
        (
            &["margin", "irv", "F", "--seats", "3"],
            WordFault::SeatsUnwanted,
        ),
        (
            &["margin", "irv", "F", "--budget", "40001"],
            WordFault::BadBudget,
        ),
        (
            &["margin", "irv", "F", "--budget", "0"],
            WordFault::BadBudget,
        ),
        (&["margin", "irv", "F", "--budget=+1"], WordFault::BadBudget),
        (&["drill", "01"], WordFault::BadSeed),
        (&["drill", "18446744073709551616"], WordFault::BadSeed),
        (&["drill", ""], WordFault::BadSeed),
    ];
    for (words, want) in table {
        match job_of(rt.alloc(), words)? {
            Ok(job) => assert!(rt; false, "{words:?} are {job:?}"),
            Err(fault) => assert_eq!(rt; fault, want, "of {words:?}"),
        }
    }
    Ok(())
}
