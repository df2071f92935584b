// Contests that a seed determines, in their plain form.
use ballot_csv::print_ballots;
use ballot_make::make;
use std::alloc::Global;
use std::test::Fail;

/// The plain form of a made contest.
fn made(alloc: Global, seed: u64, c: u8, n: u32) -> Result<Vec<u8>, Fail> {
    if c < 1 || c > 12 || n > 1_000_000 {
        return Err("past the limits".into());
    }
    Ok(print_ballots(alloc, &make(alloc, seed, c, n)?)?)
}

/// One candidate with a ballot for it, and with a blank one; two candidates with the ballot that ranks both in order,
/// since the first draw is 908834774.
#[test]
fn the_smallest_made_contests(rt: HostRuntime) -> Result<(), Fail> {
    let table: [(u64, u8, &[u8]); 3] = [
        (0, 1, b"ballots,C0\n1,C0\n"),
        (1, 1, b"ballots,C0\n1\n"),
        (1, 2, b"ballots,C0,C1\n1,C0,C1\n"),
    ];
    for (seed, c, text) in table {
        let found = made(rt.alloc(), seed, c, 1)?;
        assert_eq!(rt; found.as_slice(), text);
    }
    Ok(())
}
