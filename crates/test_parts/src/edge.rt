// A file and a text, moved whole and cut short: in memory and across the system.
use mov_base::Memory;
use mov_edge::{DiskFiles, Failed, LoadFault, MemFiles, MemSink, StdSink, read_whole, write_whole};
use std::fs;
use std::test::Fail;

const BALLOTS: &[u8] = b"ballots,A,B\n5,A\n2,B\n";

const CERTIFICATE: &[u8] =
    b"movcert 1\nrule plurality\nsize 2 7\nreported 0\nmargin 2\ngoal pair 1 0\nput 1 1\nput 2 1\nsplit 1\ncut 1\n";

/// The ballots as the file `votes`, in pieces of 8 bytes, with one failing call.
fn votes(rt: HostRuntime, failing: u32) -> Result<MemFiles, Memory> {
    let alloc = rt.alloc();
    let mut files = MemFiles::new(alloc, 8, vec![in alloc; failing]?);
    files.add("votes", Vec::from_slice(alloc, BALLOTS)?)?;
    Ok(files)
}

#[test]
fn a_file_and_a_text_in_memory(rt: HostRuntime) -> Result<(), Fail> {
    let alloc = rt.alloc();
    // Its twenty bytes take five calls: one to begin, 8 bytes, 8 bytes, 4 bytes, and the end.
    for failing in 1..=5 {
        let mut files = votes(rt, failing)?;
        let read = read_whole(alloc, &mut files, "votes", 1000);
        assert_eq!(rt; read.err(), Some(LoadFault::Failed), "at {failing}");
    }
    let mut files = votes(rt, 6)?;
    let bytes = read_whole(alloc, &mut files, "votes", 20)?;
    assert_eq!(rt; bytes.as_slice(), BALLOTS);
    let again = read_whole(alloc, &mut files, "votes", 20);
    assert_eq!(rt; again.err(), Some(LoadFault::Failed));
    let long = read_whole(alloc, &mut files, "votes", 19);
    assert_eq!(rt; long.err(), Some(LoadFault::TooLong));
    let other = read_whole(alloc, &mut files, "other", 1000);
    assert_eq!(rt; other.err(), Some(LoadFault::Failed));

    let mut sink = MemSink::new(alloc, 200, 10, Vec::new(alloc))?;
    assert_eq!(rt; write_whole(&mut sink, CERTIFICATE), Ok(()));
    assert_eq!(rt; sink.taken(), CERTIFICATE);
    let mut cut = MemSink::new(alloc, 200, 10, vec![in alloc; 2]?)?;
    assert_eq!(rt; write_whole(&mut cut, CERTIFICATE), Err(Failed));
    assert_eq!(rt; cut.taken(), b"movcert 1\n".as_slice());
    let mut full = MemSink::new(alloc, 14, 10, Vec::new(alloc))?;
    assert_eq!(rt; write_whole(&mut full, CERTIFICATE), Err(Failed));
    assert_eq!(rt; full.taken(), b"movcert 1\nrule".as_slice());
    assert_eq!(rt; write_whole(&mut full, b""), Ok(()));
    Ok(())
}

#[test]
fn files_and_streams_of_the_system(rt: HostRuntime) -> Result<(), Fail> {
    let alloc = rt.alloc();
    let long = vec![in alloc; 7u8; 40_000]?;
    fs::write(&rt, "votes", BALLOTS)?;
    fs::write(&rt, "long", long.as_slice())?;
    let mut files = DiskFiles::new(rt);
    let bytes = read_whole(alloc, &mut files, "votes", 1000)?;
    assert_eq!(rt; bytes.as_slice(), BALLOTS);
    let bytes = read_whole(alloc, &mut files, "long", 40_000)?;
    assert_eq!(rt; bytes.as_slice(), long.as_slice());
    // A folder can be opened but not read.
    for (name, fault) in [
        ("long", LoadFault::TooLong),
        ("missing", LoadFault::Failed),
        (".", LoadFault::Failed),
    ] {
        let read = read_whole(alloc, &mut files, name, 39_999);
        assert_eq!(rt; read.err(), Some(fault), "at {name}");
    }
    fs::remove_file(&rt, "votes")?;
    fs::remove_file(&rt, "long")?;

    let mut output = StdSink::output(rt.stdout());
    assert_eq!(rt; write_whole(&mut output, BALLOTS), Ok(()));
    let mut error = StdSink::error(rt.stderr());
    assert_eq!(rt; write_whole(&mut error, BALLOTS), Ok(()));
    Ok(())
}
