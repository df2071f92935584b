//! The program `mov`: it makes the real files and streams and hands them, with the words of the command line, to the top call,
//! which does all the rest. It stands on `mov_run` and `mov_edge`.
#![tactic(auto)]

use mov_edge::{DiskFiles, Sink, StdSink, write_whole};
use mov_run::{Status, run};
use std::alloc::Global;
use std::io::ErrorKind;
use std::process::ExitCode;
use std::{env, io};

/// Runs the program and ends with the number of its status.
fn main(rt: HostRuntime) -> ExitCode {
    let mut files = DiskFiles::new(rt);
    let mut out = StdSink::output(rt.stdout());
    let mut err = StdSink::error(rt.stderr());
    let status = match words(rt) {
        Ok(words) => run(rt.alloc(), words.as_slice(), &mut files, &mut out, &mut err),
        Err(fault) => unread_words(fault.kind(), &mut err),
    };
    ExitCode::from(status.number())
}

/// The words after the program's own name.
fn words(rt: HostRuntime) -> io::Result<Vec<String>> {
    let alloc: Global = rt.alloc();
    let mut words = Vec::new(alloc);
    for word in env::args(&rt)?.skip(1) {
        words.push(word)?;
    }
    Ok(words)
}

/// Words that are no text are wrong arguments.
fn unread_words<E: Sink>(kind: ErrorKind, err: &mut E) -> Status {
    if kind == ErrorKind::OutOfMemory {
        let _ = write_whole(err, b"mov: out of memory\n");
        Status::Memory
    } else {
        let _ = write_whole(err, b"mov: words: wrong arguments\n");
        Status::Words
    }
}
