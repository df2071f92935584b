// The two output streams of the system.
ghost use Rattle.std.specs.Prelude.{◌≡◌, ◌≤◌, ◌<◌, IfOk, OnOk, OnErr, None, length};
ghost use Rattle.mov_edge.specs.Outside.{next_count};

use crate::faults::raise;
use crate::{Failed, Sink};
use std::io::{Stderr, Stdout, Write};
use std::marker::Model;

/// Where the bytes go.
#[derive(Clone, Copy)]
enum Stream {
    Output(Stdout),
    Error(Stderr),
}

/// The standard output or the standard error. What it took is not told. Each failure is counted.
///
/// There is no buffer: each call asks the system once, so that a fault is answered by the very call that it stopped.
#[derive(Drop)]
pub struct StdSink {
    stream: Stream,
    faults: u64,
}

impl Model for StdSink {
    ghost use Rattle.std.specs.Prelude.{ℕ};

    ghost Value = { ℕ };

    ghost view = { λ s. s.faults };
}

impl StdSink {
    /// The standard output. Contracts see the count of its faults.
    pub fn output(stdout: Stdout) -> StdSink
        ensures { result ≡ 0 }
    {
        StdSink {
            stream: Stream::Output(stdout),
            faults: 0,
        }
    }

    /// The standard error. Contracts see the count of its faults.
    pub fn error(stderr: Stderr) -> StdSink
        ensures { result ≡ 0 }
    {
        StdSink {
            stream: Stream::Error(stderr),
            faults: 0,
        }
    }
}

impl Sink for StdSink {
    ghost taken = { λ s. None };

    ghost faults = { λ s. s };

    fn write(&mut self, bytes: &[u8]) -> Result<usize, Failed>
        ensures bound { IfOk result (λ n. n ≤ length bytes.now) }
        ensures some { IfOk result (λ n. 0 < length bytes.now → 0 < n) }
        ensures kept { OnOk result (self.new ≡ self.old) }
        ensures counted { OnErr result (self.new ≡ next_count self.old) }
        ensures later { self.old ≤ self.new }
    {
        let written = match self.stream {
            Stream::Output(mut stdout) => stdout.write(bytes),
            Stream::Error(mut stderr) => stderr.write(bytes),
        };
        match written {
            Ok(count) if count > 0 || bytes.is_empty() => Ok(count),
            _ => Err(raise(&mut self.faults)),
        }
    }
}
