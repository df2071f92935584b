// The files of the system.
ghost use Rattle.std.specs.Prelude.{◌≡◌, ◌+◌, ◌≤◌, ℕ, List, IfOk, OnOk, OnErr, IsSome, IsErr, None, Some, Option, length, string_bytes};
ghost use Rattle.mov_edge.specs.Outside.{Named, Place, Tells, Lacks, Counts, GivesNext, next_count};
ghost use Rattle.mov_edge.specs.Devices.{DiskState};

use crate::faults::raise;
use crate::{Failed, Files};
use std::fs::File;
use std::io::Read;
use std::marker::Model;

/// A file that is being read, its name, and how many of its bytes were given.
#[derive(Drop)]
struct OpenFile {
    file: File,
    name: String,
    given: u64,
}

/// Opens the file of this name. That fails too where no memory is to be had.
fn opened(rt: HostRuntime, name: &str) -> Result<OpenFile, Failed>
    ensures name { IfOk result (λ f. string_bytes f.name ≡ name.now) }
    ensures given { IfOk result (λ f. f.given ≡ 0) }
{
    let Ok(name) = String::from_str(rt.alloc(), name) else {
        return Err(Failed);
    };
    match File::open(&rt, name.as_str()) {
        Ok(file) => Ok(OpenFile {
            file,
            name,
            given: 0,
        }),
        Err(_) => Err(Failed),
    }
}

impl OpenFile {
    /// Gives the next bytes. That fails too where more than 2^64 - 1 bytes of the file might be given.
    fn next(&mut self, buf: &mut [u8]) -> Result<usize, Failed>
        ensures name { string_bytes self.new.name ≡ string_bytes self.old.name }
        ensures bound { IfOk result (λ n. n ≤ length buf.new) }
        ensures given { IfOk result (λ n. self.new.given ≡ self.old.given + n) }
        ensures stays { OnErr result (self.new.given ≡ self.old.given) }
    {
        if buf.len() as u64 > u64::MAX - self.given {
            return Err(Failed);
        }
        match self.file.read(buf) {
            Ok(count) => {
                self.given += count as u64;
                Ok(count)
            }
            Err(_) => Err(Failed),
        }
    }
}

/// The files of the system. What they hold is not told. Each failure is counted, want of memory at opening a file among them.
#[derive(Drop)]
pub struct DiskFiles {
    rt: HostRuntime,
    reading: Option<OpenFile>,
    begun: u64,
    faults: u64,
}

impl Model for DiskFiles {
    ghost use Rattle.std.specs.Prelude.{string_bytes};
    ghost use Rattle.std.specs.Option.{option_map};
    ghost use Rattle.mov_edge.specs.Devices.{DiskState};

    ghost Value = { DiskState };

    ghost view = { λ d. record {
      at = option_map (λ f. record { name = string_bytes f.name; given = f.given }) d.reading;
      begun = d.begun;
      faults = d.faults;
    } };
}

impl DiskFiles {
    /// The files of the system, none of which is being read.
    pub fn new(rt: HostRuntime) -> DiskFiles
        ensures { result ≡ record { at = None; begun = 0; faults = 0 } }
    {
        DiskFiles {
            rt,
            reading: None,
            begun: 0,
            faults: 0,
        }
    }
}

impl Files for DiskFiles {
    ghost told = { λ d. None };

    ghost at = { λ d. d.at };

    ghost begun = { λ d. d.begun };

    ghost faults = { λ d. d.faults };

    fn begin(&mut self, name: &str) -> Result<(), Failed>
        ensures at { OnOk result (self.new.at ≡ Some (record { name = name.now; given = 0 })) }
        ensures none { OnErr result (self.new.at ≡ None) }
        ensures begun { self.new.begun ≡ next_count self.old.begun }
        ensures kept { OnOk result (self.new.faults ≡ self.old.faults) }
        ensures counted { OnErr result (self.new.faults ≡ next_count self.old.faults) }
        ensures later { self.old.faults ≤ self.new.faults }
    {
        self.begun = self.begun.saturating_add(1);
        self.reading = None;
        match opened(self.rt, name) {
            Ok(file) => {
                self.reading = Some(file);
                Ok(())
            }
            Err(_) => Err(raise(&mut self.faults)),
        }
    }

    fn read(&mut self, buf: &mut [u8]) -> Result<usize, Failed>
        requires { IsSome self.old.at }
        ensures bound { IfOk result (λ n. n ≤ length buf.new) }
        ensures on { (p : Place) → self.old.at ≡ Some p
            → IfOk result (λ n. self.new.at ≡ Some (record { name = p.name; given = p.given + n })) }
        ensures stays { OnErr result (self.new.at ≡ self.old.at) }
        ensures begun { self.new.begun ≡ self.old.begun }
        ensures kept { OnOk result (self.new.faults ≡ self.old.faults) }
        ensures counted { OnErr result (self.new.faults ≡ next_count self.old.faults) }
        ensures later { self.old.faults ≤ self.new.faults }
    {
        let Some(file) = &mut self.reading else {
            unreachable!();
        };
        match file.next(buf) {
            Ok(count) => Ok(count),
            Err(_) => Err(raise(&mut self.faults)),
        }
    }
}
