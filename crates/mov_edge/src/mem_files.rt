// Files in memory.
ghost use Rattle.std.specs.Prelude.{◌≡◌, ◌+◌, ◌-◌, ◌≤◌, ◌<◌, ◌⊎◌, ◌↔◌, ◌++◌, [], ◌∷◌, ℕ, List, min, map, IfOk, OnOk, OnErr, IsErr, IsSome, None, Some, MatchOption, length, take, drop, slice_get, Contains};
ghost use Rattle.mov_edge.specs.Outside.{Counts, GivesNext, Lacks, Tells, Place, Named, file_of, next_count};
ghost use Rattle.mov_edge.specs.Devices.{FilesState, IsNextListed, CountsListed};
ghost use Rattle.mov_edge.specs.Held.{named};

use crate::faults::{is_listed, raise};
use crate::{Failed, Files};
use mov_base::Memory;
use std::alloc::Global;
use std::marker::Model;

/// A file by its name and its bytes.
#[derive(Drop)]
pub(crate) struct File {
    name: String,
    bytes: Vec<u8>,
}

/// The number of the file that is being read, and how many of its bytes were given.
#[derive(Clone, Copy)]
pub(crate) struct Spot {
    file: usize,
    given: usize,
}

/// Files in memory, that give at most a step of bytes at each call, and fail at the calls whose numbers are listed. The calls of
/// `begin` and `read` are numbered together, from 1.
#[derive(Drop)]
pub struct MemFiles {
    alloc: Global,
    files: Vec<File>,
    spot: Option<Spot>,
    begun: u64,
    step: usize,
    failing: Vec<u32>,
    calls: u64,
    faults: u64,
}

impl Model for MemFiles {
    ghost use Rattle.std.specs.Prelude.{◌≡◌, ◌≤◌, map};
    ghost use Rattle.mov_edge.specs.Devices.{FilesState};
    ghost use Rattle.mov_edge.specs.Held.{named, place_of, IsWithin};

    ghost Value = { FilesState };

    ghost view = { λ s. record {
      told = map named s.files.items;
      at = place_of (map named s.files.items) s.spot;
      begun = s.begun;
      step = s.step;
      failing = s.failing.items;
      calls = s.calls;
      faults = s.faults;
    } };

    ghost invariant = { λ s. IsWithin (map named s.files.items) s.spot × (1 ≤ s.step) };
}

/// The number of the first file of this name.
fn find(files: &[File], name: &str) -> Option<usize>
    ensures { MatchOption result (file_of name.now (map named files.now) ≡ None)
        (λ i. (f : Named) × (slice_get (map named files.now) i ≡ Some f) × (f.name ≡ name.now)
        × (file_of name.now (map named files.now) ≡ Some f.bytes)) }
{
    for i in 0..files.len() {
        let file = &files[i];
        if name == file.name.as_str() {
            return Some(i);
        }
    }
    None
}

impl MemFiles {
    /// No file, and no call made. It takes no memory.
    pub fn new(alloc: Global, step: usize, failing: Vec<u32>) -> MemFiles
        requires { 1 ≤ step }
        ensures { result
            ≡ record { told = []; at = None; begun = 0; step = step; failing = failing.items; calls = 0; faults = 0 } }
    {
        MemFiles {
            alloc,
            files: Vec::new(alloc),
            spot: None,
            begun: 0,
            step,
            failing,
            calls: 0,
            faults: 0,
        }
    }

    /// Adds a file. Its name must be new.
    pub fn add(&mut self, name: &str, bytes: Vec<u8>) -> Result<(), Memory>
        requires { Lacks (Some self.old.told) name.now }
        ensures ok { OnOk result (self.new ≡ record self.old
            { told = self.old.told ++ record { name = name.now; bytes = bytes.items } ∷ [] }) }
        ensures err { OnErr result (self.new ≡ self.old) }
    {
        let name = String::from_str(self.alloc, name)?;
        self.files.push(File { name, bytes })?;
        Ok(())
    }
}

impl Files for MemFiles {
    ghost told = { λ s. Some s.told };

    ghost at = { λ s. s.at };

    ghost begun = { λ s. s.begun };

    ghost faults = { λ s. s.faults };

    fn begin(&mut self, name: &str) -> Result<(), Failed>
        ensures told { self.new.told ≡ self.old.told }
        ensures at { OnOk result (self.new.at ≡ Some (record { name = name.now; given = 0 })) }
        ensures none { OnErr result (self.new.at ≡ None) }
        ensures begun { self.new.begun ≡ next_count self.old.begun }
        ensures lacks { Lacks (Some self.old.told) name.now → IsErr result }
        ensures cause { Counts self.old.faults self.new.faults result (Lacks (Some self.old.told) name.now) }

        // What more this source promises: exactly when it fails, exactly what it counts, and that nothing else changes.
        ensures fails { IsErr result
            ↔ (IsNextListed self.old.failing self.old.calls ⊎ Lacks (Some self.old.told) name.now) }
        ensures counted { CountsListed self.old.failing self.old.calls self.old.faults self.new.faults }
        ensures rest { self.new ≡ record self.old {
          at = self.new.at;
          begun = next_count self.old.begun;
          calls = next_count self.old.calls;
          faults = self.new.faults;
        } }
    {
        self.calls = self.calls.saturating_add(1);
        self.begun = self.begun.saturating_add(1);
        self.spot = None;
        if is_listed(&self.failing, self.calls) {
            return Err(raise(&mut self.faults));
        }
        match find(&self.files, name) {
            Some(file) => {
                self.spot = Some(Spot { file, given: 0 });
                Ok(())
            }
            None => Err(Failed),
        }
    }

    fn read(&mut self, buf: &mut [u8]) -> Result<usize, Failed>
        requires { IsSome self.old.at }
        ensures told { self.new.told ≡ self.old.told }
        ensures bound { IfOk result (λ n. n ≤ length buf.new) }
        ensures on { (p : Place) → self.old.at ≡ Some p
            → IfOk result (λ n. self.new.at ≡ Some (record { name = p.name; given = p.given + n })) }
        ensures stays { OnErr result (self.new.at ≡ self.old.at) }
        ensures begun { self.new.begun ≡ self.old.begun }
        ensures bytes { (p : Place) (bytes : List ℕ) → self.old.at ≡ Some p → Tells (Some self.old.told) p.name bytes
            → IfOk result (λ n. GivesNext bytes p.given n buf.new) }
        ensures cause { Counts self.old.faults self.new.faults result ⊥ }

        // What more this source promises: as many bytes as the step, the buffer and the file allow, and the buffer beyond them as it
        // was; exactly when it fails, exactly what it counts, and that nothing else changes.
        ensures count { (p : Place) (bytes : List ℕ) → self.old.at ≡ Some p → Tells (Some self.old.told) p.name bytes
            → IfOk result (λ n. n ≡ min (min (length bytes - p.given) (length buf.old)) self.old.step) }
        ensures beyond { IfOk result (λ n. drop n buf.new ≡ drop n buf.old) }
        ensures untouched { OnErr result (buf.new ≡ buf.old) }
        ensures fails { IsErr result ↔ IsNextListed self.old.failing self.old.calls }
        ensures counted { CountsListed self.old.failing self.old.calls self.old.faults self.new.faults }
        ensures rest { self.new ≡ record self.old
            { at = self.new.at; calls = next_count self.old.calls; faults = self.new.faults } }
    {
        self.calls = self.calls.saturating_add(1);
        if is_listed(&self.failing, self.calls) {
            return Err(raise(&mut self.faults));
        }
        let Some(spot) = self.spot else {
            unreachable!();
        };
        let file = &self.files[spot.file];
        let count = (file.bytes.len() - spot.given)
            .min(buf.len())
            .min(self.step);
        buf[..count].copy_from_slice(&file.bytes[spot.given..spot.given + count]);
        self.spot = Some(Spot {
            file: spot.file,
            given: spot.given + count,
        });
        Ok(count)
    }
}
