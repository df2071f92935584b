// A source of files and a sink, by what they tell and by what they count.
ghost use Rattle.std.specs.Prelude.{◌≡◌, ◌≤◌, ◌<◌, ◌+◌, ℕ, List, Option, Some, None, IfOk, OnOk, OnErr, IsSome, IsErr, length, take};
ghost use Rattle.mov_edge.specs.Outside.{Named, Place, Lacks, Tells, Counts, GivesNext, Took, next_count};

/// A device failed. It counted a fault, or the file that it was asked for is known to be absent.
#[derive(Clone, Copy, Debug, PartialEq, Eq)]
pub struct Failed;

/// Files that are read one at a time, each from its start to its end.
pub trait Files {
    /// The files that there are, by name, where the device tells them.
    ghost told: { Self → Option (List Named) };

    /// The file that is being read, if one is, and how many of its bytes were given.
    ghost at: { Self → Option Place };

    /// How many times a file was begun, also where that failed. A count that is at 2^64 - 1 stays there.
    ghost begun: { Self → ℕ };

    /// How many calls failed by a fault of the device. A count that is at 2^64 - 1 stays there.
    ghost faults: { Self → ℕ };

    /// Begins to read the file of this name, at its start. After a failure no file is being read.
    fn begin(&mut self, name: &str) -> Result<(), Failed>
        ensures told { told self.new ≡ told self.old }
        ensures at { OnOk result (at self.new ≡ Some (record { name = name.now; given = 0 })) }
        ensures none { OnErr result (at self.new ≡ None) }
        ensures begun { begun self.new ≡ next_count (begun self.old) }
        ensures lacks { Lacks (told self.old) name.now → IsErr result }
        ensures cause { Counts (faults self.old) (faults self.new) result (Lacks (told self.old) name.now) };

    /// Gives the next bytes of the file that is being read, in the first places of the buffer, and answers how many. It answers 0
    /// for a buffer that isn't empty only at the end of the file. After a failure nothing was given.
    fn read(&mut self, buf: &mut [u8]) -> Result<usize, Failed>
        requires { IsSome (at self.old) }
        ensures told { told self.new ≡ told self.old }
        ensures bound { IfOk result (λ n. n ≤ length buf.new) }
        ensures on { (p : Place) → at self.old ≡ Some p
            → IfOk result (λ n. at self.new ≡ Some (record { name = p.name; given = p.given + n })) }
        ensures stays { OnErr result (at self.new ≡ at self.old) }
        ensures begun { begun self.new ≡ begun self.old }
        ensures bytes { (p : Place) (bytes : List ℕ) → at self.old ≡ Some p → Tells (told self.old) p.name bytes
            → IfOk result (λ n. GivesNext bytes p.given n buf.new) }
        ensures cause { Counts (faults self.old) (faults self.new) result ⊥ };
}

/// A place that bytes are written to, one piece after another.
pub trait Sink {
    /// The bytes that were taken, from the first on, where the device tells them.
    ghost taken: { Self → Option (List ℕ) };

    /// How many calls failed. A count that is at 2^64 - 1 stays there.
    ghost faults: { Self → ℕ };

    /// Takes a first part of the bytes, and answers how many: at least one, unless there are none. After a failure nothing was
    /// taken.
    fn write(&mut self, bytes: &[u8]) -> Result<usize, Failed>
        ensures bound { IfOk result (λ n. n ≤ length bytes.now) }
        ensures some { IfOk result (λ n. 0 < length bytes.now → 0 < n) }
        ensures took { IfOk result (λ n. Took (taken self.old) (taken self.new) (take n bytes.now)) }
        ensures stays { OnErr result (taken self.new ≡ taken self.old) }
        ensures cause { Counts (faults self.old) (faults self.new) result ⊥ };
}
