// A file read whole, and bytes written whole.
ghost use Rattle.std.specs.Prelude.{◌≡◌, ◌≤◌, ◌<◌, ◌+◌, ◌⊎◌, ◌↔◌, ◌++◌, ℕ, List, Option, Some, None, IfOk, IfSome, OnOk, OnErr, IsErrOf, IsErr, length, take, min};
ghost use Rattle.mov_edge.specs.Outside.{Lacks, Tells, Counts, Took, Rose, TookMore, next_count};
ghost use Rattle.mov_edge.specs.Loads.{LoadCounts, TookFirst};
ghost use Rattle.mov_edge.specs.declared.transfer.LoadFault.TheVariants.{Memory, Failed};

use crate::{Failed, Files, Sink};
use mov_base::Memory;
use std::alloc::Global;

/// Why a file isn't read whole.
#[derive(Clone, Copy, Debug, PartialEq, Eq)]
pub enum LoadFault {
    /// The source failed.
    Failed,
    /// The file has more bytes than the limit.
    TooLong,
    /// Want of memory.
    Memory,
}

impl From<Memory> for LoadFault {
    ghost from_gives = { λ _ e. e ≡ Memory };

    fn from(_: Memory) -> Self {
        LoadFault::Memory
    }
}

impl From<Failed> for LoadFault {
    ghost from_gives = { λ _ e. e ≡ Failed };

    fn from(_: Failed) -> Self {
        LoadFault::Failed
    }
}

/// The greatest number of bytes that are asked for at once.
const PIECE: usize = 16_384;

/// How many bytes to ask for where so many more are within the limit: one more than those, by which a longer file shows itself, but
/// at most a piece.
fn asked(left: u64) -> usize
    ensures { result ≡ min (left + 1) PIECE }
{
    left.saturating_add(1).min(PIECE as u64) as usize
}

/// Reads the file of this name from its start to its end, if it has at most `limit` bytes.
///
/// Of a longer file one byte more than the limit is taken, and no more. After want of memory, some first part of the file was
/// taken.
pub fn read_whole<F: Files>(
    alloc: Global,
    files: &mut F,
    name: &str,
    limit: u64,
) -> Result<Vec<u8>, LoadFault>
    ensures told { F.told files.new ≡ F.told files.old }

    // Whatever the answer, a file is begun once.
    ensures begun { F.begun files.new ≡ next_count (F.begun files.old) }

    // All bytes, from the start of the file to its end.
    ensures whole { IfOk result (λ v. F.at files.new ≡ Some (record { name = name.now; given = length v.items })) }
    ensures bytes { (bytes : List ℕ) → Tells (F.told files.old) name.now bytes → IfOk result (λ v. v.items ≡ bytes) }
    ensures within { IfOk result (λ v. length v.items ≤ limit) }

    // Too long is exactly a file that gave more than the limit. Whatever the answer, no other file is being read, and at most one
    // byte past the limit was taken of this one.
    ensures too_long { IsErrOf result LoadFault.TooLong ↔ TookMore (F.at files.new) name.now limit }
    ensures taken { IfSome (F.at files.new) (λ p. (p.name ≡ name.now) × (p.given ≤ limit + 1)) }
    ensures too_long_told { IsErrOf result LoadFault.TooLong
        → (bytes : List ℕ) → Tells (F.told files.old) name.now bytes → limit < length bytes }

    ensures lacks { Lacks (F.told files.old) name.now → IsErrOf result LoadFault.Failed }
    ensures cause { LoadCounts (F.faults files.old) (F.faults files.new) result (Lacks (F.told files.old) name.now) }
{
    files.begin(name)?;
    let mut bytes = Vec::new(alloc);
    let mut buf = [0u8; PIECE];
    loop {
        let left = limit - bytes.len() as u64;
        let room = asked(left);
        let count = files.read(&mut buf[..room])?;
        if count == 0 {
            return Ok(bytes);
        }
        if count as u64 > left {
            return Err(LoadFault::TooLong);
        }
        bytes.extend_from_slice(&buf[..count])?;
    }
}

/// Writes all the bytes, in order, or a first part of them where the sink fails. It takes no memory.
pub fn write_whole<S: Sink>(sink: &mut S, bytes: &[u8]) -> Result<(), Failed>
    ensures whole { OnOk result (Took (S.taken sink.old) (S.taken sink.new) bytes.now) }
    ensures part { OnErr result (TookFirst (S.taken sink.old) (S.taken sink.new) bytes.now) }
    ensures cause { Counts (S.faults sink.old) (S.faults sink.new) result ⊥ }
{
    let mut done = 0;
    while done < bytes.len() {
        done += sink.write(&bytes[done..])?;
    }
    Ok(())
}
