// The records of a text, one after another.
ghost use Rattle.std.specs.Prelude.{◌≡◌, ◌+◌, ◌≤◌, [], ◌∷◌, length, IfOk, OnErr, MatchBool};
ghost use Rattle.csv.specs.Records.{fields_of};
ghost use Rattle.csv.specs.Reading.{default_config, records};
ghost use Rattle.ballot_csv.specs.Marks as marks;

use crate::marks::without_marks;
use csv::{ByteRecord, Reader, ReaderBuilder};
use mov_base::Memory;
use std::alloc::{AllocError, Global};
use std::marker::Model;

/// The records of a text of bytes that are still to be read.
#[derive(Drop)]
pub(crate) struct Records<'a> {
    reader: Reader<&'a [u8]>,
    ended: bool,
}

impl<'a> Model for Records<'a> {
    ghost use Rattle.std.specs.Prelude.{ℕ, List, [], ◌≡◌, false, if◌then◌else◌};

    ghost Value = { List (List (List ℕ)) };

    ghost use Rattle.ballot_csv.specs.Left.{records_left, IsBetween};

    ghost view = { λ r. if r.ended then [] else records_left r.reader };

    ghost invariant = { λ r. r.ended ≡ false → IsBetween r.reader };
}

impl<'a> Records<'a> {
    /// The records of the bytes after every byte order mark at their start.
    pub(crate) fn of(alloc: Global, bytes: &'a [u8]) -> Records<'a>
        ensures records { result ≡ records default_config (marks.without_marks bytes.now) }
        ensures few { length result ≤ length bytes.now + 1 }
    {
        Records {
            reader: ReaderBuilder::new()
                .has_headers(false)
                .flexible(true)
                .from_reader(alloc, without_marks(bytes)),
            ended: false,
        }
    }

    /// Reads the next record into `cells`, and tells whether there was one. Any error of the crate is want of memory,
    /// after which no record is left.
    pub(crate) fn read(&mut self, cells: &mut ByteRecord) -> Result<bool, Memory>
        ensures found { IfOk result (λ found. MatchBool found
            (self.old ≡ fields_of cells.new ∷ self.new) ((self.old ≡ []) × (self.new ≡ []))) }
        ensures failed { OnErr result (self.new ≡ []) }
    {
        if self.ended {
            return Ok(false);
        }
        self.ended = true;
        let found = self.reader.read_byte_record(cells).map_err(|_| AllocError)?;
        self.ended = !found;
        Ok(found)
    }
}
