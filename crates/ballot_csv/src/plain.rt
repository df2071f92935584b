// Writes records in the plain form.
ghost use Rattle.std.specs.Prelude.{◌≡◌, ◌++◌, [], IfOk, OnOk};
ghost use Rattle.csv.specs.Records.{fields_of};
ghost use Rattle.csv.specs.Writing.{row_text};
ghost use Rattle.ballot_csv.specs.PlainForm.{plain_writer};

use csv::{ByteRecord, Writer, WriterBuilder};
use mov_base::Memory;
use std::alloc::{AllocError, Global};
use std::marker::Model;

/// The text of the records that were written.
#[derive(Drop)]
pub(crate) struct PlainText {
    writer: Writer<Vec<u8>>,
    failed: bool,
}

impl Model for PlainText {
    ghost use Rattle.std.specs.Prelude.{ℕ, List, ◌≡◌, false, Some};

    ghost Value = { List ℕ };

    ghost use Rattle.ballot_csv.specs.Written.{IsClean, written_of};

    ghost view = { λ t. written_of (λ v. Some v.items) t.writer };

    ghost invariant = { λ t. t.failed ≡ false → IsClean (λ v. Some v.items) t.writer };
}

impl PlainText {
    /// No records.
    pub(crate) fn new(alloc: Global) -> PlainText
        ensures { result ≡ [] }
    {
        PlainText {
            writer: WriterBuilder::new()
                .flexible(true)
                .from_writer(Vec::new(alloc)),
            failed: false,
        }
    }

    /// Writes a record. Any error of the crate is want of memory, after which nothing more is written.
    pub(crate) fn write(&mut self, cells: &ByteRecord) -> Result<(), Memory>
        ensures { OnOk result (self.new ≡ self.old ++ row_text plain_writer (fields_of cells.now)) }
    {
        if self.failed {
            return Err(AllocError);
        }
        self.failed = true;
        self.writer
            .write_byte_record(cells)
            .map_err(|_| AllocError)?;
        self.failed = false;
        Ok(())
    }

    /// The bytes of the text.
    pub(crate) fn into_bytes(self) -> Result<Vec<u8>, Memory>
        ensures { IfOk result (λ bytes. bytes.items ≡ self) }
    {
        if self.failed {
            return Err(AllocError);
        }
        self.writer.into_inner().map_err(|_| AllocError)
    }
}
