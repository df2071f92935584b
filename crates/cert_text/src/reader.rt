// Lines of a text, one after another.
ghost use Rattle.std.specs.Prelude.{◌≡◌, ◌==◌, ◌<◌, ◌+◌, ◌^◌, length, OnOk};
ghost use Rattle.std.specs.List.{position};
ghost use Rattle.cert_text.specs.Reading.{ReadsPart, line_at, at_line, text_left};

use crate::fault::{CertFault, CertKind, no_memory};
use text_lines::LineFault;

/// What is left of a text, and the number of its next line, from 1.
#[derive(Drop)]
pub(crate) struct Reader<'a> {
    pub rest: &'a [u8],
    pub number: u32,
}

/// The place of the first line feed.
fn line_end(text: &[u8]) -> Option<usize>
    ensures { result ≡ position (λ b. b == 10) text.now }
{
    text.iter().position(|b| *b == b'\n')
}

/// A fault in a line.
pub(crate) fn fault(kind: CertKind, line: u32) -> CertFault
    ensures { result ≡ record { kind = kind; line = line } }
{
    CertFault { kind, line }
}

impl<'a> Reader<'a> {
    /// The next line, which has to be ended.
    pub fn line(&mut self) -> Result<&'a [u8], CertFault>
        requires { self.old.number + 1 < 2 ^ 32 }
        ensures line { ReadsPart (λ l. (l.now, text_left self.new)) result (line_at (text_left self.old)) }
        ensures number { OnOk result (self.new.number ≡ self.old.number + 1) }
    {
        match line_end(self.rest) {
            None => Err(fault(CertKind::BadLine, self.number)),
            Some(end) => {
                let line = &self.rest[..end];
                self.rest = &self.rest[end + 1..];
                self.number += 1;
                Ok(line)
            }
        }
    }
}

/// A line's fault as a fault of the text.
pub(crate) fn at_number<T: Drop>(number: u32, part: Result<T, LineFault>) -> Result<T, CertFault>
    ensures { result ≡ at_line number part }
{
    match part {
        Ok(x) => Ok(x),
        Err(LineFault::BadLine) => Err(fault(CertKind::BadLine, number)),
        Err(LineFault::BadNumber) => Err(fault(CertKind::BadNumber, number)),
        Err(LineFault::Memory) => Err(no_memory()),
    }
}
