// Why a run stops before its text is whole, and the line that says so.
ghost use Rattle.std.specs.Prelude.{◌≡◌, ◌++◌, codes, decimal};
ghost use Rattle.mov_run.specs.Run.{Says, WritesAll};
ghost use Rattle.mov_run.specs.RunFaults.{line_of};
ghost use Rattle.mov_run.specs.declared.run_faults.RunFault.TheVariants.{Memory};

use ballot_csv::{BallotFault, LONGEST_FILE};
use ballot_form::Text;
use cert_text::{CertFault, LONGEST_TEXT};
use itoa::Buffer;
use mov_base::Memory;
use mov_edge::{Failed, Sink, write_whole};
use mov_words::WordFault;

/// Why a run ends before its text is whole.
#[derive(Debug, Drop)]
pub enum RunFault {
    /// The words are at fault.
    Words(WordFault),
    /// The ballot file is at fault.
    Ballots(BallotFault),
    /// The ballot file is too long.
    Long,
    /// The certificate is at fault.
    Certificate(CertFault),
    /// The certificate is too long.
    LongCertificate,
    /// The file of this name could not be read.
    Read { name: Text },
    /// There was no memory.
    Memory,
}

impl From<Memory> for RunFault {
    ghost from_gives = { λ _ fault. fault ≡ Memory };

    fn from(_: Memory) -> RunFault {
        RunFault::Memory
    }
}

/// Writes the line, as far as the sink takes it. It takes no memory.
pub(crate) fn say<E: Sink>(err: &mut E, fault: &RunFault)
    ensures { Says (E.taken err.old) (E.taken err.new) (E.faults err.old) (E.faults err.new) (line_of fault.now) }
{
    match fault {
        RunFault::Words(fault) => {
            let _ = write_three(err, b"mov: words: ", fault.text().as_bytes(), b"\n");
        }
        RunFault::Ballots(fault) => say_record(err, fault),
        RunFault::Long => say_limit(err, b"mov: ballots: longer than ", LONGEST_FILE),
        RunFault::Certificate(fault) => say_cert_line(err, fault),
        RunFault::LongCertificate => say_limit(
            err,
            b"mov: certificate: longer than ",
            LONGEST_TEXT,
        ),
        RunFault::Read { name } => {
            let _ = write_three(err, b"mov: read failed: ", name.as_str().as_bytes(), b"\n");
        }
        RunFault::Memory => say_line(err, b"mov: out of memory\n"),
    }
}

/// Writes one line.
pub(crate) fn say_line<E: Sink>(err: &mut E, line: &[u8])
    ensures { Says (E.taken err.old) (E.taken err.new) (E.faults err.old) (E.faults err.new) line.now }
{
    let _ = write_whole(err, line);
}

/// Writes a line that ends with a limit in bytes.
fn say_limit<E: Sink>(err: &mut E, words: &[u8], limit: u64)
    ensures { Says (E.taken err.old) (E.taken err.new) (E.faults err.old) (E.faults err.new)
        (words.now ++ (decimal limit ++ codes " bytes\n")) }
{
    let mut buffer = Buffer::new();
    let number = buffer.format(limit).as_bytes();
    let _ = write_three(err, words, number, b" bytes\n");
}

/// Writes the line of a fault in a ballot file.
fn say_record<E: Sink>(err: &mut E, fault: &BallotFault)
    ensures { Says (E.taken err.old) (E.taken err.new) (E.faults err.old) (E.faults err.new)
        (line_of (RunFault.Ballots fault.now)) }
{
    let mut buffer = Buffer::new();
    let number = buffer.format(fault.at).as_bytes();
    let words = fault.kind.text().as_bytes();
    let _ = write_five(err, b"mov: ballots: record ", number, b": ", words, b"\n");
}

/// Writes the line of a fault in a certificate.
fn say_cert_line<E: Sink>(err: &mut E, fault: &CertFault)
    ensures { Says (E.taken err.old) (E.taken err.new) (E.faults err.old) (E.faults err.new)
        (line_of (RunFault.Certificate fault.now)) }
{
    let mut buffer = Buffer::new();
    let number = buffer.format(fault.line).as_bytes();
    let words = fault.kind.text().as_bytes();
    let _ = write_five(err, b"mov: certificate: line ", number, b": ", words, b"\n");
}

/// Writes five pieces, one after another.
fn write_five<E: Sink>(
    err: &mut E,
    first: &[u8],
    second: &[u8],
    third: &[u8],
    fourth: &[u8],
    fifth: &[u8],
) -> Result<(), Failed>
    ensures { WritesAll (E.taken err.old) (E.taken err.new) (E.faults err.old) (E.faults err.new) result
        (first.now ++ (second.now ++ (third.now ++ (fourth.now ++ fifth.now)))) }
{
    write_piece(err, first)?;
    write_piece(err, second)?;
    write_three(err, third, fourth, fifth)
}

/// Writes three pieces, one after another.
fn write_three<E: Sink>(
    err: &mut E,
    first: &[u8],
    second: &[u8],
    third: &[u8],
) -> Result<(), Failed>
    ensures { WritesAll (E.taken err.old) (E.taken err.new) (E.faults err.old) (E.faults err.new) result
        (first.now ++ (second.now ++ third.now)) }
{
    write_piece(err, first)?;
    write_piece(err, second)?;
    write_piece(err, third)
}

/// Writes one piece.
fn write_piece<E: Sink>(err: &mut E, piece: &[u8]) -> Result<(), Failed>
    ensures { WritesAll (E.taken err.old) (E.taken err.new) (E.faults err.old) (E.faults err.new) result piece.now }
{
    write_whole(err, piece)
}
