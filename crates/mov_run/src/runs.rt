// The top call.
ghost use Rattle.std.specs.Prelude.{◌≡◌, ◌⊎◌, map, string_bytes, IfOk, Err};
ghost use Rattle.mov_run.specs.Jobs.{Allowed};
ghost use Rattle.mov_run.specs.Inputs.{found, shelf};
ghost use Rattle.mov_run.specs.Run.{Ran, Sent, drain, outside};
ghost use Rattle.mov_run.specs.Status.{status_number, status_of};
ghost use Rattle.mov_run.specs.Promised.{Promised};
ghost use Rattle.mov_words.specs.Words.{meaning};
ghost use Rattle.mov_words.specs.declared.fault.WordFault.{WordFault as AFault};

use crate::answers::{check_answer, drill_answer, margin_answer, show_answer, tally_answer};
use crate::run_faults::{RunFault, say, say_line};
use mov_base::List;
use mov_edge::{Files, Sink, write_whole};
use mov_words::{Job, WordFault, parse};
use std::alloc::Global;

/// How a run ended.
#[derive(Clone, Copy, Debug, Drop)]
pub enum Status {
    /// The text of the command was written whole.
    Done,
    /// The text was written whole, and a claim in it is a pair of bounds.
    Bounds,
    /// A refusal was written whole.
    Refused,
    /// The words are outside the grammar of the command.
    Words,
    /// The ballot file has a fault or is too long.
    Ballots,
    /// The certificate has a fault or is too long.
    Certificate,
    /// A file could not be read.
    Read,
    /// The text could not be written whole.
    Write,
    /// There was no memory.
    Memory,
}

impl Status {
    /// The number that the program ends with.
    pub fn number(self) -> u8
        ensures { result ≡ status_number self }
    {
        match self {
            Status::Done => 0,
            Status::Bounds => 1,
            Status::Refused => 2,
            Status::Words => 3,
            Status::Ballots => 4,
            Status::Certificate => 5,
            Status::Read => 6,
            Status::Write => 7,
            Status::Memory => 8,
        }
    }
}

/// A text, and the status of a run that wrote it whole.
#[derive(Debug, Drop)]
pub struct Output {
    pub ends: Status,
    pub text: List<u8>,
}

/// Does what the words ask for. The words don't contain the name of the program.
pub fn run<F: Files, O: Sink, E: Sink>(
    alloc: Global,
    words: &[String],
    files: &mut F,
    out: &mut O,
    err: &mut E,
) -> Status
    ensures { Promised
        (outside (shelf F.told F.at F.begun F.faults files.old)
        (drain O.taken O.faults out.old) (drain E.taken E.faults err.old))
        (outside (shelf F.told F.at F.begun F.faults files.new)
        (drain O.taken O.faults out.new) (drain E.taken E.faults err.new))
        (map string_bytes words.now) result }
{
    work(alloc, words, files, out, err)
}

/// The work of a run.
fn work<F: Files, O: Sink, E: Sink>(
    alloc: Global,
    words: &[String],
    files: &mut F,
    out: &mut O,
    err: &mut E,
) -> Status
    ensures { Ran
        (outside (shelf F.told F.at F.begun F.faults files.old)
        (drain O.taken O.faults out.old) (drain E.taken E.faults err.old))
        (outside (shelf F.told F.at F.begun F.faults files.new)
        (drain O.taken O.faults out.new) (drain E.taken E.faults err.new))
        (map string_bytes words.now) result }
{
    match answer(alloc, words, files) {
        Ok(output) => deliver(&output, out, err),
        Err(fault) => {
            say(err, &fault);
            ending(&fault)
        }
    }
}

/// The status of a run that stopped.
fn ending(fault: &RunFault) -> Status
    ensures { result ≡ status_of fault.now }
{
    match fault {
        RunFault::Words(_) => Status::Words,
        RunFault::Ballots(_) | RunFault::Long => Status::Ballots,
        RunFault::Certificate(_) | RunFault::LongCertificate => Status::Certificate,
        RunFault::Read { .. } => Status::Read,
        RunFault::Memory => Status::Memory,
    }
}

/// Writes the text.
fn deliver<O: Sink, E: Sink>(output: &Output, out: &mut O, err: &mut E) -> Status
    ensures { Sent output.now (drain O.taken O.faults out.old) (drain O.taken O.faults out.new)
        (drain E.taken E.faults err.old) (drain E.taken E.faults err.new) result }
{
    match write_whole(out, output.text.as_slice()) {
        Ok(()) => output.ends,
        Err(_) => {
            say_line(err, b"mov: write failed\n");
            Status::Write
        }
    }
}

/// The answer to the words.
fn answer<F: Files>(alloc: Global, words: &[String], files: &mut F) -> Result<Output, RunFault>
    ensures allowed { Allowed
        (found F.told F.at F.begun F.faults files.old files.new) (map string_bytes words.now) result }
    ensures untouched { (fault : AFault) → meaning (map string_bytes words.now) ≡ Err fault
        → shelf F.told F.at F.begun F.faults files.new ≡ shelf F.told F.at F.begun F.faults files.old }
    ensures told { F.told files.new ≡ F.told files.old }
    ensures kept { IfOk result (λ _. F.faults files.new ≡ F.faults files.old) }
{
    match parse(alloc, words) {
        Ok(Job::Tally { rule, file }) => tally_answer(alloc, rule, &file, files),
        Ok(Job::Margin { rule, file, budget }) => margin_answer(alloc, rule, &file, budget, files),
        Ok(Job::Check { file, cert }) => check_answer(alloc, &file, &cert, files),
        Ok(Job::Show { file }) => show_answer(alloc, &file, files),
        Ok(Job::Drill { seed }) => drill_answer(alloc, seed),
        Err(WordFault::Memory) => Err(RunFault::Memory),
        Err(fault) => Err(RunFault::Words(fault)),
    }
}
