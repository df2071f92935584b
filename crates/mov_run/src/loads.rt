// Files read whole, and what they stand for.
ghost use Rattle.std.specs.Prelude.{◌≡◌, ◌≢◌, ◌⊎◌, IfOk};
ghost use Rattle.ballot_csv.specs.declared.fault.BallotKind.TheVariants as kind;
ghost use Rattle.cert_text.specs.declared.fault.CertKind.TheVariants as cert_kind;
ghost use Rattle.mov_edge.specs.Outside.{next_count};
ghost use Rattle.mov_run.specs.Inputs.{Loads, LoadsCert, LoadsContest, found};

use crate::run_faults::RunFault;
use ballot_csv::{BallotFault, BallotKind, LONGEST_FILE, read_ballots};
use ballot_form::{Contest, Text};
use cert_text::{Cert, CertFault, CertKind, LONGEST_TEXT, read_cert};
use mov_base::List;
use mov_edge::{Files, LoadFault, read_whole};
use std::alloc::Global;

/// Loads the contest of a ballot file.
pub(crate) fn load_contest<F: Files>(
    alloc: Global,
    files: &mut F,
    name: &Text,
) -> Result<Contest, RunFault>
    ensures loads { LoadsContest (found F.told F.at F.begun F.faults files.old files.new) name.now result }
    ensures told { F.told files.new ≡ F.told files.old }
    ensures begun { F.begun files.new ≡ next_count (F.begun files.old) }
    ensures kept { IfOk result (λ _. F.faults files.new ≡ F.faults files.old) }
{
    let bytes = load(alloc, files, name, LONGEST_FILE, RunFault::Long)?;
    match read_ballots(alloc, bytes.as_slice()) {
        Ok(contest) => Ok(contest),
        Err(fault) => Err(ballots_fault(fault)),
    }
}

/// Why a run stops at a fault of a ballot file.
fn ballots_fault(fault: BallotFault) -> RunFault
    ensures { ((fault.kind ≡ kind.Memory) × (result ≡ RunFault.Memory))
        ⊎ ((fault.kind ≢ kind.Memory) × (result ≡ RunFault.Ballots fault)) }
{
    match fault.kind {
        BallotKind::Memory => RunFault::Memory,
        _ => RunFault::Ballots(fault),
    }
}

/// Loads the certificate of a file.
pub(crate) fn load_cert<F: Files>(
    alloc: Global,
    files: &mut F,
    name: &Text,
) -> Result<Cert, RunFault>
    ensures loads { LoadsCert (found F.told F.at F.begun F.faults files.old files.new) name.now result }
    ensures told { F.told files.new ≡ F.told files.old }
    ensures begun { F.begun files.new ≡ next_count (F.begun files.old) }
    ensures kept { IfOk result (λ _. F.faults files.new ≡ F.faults files.old) }
{
    let bytes = load(alloc, files, name, LONGEST_TEXT, RunFault::LongCertificate)?;
    match read_cert(alloc, bytes.as_slice()) {
        Ok(cert) => Ok(cert),
        Err(fault) => Err(cert_fault(fault)),
    }
}

/// Why a run stops at a fault of a certificate.
fn cert_fault(fault: CertFault) -> RunFault
    ensures { ((fault.kind ≡ cert_kind.Memory) × (result ≡ RunFault.Memory))
        ⊎ ((fault.kind ≢ cert_kind.Memory) × (result ≡ RunFault.Certificate fault)) }
{
    match fault.kind {
        CertKind::Memory => RunFault::Memory,
        _ => RunFault::Certificate(fault),
    }
}

/// Loads a file of at most so many bytes; a longer one is the fault that is handed in.
fn load<F: Files>(
    alloc: Global,
    files: &mut F,
    name: &Text,
    limit: u64,
    too_long: RunFault,
) -> Result<List<u8>, RunFault>
    ensures loads { Loads (found F.told F.at F.begun F.faults files.old files.new) name.now limit too_long result }
    ensures told { F.told files.new ≡ F.told files.old }
    ensures begun { F.begun files.new ≡ next_count (F.begun files.old) }
    ensures kept { IfOk result (λ _. F.faults files.new ≡ F.faults files.old) }
{
    match read_whole(alloc, files, name.as_str(), limit) {
        Ok(bytes) => Ok(List::from_vec(bytes)),
        Err(LoadFault::Failed) => Err(RunFault::Read {
            name: Text::of(alloc, name.as_str())?,
        }),
        Err(LoadFault::TooLong) => Err(too_long),
        Err(LoadFault::Memory) => Err(RunFault::Memory),
    }
}
