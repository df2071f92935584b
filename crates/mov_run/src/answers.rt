// The answer of each command.
ghost use Rattle.std.specs.Prelude.{◌⊎◌, Err, ◌≡◌, ◌≤◌, IfOk};
ghost use Rattle.ballot_form.specs.Rules.{IsRule};
ghost use Rattle.cert_text.specs.declared.limits.TheConstants.{MOST_BUDGET};
ghost use Rattle.mov_run.specs.Inputs.{found};
ghost use Rattle.mov_run.specs.Jobs.{AnswersOrMemory, IsDrilled};
ghost use Rattle.mov_run.specs.declared.run_faults.RunFault.TheVariants as Fault;

use crate::loads::{load_cert, load_contest};
use crate::run_faults::RunFault;
use crate::runs::{Output, Status};
use crate::tally::tally_text;
use crate::verdicts::{claim_status, drill_status, verdict_status, verdict_text};
use ballot_csv::print_ballots;
use ballot_form::{Rule, Text};
use cert_text::{MOST_BUDGET, print_cert};
use drill_text::drill_text;
use margin_check::check;
use margin_solve::margin;
use mov_base::List;
use mov_edge::Files;
use mov_words::Job;
use std::alloc::Global;

/// The tally of the contest in a ballot file.
pub(crate) fn tally_answer<F: Files>(
    alloc: Global,
    rule: Rule,
    file: &Text,
    files: &mut F,
) -> Result<Output, RunFault>
    requires { IsRule rule }
    ensures answers { AnswersOrMemory
        (found F.told F.at F.begun F.faults files.old files.new) (Job.Tally rule file.now) result }
    ensures told { F.told files.new ≡ F.told files.old }
    ensures kept { IfOk result (λ _. F.faults files.new ≡ F.faults files.old) }
{
    let contest = load_contest(alloc, files, file)?;
    Ok(Output {
        ends: Status::Done,
        text: List::from_vec(tally_text(alloc, &contest, rule)?),
    })
}

/// The certificate of the contest in a ballot file.
pub(crate) fn margin_answer<F: Files>(
    alloc: Global,
    rule: Rule,
    file: &Text,
    budget: u32,
    files: &mut F,
) -> Result<Output, RunFault>
    requires lawful { IsRule rule }
    requires some { 1 ≤ budget }
    requires most { budget ≤ MOST_BUDGET }
    ensures answers { AnswersOrMemory
        (found F.told F.at F.begun F.faults files.old files.new) (Job.Margin rule file.now budget) result }
    ensures told { F.told files.new ≡ F.told files.old }
    ensures kept { IfOk result (λ _. F.faults files.new ≡ F.faults files.old) }
{
    let contest = load_contest(alloc, files, file)?;
    let cert = margin(alloc, &contest, rule, budget)?;
    Ok(Output {
        ends: claim_status(cert.claim),
        text: List::from_vec(print_cert(alloc, &cert)?),
    })
}

/// The verdict on the certificate in a file, for the contest in a ballot file.
pub(crate) fn check_answer<F: Files>(
    alloc: Global,
    ballots: &Text,
    cert: &Text,
    files: &mut F,
) -> Result<Output, RunFault>
    ensures answers { AnswersOrMemory
        (found F.told F.at F.begun F.faults files.old files.new) (Job.Check ballots.now cert.now) result }
    ensures told { F.told files.new ≡ F.told files.old }
    ensures kept { IfOk result (λ _. F.faults files.new ≡ F.faults files.old) }
{
    let contest = load_contest(alloc, files, ballots)?;
    let cert = load_cert(alloc, files, cert)?;
    let verdict = check(alloc, &contest, &cert)?;
    Ok(Output {
        ends: verdict_status(verdict),
        text: verdict_text(alloc, &cert, verdict)?,
    })
}

/// The plain form of a ballot file.
pub(crate) fn show_answer<F: Files>(
    alloc: Global,
    file: &Text,
    files: &mut F,
) -> Result<Output, RunFault>
    ensures answers { AnswersOrMemory
        (found F.told F.at F.begun F.faults files.old files.new) (Job.Show file.now) result }
    ensures told { F.told files.new ≡ F.told files.old }
    ensures kept { IfOk result (λ _. F.faults files.new ≡ F.faults files.old) }
{
    let contest = load_contest(alloc, files, file)?;
    Ok(Output {
        ends: Status::Done,
        text: List::from_vec(print_ballots(alloc, &contest)?),
    })
}

/// The summary of the drill of a seed.
pub(crate) fn drill_answer(alloc: Global, seed: u64) -> Result<Output, RunFault>
    ensures { IsDrilled seed result ⊎ (result ≡ Err Fault.Memory) }
{
    let (text, stopped) = drill_text(alloc, seed)?;
    Ok(Output {
        ends: drill_status(stopped),
        text: List::from_vec(text),
    })
}
