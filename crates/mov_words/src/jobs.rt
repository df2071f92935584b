// The job that the words ask for.
ghost use Rattle.std.specs.Prelude.{◌∷◌, map, string_bytes, IfOk};
ghost use Rattle.mov_words.specs.Words.{Gives, IsLawful, Reads, check_of, drill_of, margin_of, show_of, tally_of};

use crate::fault::WordFault;
use crate::lines::{check_words, drill_word, margin_words, show_word, tally_words};
use crate::numbers::{budget_of, seed_named};
use crate::rules::rule_of;
use ballot_form::{Rule, Text};
use std::alloc::Global;

/// What is to be done.
#[derive(Debug, Drop)]
pub enum Job {
    /// Count the contest in a ballot file.
    Tally { rule: Rule, file: Text },
    /// Find the margin of the contest in a ballot file, with a tree of at most so many nodes.
    Margin { rule: Rule, file: Text, budget: u32 },
    /// Judge a certificate for the contest in a ballot file.
    Check { file: Text, cert: Text },
    /// Print a ballot file in its plain form.
    Show { file: Text },
    /// Try the program on a contest made from a seed.
    Drill { seed: u64 },
}

/// The job of the words, or the first thing that is wrong with them. Whether the first word is a command is judged
/// without memory.
pub fn parse(alloc: Global, words: &[String]) -> Result<Job, WordFault>
    ensures reads { Reads (map string_bytes words.now) result }
    ensures lawful { IfOk result IsLawful }
{
    let Some((command, rest)) = words.split_first() else {
        return Err(WordFault::NoCommand);
    };
    job_of(alloc, command.as_str(), rest)
}

/// The job of a command and the words after it.
fn job_of(alloc: Global, command: &str, rest: &[String]) -> Result<Job, WordFault>
    ensures reads { Reads (command.now ∷ map string_bytes rest.now) result }
    ensures lawful { IfOk result IsLawful }
{
    match command {
        "tally" => tally_job(alloc, rest),
        "margin" => margin_job(alloc, rest),
        "check" => check_job(alloc, rest),
        "show" => show_job(alloc, rest),
        "drill" => drill_job(alloc, rest),
        _ => Err(WordFault::UnknownCommand),
    }
}

/// The job of the words after `tally`.
fn tally_job(alloc: Global, words: &[String]) -> Result<Job, WordFault>
    ensures gives { Gives (tally_of (map string_bytes words.now)) result }
    ensures lawful { IfOk result IsLawful }
{
    let texts = match tally_words(alloc, words) {
        Ok(texts) => texts,
        Err(fault) => return Err(fault),
    };
    let rule = rule_of(texts.rule, texts.seats)?;
    Ok(Job::Tally {
        rule,
        file: Text::of(alloc, texts.file)?,
    })
}

/// The job of the words after `margin`.
fn margin_job(alloc: Global, words: &[String]) -> Result<Job, WordFault>
    ensures gives { Gives (margin_of (map string_bytes words.now)) result }
    ensures lawful { IfOk result IsLawful }
{
    let texts = match margin_words(alloc, words) {
        Ok(texts) => texts,
        Err(fault) => return Err(fault),
    };
    let rule = rule_of(texts.rule, texts.seats)?;
    let Some(budget) = budget_of(texts.budget) else {
        return Err(WordFault::BadBudget);
    };
    Ok(Job::Margin {
        rule,
        file: Text::of(alloc, texts.file)?,
        budget,
    })
}

/// The job of the words after `check`.
fn check_job(alloc: Global, words: &[String]) -> Result<Job, WordFault>
    ensures gives { Gives (check_of (map string_bytes words.now)) result }
    ensures lawful { IfOk result IsLawful }
{
    let texts = match check_words(alloc, words) {
        Ok(texts) => texts,
        Err(fault) => return Err(fault),
    };
    Ok(Job::Check {
        file: Text::of(alloc, texts.file)?,
        cert: Text::of(alloc, texts.cert)?,
    })
}

/// The job of the words after `show`.
fn show_job(alloc: Global, words: &[String]) -> Result<Job, WordFault>
    ensures gives { Gives (show_of (map string_bytes words.now)) result }
    ensures lawful { IfOk result IsLawful }
{
    let file = match show_word(alloc, words) {
        Ok(file) => file,
        Err(fault) => return Err(fault),
    };
    Ok(Job::Show {
        file: Text::of(alloc, file)?,
    })
}

/// The job of the words after `drill`.
fn drill_job(alloc: Global, words: &[String]) -> Result<Job, WordFault>
    ensures gives { Gives (drill_of (map string_bytes words.now)) result }
    ensures lawful { IfOk result IsLawful }
{
    let seed = match drill_word(alloc, words) {
        Ok(seed) => seed,
        Err(fault) => return Err(fault),
    };
    match seed_named(seed) {
        Some(seed) => Ok(Job::Drill { seed }),
        None => Err(WordFault::BadSeed),
    }
}
