// The words after the first, read by the simple command of that word.
ghost use Rattle.std.specs.Prelude.{◌≡◌, ◌≢◌, true, false, Some, codes, is_some, map, option_map, string_bytes};
ghost use Rattle.std.specs.Prelude.{IfErr, IfOk, OnOk};
ghost use Rattle.clap.specs.Words.{app_of, first_value, found_of, is_simple_and_free, IsParsedFrom};
ghost use Rattle.clap.specs.declared.error.kind.ErrorKind.TheVariants as ErrorKind;
ghost use Rattle.mov_words.specs.Commands.{check_app, drill_app, margin_app, show_app, tally_app};
ghost use Rattle.mov_words.specs.Commands.{is_taken, value_in, HasValuesOf};
ghost use Rattle.mov_words.specs.Faults.{OrMemory};
ghost use Rattle.mov_words.specs.declared.fault.WordFault.TheVariants as WordFault;

use crate::commands::{check_command, drill_command, margin_command, show_command, tally_command};
use crate::fault::WordFault;
use clap::error::ErrorKind;
use clap::{ArgMatches, Command};
use std::alloc::Global;

/// The texts that the words after `tally` give.
#[derive(Debug, Drop)]
pub(crate) struct TallyWords<'a> {
    pub(crate) rule: &'a str,
    pub(crate) file: &'a str,
    pub(crate) seats: Option<&'a str>,
}

/// The texts that the words after `margin` give.
#[derive(Debug, Drop)]
pub(crate) struct MarginWords<'a> {
    pub(crate) rule: &'a str,
    pub(crate) file: &'a str,
    pub(crate) seats: Option<&'a str>,
    pub(crate) budget: Option<&'a str>,
}

/// The texts that the words after `check` give.
#[derive(Debug, Drop)]
pub(crate) struct CheckWords<'a> {
    pub(crate) file: &'a str,
    pub(crate) cert: &'a str,
}

/// The words after `tally`.
pub(crate) fn tally_words<'a>(
    alloc: Global,
    words: &'a [String],
) -> Result<TallyWords<'a>, WordFault>
    ensures taken { OnOk result (is_taken tally_app (map string_bytes words.now) ≡ true) }
    ensures rule { IfOk result (λ w. value_in tally_app (map string_bytes words.now) (codes "rule") ≡ Some w.rule.now) }
    ensures file { IfOk result (λ w. value_in tally_app (map string_bytes words.now) (codes "file") ≡ Some w.file.now) }
    ensures seats { IfOk result (λ w. value_in tally_app (map string_bytes words.now) (codes "seats")
        ≡ option_map (λ s. s.now) w.seats) }
    ensures err { IfErr result (λ fault. OrMemory fault
        ((fault ≡ WordFault.Line) × (is_taken tally_app (map string_bytes words.now) ≡ false))) }
{
    let command = match tally_command(alloc) {
        Ok(command) => command,
        Err(_) => return Err(WordFault::Memory),
    };
    match take_words(command, words) {
        Ok(matches) => Ok(TallyWords {
            rule: value_of(&matches, "rule"),
            file: value_of(&matches, "file"),
            seats: option_of(&matches, "seats"),
        }),
        Err(fault) => Err(fault),
    }
}

/// The words after `margin`.
pub(crate) fn margin_words<'a>(
    alloc: Global,
    words: &'a [String],
) -> Result<MarginWords<'a>, WordFault>
    ensures taken { OnOk result (is_taken margin_app (map string_bytes words.now) ≡ true) }
    ensures rule { IfOk result (λ w. value_in margin_app (map string_bytes words.now) (codes "rule")
        ≡ Some w.rule.now) }
    ensures file { IfOk result (λ w. value_in margin_app (map string_bytes words.now) (codes "file")
        ≡ Some w.file.now) }
    ensures seats { IfOk result (λ w. value_in margin_app (map string_bytes words.now) (codes "seats")
        ≡ option_map (λ s. s.now) w.seats) }
    ensures budget { IfOk result (λ w. value_in margin_app (map string_bytes words.now) (codes "budget")
        ≡ option_map (λ s. s.now) w.budget) }
    ensures err { IfErr result (λ fault. OrMemory fault
        ((fault ≡ WordFault.Line) × (is_taken margin_app (map string_bytes words.now) ≡ false))) }
{
    let command = match margin_command(alloc) {
        Ok(command) => command,
        Err(_) => return Err(WordFault::Memory),
    };
    match take_words(command, words) {
        Ok(matches) => Ok(MarginWords {
            rule: value_of(&matches, "rule"),
            file: value_of(&matches, "file"),
            seats: option_of(&matches, "seats"),
            budget: option_of(&matches, "budget"),
        }),
        Err(fault) => Err(fault),
    }
}

/// The words after `check`.
pub(crate) fn check_words<'a>(
    alloc: Global,
    words: &'a [String],
) -> Result<CheckWords<'a>, WordFault>
    ensures taken { OnOk result (is_taken check_app (map string_bytes words.now) ≡ true) }
    ensures file { IfOk result (λ w. value_in check_app (map string_bytes words.now) (codes "file") ≡ Some w.file.now) }
    ensures cert { IfOk result (λ w. value_in check_app (map string_bytes words.now) (codes "cert") ≡ Some w.cert.now) }
    ensures err { IfErr result (λ fault. OrMemory fault
        ((fault ≡ WordFault.Line) × (is_taken check_app (map string_bytes words.now) ≡ false))) }
{
    let command = match check_command(alloc) {
        Ok(command) => command,
        Err(_) => return Err(WordFault::Memory),
    };
    match take_words(command, words) {
        Ok(matches) => Ok(CheckWords {
            file: value_of(&matches, "file"),
            cert: value_of(&matches, "cert"),
        }),
        Err(fault) => Err(fault),
    }
}

/// The word after `show`: the name of a file.
pub(crate) fn show_word<'a>(alloc: Global, words: &'a [String]) -> Result<&'a str, WordFault>
    ensures taken { OnOk result (is_taken show_app (map string_bytes words.now) ≡ true) }
    ensures file { IfOk result (λ file. value_in show_app (map string_bytes words.now) (codes "file") ≡ Some file.now) }
    ensures err { IfErr result (λ fault. OrMemory fault
        ((fault ≡ WordFault.Line) × (is_taken show_app (map string_bytes words.now) ≡ false))) }
{
    let command = match show_command(alloc) {
        Ok(command) => command,
        Err(_) => return Err(WordFault::Memory),
    };
    match take_words(command, words) {
        Ok(matches) => Ok(value_of(&matches, "file")),
        Err(fault) => Err(fault),
    }
}

/// The word after `drill`: the text of a seed.
pub(crate) fn drill_word<'a>(alloc: Global, words: &'a [String]) -> Result<&'a str, WordFault>
    ensures taken { OnOk result (is_taken drill_app (map string_bytes words.now) ≡ true) }
    ensures seed { IfOk result (λ seed. value_in drill_app (map string_bytes words.now) (codes "seed")
        ≡ Some seed.now) }
    ensures err { IfErr result (λ fault. OrMemory fault
        ((fault ≡ WordFault.Line) × (is_taken drill_app (map string_bytes words.now) ≡ false))) }
{
    let command = match drill_command(alloc) {
        Ok(command) => command,
        Err(_) => return Err(WordFault::Memory),
    };
    match take_words(command, words) {
        Ok(matches) => Ok(value_of(&matches, "seed")),
        Err(fault) => Err(fault),
    }
}

/// What a simple command makes of the words.
fn take_words<'a>(command: Command<'a>, words: &'a [String]) -> Result<ArgMatches<'a>, WordFault>
    requires { is_simple_and_free (app_of command) ≡ true }
    ensures taken { OnOk result (is_taken (app_of command.entry) (map string_bytes words.now) ≡ true) }
    ensures values { IfOk result (λ m. HasValuesOf (app_of command.entry) (map string_bytes words.now) m) }
    ensures parsed { IfOk result (λ m. IsParsedFrom command.entry m) }
    ensures err { IfErr result (λ fault. OrMemory fault
        ((fault ≡ WordFault.Line) × (is_taken (app_of command.entry) (map string_bytes words.now) ≡ false))) }
{
    match command.try_get_matches_from(words) {
        Ok(matches) => Ok(matches),
        Err(error) => Err(fault_of_kind(error.kind())),
    }
}

/// Want of memory stays what it is, and any other error says that the command doesn't take the words.
fn fault_of_kind(kind: ErrorKind) -> WordFault
    ensures { OrMemory result ((result ≡ WordFault.Line) × (kind ≢ ErrorKind.OutOfMemory)) }
{
    if kind == ErrorKind::OutOfMemory {
        WordFault::Memory
    } else {
        WordFault::Line
    }
}

/// The text of an argument that is there.
fn value_of<'a>(matches: &ArgMatches<'a>, id: &str) -> &'a str
    requires { is_some (first_value (found_of matches.now) id.now) ≡ true }
    ensures { first_value (found_of matches.now) id.now ≡ Some result.now }
{
    matches.get_str(id).unwrap()
}

/// The text of an argument, where it is there.
fn option_of<'a>(matches: &ArgMatches<'a>, id: &str) -> Option<&'a str>
    ensures { first_value (found_of matches.now) id.now ≡ option_map (λ s. s.now) result }
{
    matches.get_str(id)
}
