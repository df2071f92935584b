// The simple commands of `clap` that read the words after the first: their arguments, and what each parse gives.
ghost use Rattle.std.specs.Prelude.{◌≡◌, [], false, codes, IfOk};
ghost use Rattle.clap.specs.Words.{app_of, args_of, groups_of, rule_of, IsPlainArg};
ghost use Rattle.clap.specs.Built.{TakesValue};
ghost use Rattle.clap.specs.declared.builder.command.Command.TheViews.{out-Command as fields_of};
ghost use Rattle.mov_words.specs.Commands as spec;
ghost use Rattle.mov_words.specs.Commands.{AlwaysGives, check_app, drill_app, margin_app, show_app, tally_app};

use clap::{Arg, ArgAction, Command};
use mov_base::Memory;
use std::alloc::Global;

/// `RULE FILE [--seats N]`
pub(crate) fn tally_command<'a>(alloc: Global) -> Result<Command<'a>, Memory>
    ensures app { IfOk result (λ c. app_of c ≡ tally_app) }
    ensures rule { IfOk result (λ c. AlwaysGives c (codes "rule")) }
    ensures file { IfOk result (λ c. AlwaysGives c (codes "file")) }
{
    bare_command(alloc, "tally")
        .arg(positional(alloc, "rule"))?
        .arg(positional(alloc, "file"))?
        .arg(option(alloc, "seats"))
}

/// `RULE FILE [--seats N] [--budget N]`
pub(crate) fn margin_command<'a>(alloc: Global) -> Result<Command<'a>, Memory>
    ensures app { IfOk result (λ c. app_of c ≡ margin_app) }
    ensures rule { IfOk result (λ c. AlwaysGives c (codes "rule")) }
    ensures file { IfOk result (λ c. AlwaysGives c (codes "file")) }
{
    bare_command(alloc, "margin")
        .arg(positional(alloc, "rule"))?
        .arg(positional(alloc, "file"))?
        .arg(option(alloc, "seats"))?
        .arg(option(alloc, "budget"))
}

/// `FILE CERT`
pub(crate) fn check_command<'a>(alloc: Global) -> Result<Command<'a>, Memory>
    ensures app { IfOk result (λ c. app_of c ≡ check_app) }
    ensures file { IfOk result (λ c. AlwaysGives c (codes "file")) }
    ensures cert { IfOk result (λ c. AlwaysGives c (codes "cert")) }
{
    bare_command(alloc, "check")
        .arg(positional(alloc, "file"))?
        .arg(positional(alloc, "cert"))
}

/// `FILE`
pub(crate) fn show_command<'a>(alloc: Global) -> Result<Command<'a>, Memory>
    ensures app { IfOk result (λ c. app_of c ≡ show_app) }
    ensures file { IfOk result (λ c. AlwaysGives c (codes "file")) }
{
    bare_command(alloc, "show").arg(positional(alloc, "file"))
}

/// `SEED`
pub(crate) fn drill_command<'a>(alloc: Global) -> Result<Command<'a>, Memory>
    ensures app { IfOk result (λ c. app_of c ≡ drill_app) }
    ensures seed { IfOk result (λ c. AlwaysGives c (codes "seed")) }
{
    bare_command(alloc, "drill").arg(positional(alloc, "seed"))
}

/// A command without help and version options, which reads all words as its arguments.
fn bare_command<'a>(alloc: Global, name: &'a str) -> Command<'a>
    ensures app { app_of result ≡ spec.bare_command name.entry.now }
    ensures empty { (args_of result ≡ []) × (groups_of result ≡ []) }
    ensures local { (fields_of result).has_globals ≡ false }
    ensures negates { (fields_of result).subcommand_negates_reqs ≡ false }
{
    Command::new(alloc, name)
        .no_binary_name(true)
        .disable_help_flag(true)
        .disable_version_flag(true)
}

/// A required positional argument.
fn positional<'a>(alloc: Global, id: &'a str) -> Arg<'a>
    ensures id { result.id ≡ id.entry }
    ensures rule { rule_of result ≡ spec.positional id.entry.now }
    ensures plain { IsPlainArg result × (result.global ≡ false) }
    ensures value { TakesValue result }
{
    Arg::new(alloc, id).required(true).action(ArgAction::Set)
}

/// An option with a value.
fn option<'a>(alloc: Global, id: &'a str) -> Arg<'a>
    ensures id { result.id ≡ id.entry }
    ensures rule { rule_of result ≡ spec.option id.entry.now }
    ensures plain { IsPlainArg result × (result.global ≡ false) }
{
    Arg::new(alloc, id).long(id).action(ArgAction::Set)
}
