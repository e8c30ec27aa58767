ghost use Rattle.std.specs.Prelude.{◌≡◌, false, IfOk, map, option_map};
ghost use Rattle.clap.specs.Words.{app_of, found_of, rows_of, rule_of, subcommand_rows_of};
ghost use Rattle.clap.specs.declared.builder.command.Command.TheViews.{out-Command};
ghost use Rattle.clap.specs.declared.builder.arg.Arg.{Arg};
ghost use Rattle.dr_usage.specs.Refusal.{Gives};
ghost use Rattle.dr_usage.specs.Usage.{IsInBounds, IsRefusedFor, command_of, dump_usage, files_rule, load_usage, run_usage, seen, usage, word_rule, workers_rule};

use crate::command::Command;
use crate::named::named;
use crate::usage_error::UsageError;
use clap::error::ErrorKind;
use clap::{Arg, ArgAction, ArgMatches};
use std::alloc::{AllocError, Global};

/// The line that tells how the program is called.
pub const USAGE: &str =
    "usage: druid-node run [--workers N] | load [--workers N] SPEC QUERY FILE.. | dump FILE";

/// What the words behind the program's name ask for, as `clap` reads them: `run` alone is a run with one worker.
/// There are 1 to 16 workers and 1 to 6 files. Refusals: 103 `BadUsage` for all other words, and 0 `NoMemory`. It takes time and
/// memory by the bytes of the words.
pub fn command_of<'a>(alloc: Global, words: &'a [&'a str]) -> Result<Command<'a>, UsageError>
    ensures command { Gives seen result (command_of (map (λ word. word.now) words.now)) }
    ensures bounds { IfOk result IsInBounds }
{
    match usage(alloc)?.try_get_matches_from(words) {
        Ok(matches) => match entered(&matches) {
            Some((name, found)) => named(alloc, name, found),
            None => Err(UsageError::BadUsage),
        },
        Err(error) => Err(refusal(error.kind())),
    }
}

// The subcommand that was read, with what was read of its words.
fn entered<'m, 'a>(matches: &'m ArgMatches<'a>) -> Option<(&'a str, &'m ArgMatches<'a>)>
    ensures { option_map (λ entry. (entry.0.now, rows_of (found_of entry.1.now))) result ≡ subcommand_rows_of matches.now }
{
    matches.subcommand()
}

fn refusal(kind: ErrorKind) -> UsageError
    ensures { IsRefusedFor kind result }
{
    match kind {
        ErrorKind::OutOfMemory => UsageError::NoMemory,
        _ => UsageError::BadUsage,
    }
}

// The words that the program takes: a subcommand with its words, and no request for help.
#[tactic(auto, unfolding(crate::specs::Usage::usage))]
fn usage<'a>(alloc: Global) -> Result<clap::Command<'a>, AllocError>
    ensures { IfOk result (λ command. app_of command ≡ usage) }
{
    clap::Command::new(alloc, "druid-node")
        .no_binary_name(true)
        .disable_help_flag(true)
        .disable_help_subcommand(true)
        .subcommand_required(true)
        .subcommand(run(alloc)?)?
        .subcommand(load(alloc)?)?
        .subcommand(dump(alloc)?)
}

#[tactic(auto, unfolding(crate::specs::Usage::run_usage))]
fn run<'a>(alloc: Global) -> Result<clap::Command<'a>, AllocError>
    ensures app { IfOk result (λ command. app_of command ≡ run_usage) }
    ensures globals { IfOk result (λ command. (out-Command command).has_globals ≡ false) }
{
    clap::Command::new(alloc, "run").arg(workers(alloc))
}

#[tactic(auto, unfolding(crate::specs::Usage::load_usage))]
fn load<'a>(alloc: Global) -> Result<clap::Command<'a>, AllocError>
    ensures app { IfOk result (λ command. app_of command ≡ load_usage) }
    ensures globals { IfOk result (λ command. (out-Command command).has_globals ≡ false) }
{
    clap::Command::new(alloc, "load")
        .arg(workers(alloc))?
        .arg(word(alloc, "SPEC"))?
        .arg(word(alloc, "QUERY"))?
        .arg(files(alloc))
}

#[tactic(auto, unfolding(crate::specs::Usage::dump_usage))]
fn dump<'a>(alloc: Global) -> Result<clap::Command<'a>, AllocError>
    ensures app { IfOk result (λ command. app_of command ≡ dump_usage) }
    ensures globals { IfOk result (λ command. (out-Command command).has_globals ≡ false) }
{
    clap::Command::new(alloc, "dump").arg(word(alloc, "FILE"))
}

fn workers<'a>(alloc: Global) -> Arg<'a>
    ensures rule { rule_of result ≡ workers_rule }
    ensures local { result.global ≡ false }
{
    Arg::new(alloc, "workers")
        .long("workers")
        .action(ArgAction::Set)
}

fn word<'a>(alloc: Global, id: &'a str) -> Arg<'a>
    ensures rule { rule_of result ≡ word_rule id.entry.now }
    ensures local { result.global ≡ false }
{
    Arg::new(alloc, id).required(true).action(ArgAction::Set)
}

fn files<'a>(alloc: Global) -> Arg<'a>
    ensures rule { rule_of result ≡ files_rule }
    ensures local { result.global ≡ false }
{
    word(alloc, "FILE").num_args(1..)
}
