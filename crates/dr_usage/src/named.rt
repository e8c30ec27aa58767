ghost use Rattle.std.specs.Prelude.{◌≡◌, IfOk, map, option_map};
ghost use Rattle.clap.specs.Matches.{found_of};
ghost use Rattle.clap.specs.Walk.{all_of, byte_or_zero, first_of, rows_of};
ghost use Rattle.dr_usage.specs.Refusal.{Gives};
ghost use Rattle.dr_usage.specs.Usage.{AreFiles, AreWorkers, IsInBounds, dump_in, few, files_in, is_few, load_in, named, run_in, seen, word_in, workers_in, workers_of};

use crate::command::Command;
use crate::usage_error::UsageError;
use clap::ArgMatches;
use std::alloc::Global;

/// What a subcommand asks for, by its name and the values of its words. Refusals: 103 `BadUsage` where there is no such
/// subcommand, or a value is missing or out of its bounds.
pub fn named<'a>(
    alloc: Global,
    name: &str,
    found: &ArgMatches<'a>,
) -> Result<Command<'a>, UsageError>
    ensures value { Gives seen result (named (name.now, rows_of (found_of found.now))) }
    ensures bounds { IfOk result IsInBounds }
{
    match name {
        "run" => run_in(found),
        "load" => load_in(alloc, found),
        "dump" => dump_in(found),
        _ => Err(UsageError::BadUsage),
    }
}

fn run_in<'a>(found: &ArgMatches<'a>) -> Result<Command<'a>, UsageError>
    ensures value { Gives seen result (run_in (rows_of (found_of found.now))) }
    ensures bounds { IfOk result IsInBounds }
{
    Ok(Command::Run(workers_in(found)?))
}

fn load_in<'a>(alloc: Global, found: &ArgMatches<'a>) -> Result<Command<'a>, UsageError>
    ensures value { Gives seen result (load_in (rows_of (found_of found.now))) }
    ensures bounds { IfOk result IsInBounds }
{
    let workers = workers_in(found)?;
    let spec = word_in(found, "SPEC")?;
    let query = word_in(found, "QUERY")?;
    let files = files_in(alloc, found)?;
    Ok(Command::Load(workers, spec, query, files))
}

fn dump_in<'a>(found: &ArgMatches<'a>) -> Result<Command<'a>, UsageError>
    ensures value { Gives seen result (dump_in (rows_of (found_of found.now))) }
    ensures bounds { IfOk result IsInBounds }
{
    Ok(Command::Dump(word_in(found, "FILE")?))
}

fn word_in<'a>(found: &ArgMatches<'a>, id: &str) -> Result<&'a str, UsageError>
    ensures { Gives (λ word. word.now) result (word_in id.now (rows_of (found_of found.now))) }
{
    match first_of(found, id) {
        Some(word) => Ok(word),
        None => Err(UsageError::BadUsage),
    }
}

fn workers_in(found: &ArgMatches<'_>) -> Result<u8, UsageError>
    ensures value { Gives (λ workers. workers) result (workers_in (rows_of (found_of found.now))) }
    ensures bounds { IfOk result AreWorkers }
{
    match first_of(found, "workers") {
        Some(text) => workers_of(text),
        None => Ok(1),
    }
}

fn workers_of(text: &str) -> Result<u8, UsageError>
    ensures value { Gives (λ workers. workers) result (workers_of text.now) }
    ensures bounds { IfOk result AreWorkers }
{
    let workers = byte_or_zero(text);
    if workers < 1 || workers > 16 {
        return Err(UsageError::BadUsage);
    }
    Ok(workers)
}

// A number that fits a byte, in decimal digits, a plus allowed; 0 for every other text.
fn byte_or_zero(text: &str) -> u8
    ensures { result ≡ byte_or_zero text.now }
{
    text.parse::<u8>().unwrap_or(0)
}

fn files_in<'a>(alloc: Global, found: &ArgMatches<'a>) -> Result<Vec<&'a str>, UsageError>
    ensures value { Gives (λ files. map (λ file. file.now) files.items) result (files_in (rows_of (found_of found.now))) }
    ensures bounds { IfOk result (λ files. AreFiles files.items) }
{
    match all_of(found, "FILE") {
        Some(files) => few(alloc, files),
        None => Err(UsageError::BadUsage),
    }
}

fn few<'a>(alloc: Global, files: &[&'a str]) -> Result<Vec<&'a str>, UsageError>
    ensures value { Gives (λ files. map (λ file. file.now) files.items) result (few (map (λ file. file.now) files.now)) }
    ensures bounds { IfOk result (λ files. AreFiles files.items) }
{
    if !is_few(files.len()) {
        return Err(UsageError::BadUsage);
    }
    Ok(Vec::from_slice(alloc, files)?)
}

fn is_few(count: usize) -> bool
    ensures { result ≡ is_few count }
{
    1 <= count && count <= 6
}

// The first value that was read of a word.
fn first_of<'a>(found: &ArgMatches<'a>, id: &str) -> Option<&'a str>
    ensures { option_map (λ value. value.now) result ≡ first_of id.now (rows_of (found_of found.now)) }
{
    found.get_str(id)
}

// All values that were read of a word.
fn all_of<'m, 'a>(found: &'m ArgMatches<'a>, id: &str) -> Option<&'m [&'a str]>
    ensures { option_map (λ values. map (λ value. value.now) values.now) result ≡ all_of id.now (rows_of (found_of found.now)) }
{
    found.get_strs(id)
}
