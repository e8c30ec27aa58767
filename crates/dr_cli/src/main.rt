//! The program `druid-node`: its arguments, files and streams. What it is asked for is done by `dr_script`, `dr_load` and `dr_dump`.
#![tactic(auto)]

ghost use Rattle.std.specs.Prelude.{◌≡◌, ◌≤◌, IfOk, length};

mod cli_error;
mod terminal;

use cli_error::CliError;
use dr_base::Text;
use dr_dump::dump_text;
use dr_lines::{Counted, write_out};
use dr_load::{load_run, load_watched};
use dr_script::run_script;
use dr_usage::{Command, USAGE, UsageError, command_of};
use std::alloc::Global;
use std::io::{IsTerminal, Read, Write};
use std::process::ExitCode;
use std::rt::{Env, Files};
use std::sync::Wait;
use std::thread::Threads;
use std::time::Clock;
use std::{env, fs, io};
use terminal::Terminal;

fn main(rt: HostRuntime) -> ExitCode {
    let is_watched = rt.stderr().is_terminal();
    match run(&rt, rt.stdin(), rt.stdout(), is_watched) {
        Ok(status) => ExitCode::from(status),
        Err(CliError::Usage(UsageError::BadUsage)) => {
            let _ = rt.eprintln(USAGE);
            ExitCode::from(2)
        }
        Err(error) => {
            print_refusal(rt.alloc(), rt.stdout(), error);
            ExitCode::FAILURE
        }
    }
}

// Does what the words behind the program's name ask for, over standard input and output. The answer is the status.
fn run<
    T: Env + Files<File = F> + AllocGlobal + Threads + Wait + Clock + Eprint + Sync,
    F: Read + Send + Drop,
    R: Read + Drop,
    W: Write + Drop,
>(rt: &T, input: R, output: W, is_watched: bool) -> Result<u8, CliError> {
    let arguments = arguments(rt)?;
    let words: Vec<&str> = arguments
        .iter()
        .map(|word| word.as_str())
        .collect(rt.alloc())?;
    match command_of(rt.alloc(), words.as_slice())? {
        Command::Run(workers) => {
            let mut reader = Counted::new(input);
            let mut writer = Counted::new(output);
            Ok(run_script(rt, &mut reader, &mut writer, workers))
        }
        Command::Load(workers, spec, query, paths) => {
            let text = load(rt, workers, spec, query, paths.as_slice(), is_watched)?;
            Ok(print(output, text.as_slice()))
        }
        Command::Dump(path) => {
            let file = read_file(rt, path)?;
            let text = dump_text(rt.alloc(), file.as_slice())?;
            Ok(print(output, text.as_slice()))
        }
    }
}

// The words behind the program's name. Words that are no UTF-8 are bad usage.
fn arguments<R: Env + AllocGlobal>(rt: &R) -> Result<Vec<String>, CliError> {
    match env::args(rt) {
        Ok(arguments) => Ok(arguments.skip(1).collect(rt.alloc())?),
        Err(error) if error.kind() == io::ErrorKind::OutOfMemory => Err(CliError::NoMemory),
        Err(_) => Err(CliError::Usage(UsageError::BadUsage)),
    }
}

// Loads files, and where it is watched tells on standard error how far it is. Refusals: 96 `FileFault` with the path of the
// first of SPEC, QUERY and the files that can't be opened, or read, and those of `load_run`.
fn load<
    T: Files<File = F> + AllocGlobal + Threads + Wait + Clock + Eprint + Sync,
    F: Read + Send + Drop,
>(
    rt: &T,
    workers: u8,
    spec: &str,
    query: &str,
    paths: &[&str],
    is_watched: bool,
) -> Result<Vec<u8>, CliError>
    requires { length paths.now ≤ 6 }
{
    let spec = read_file(rt, spec)?;
    let query = read_file(rt, query)?;
    let files = open_files(rt, paths)?;
    let (spec, query) = (spec.as_slice(), query.as_slice());
    if !is_watched {
        return Ok(load_run(rt, spec, query, files, workers)?);
    }
    let terminal = Terminal::new(rt);
    let answer = load_watched(rt, spec, query, files, workers, &terminal);
    terminal.clear();
    Ok(answer?)
}

// The files, to be read. Refusals: 0 `NoMemory`, and 96 `FileFault` for the first that can't be opened.
fn open_files<T: Files<File = F> + AllocGlobal, F: Read + Drop>(
    rt: &T,
    paths: &[&str],
) -> Result<Vec<F>, CliError>
    ensures { IfOk result (λ files. length files.items ≡ length paths.now) }
{
    let mut files = Vec::with_capacity(rt.alloc(), paths.len())?;
    for path in paths {
        files.push(open_file(rt, path)?)?;
    }
    Ok(files)
}

// A file to be read. Refusals: 0 `NoMemory`, and 96 `FileFault` where it can't be opened.
fn open_file<T: Files + AllocGlobal>(rt: &T, path: &str) -> Result<T::File, CliError> {
    match fs::open(rt, path) {
        Ok(file) => Ok(file),
        Err(error) => Err(file_fault(rt, path, &error)?),
    }
}

// The bytes of a file. Refusals: 0 `NoMemory`, and 96 `FileFault` where it can't be opened or read.
fn read_file<T: Files + AllocGlobal>(rt: &T, path: &str) -> Result<Vec<u8>, CliError> {
    match fs::read(rt, path) {
        Ok(bytes) => Ok(bytes),
        Err(error) => Err(file_fault(rt, path, &error)?),
    }
}

// Why a file can't be opened or read.
fn file_fault<T: AllocGlobal>(rt: &T, path: &str, error: &io::Error) -> Result<CliError, CliError> {
    if error.kind() == io::ErrorKind::OutOfMemory {
        return Ok(CliError::NoMemory);
    }
    Ok(CliError::FileFault(Text::from_str(rt.alloc(), path)?))
}

// Writes the line of a refusal.
fn print_refusal<W: Write + Drop>(alloc: Global, output: W, error: CliError) -> u8 {
    match error.line(alloc) {
        Ok(line) => print(output, line.as_slice()),
        Err(_) => print(output, b"refused 0 NoMemory\n"),
    }
}

// Writes a text. The answer is the status: 1 where a write failed.
fn print<W: Write + Drop>(output: W, text: &[u8]) -> u8 {
    let mut writer = Counted::new(output);
    match write_out(&mut writer, text) {
        Ok(()) => 0,
        Err(_) => 1,
    }
}
