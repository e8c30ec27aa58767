ghost use Rattle.std.specs.Prelude.{◌≡◌, ◌≤◌, length, true, IfErr, OnErr};
ghost use Rattle.dr_requests.specs.declared.command_error.CommandError.TheVariants.{NoMemory};
ghost use Rattle.dr_base.specs.Reading.{GivesUnless};
ghost use Rattle.dr_requests.specs.Request.{request_in};
ghost use Rattle.dr_script.specs.Commands.{AsksIn, ThreadsIf, is_lack, is_memory, refused, refused_by, told};
ghost use Rattle.dr_lines.specs.Lines.{longest_line};
ghost use Rattle.dr_script.specs.Replies.{IsAnswer, Opens, seen};
ghost use Rattle.dr_script.specs.Script.{Moves, line_done};

use crate::reply::Reply;
use crate::script_error::ScriptError;
use crate::session::Session;
use dr_base::{Arg, fault_line};
use dr_requests::{CommandError, request_in};
use dr_spec::IngestSpec;
use std::alloc::Global;
use std::sync::Wait;
use std::thread::Threads;

/// The session that the first line of a script begins, or what is answered where the line is refused: the refusals of
/// [`IngestSpec::parse`].
pub fn open_session(alloc: Global, line: &[u8]) -> Result<Session, Reply>
    requires { length line.now ≤ longest_line }
    ensures { Opens line.now result }
{
    match IngestSpec::parse(alloc, line) {
        Ok(spec) => match Session::new(alloc, spec) {
            Ok(session) => Ok(session),
            Err(_) => Err(Reply::Fault(CommandError::NoMemory)),
        },
        Err(error) => Err(refused(alloc, error.number(), error.name(), error.arg())),
    }
}

/// The reply to a later line, which is a command; queries are answered by so many workers. Refusals: 101 `BadCommand` for a line
/// that fits no command, or names no job or snapshot, and those of the command.
pub fn answer_line<T: Threads + Wait + Sync>(
    rt: &T,
    alloc: Global,
    session: &mut Session,
    line: &[u8],
    workers: usize,
) -> Reply
    requires { length line.now ≤ longest_line }
    ensures { Moves session.old line.now (seen result) session.new }
{
    match carry_out(rt, alloc, session, line, workers) {
        Ok(reply) => reply,
        Err(error) => told(alloc, error),
    }
}

fn carry_out<T: Threads + Wait + Sync>(
    rt: &T,
    alloc: Global,
    session: &mut Session,
    line: &[u8],
    workers: usize,
) -> Result<Reply, ScriptError>
    ensures step { GivesUnless is_lack (λ reply. (seen reply, session.new)) result (line_done session.old line.now) }
    ensures threads { IfErr result (ThreadsIf (AsksIn (request_in line.now))) }
    ensures err { OnErr result (session.new ≡ session.old) }
{
    let request = request_in(line)?;
    session.carry_out(rt, alloc, request, workers)
}

// What is written where a command changed nothing.
fn told(alloc: Global, error: ScriptError) -> Reply
    ensures told { IsAnswer (told error) (seen result) }
    ensures memory { is_memory error ≡ true → seen result ≡ refused_by NoMemory }
{
    match error {
        ScriptError::Command(error) => Reply::Fault(error),
        ScriptError::Time(error) => refused(alloc, error.number(), error.name(), None),
        ScriptError::Core(error) => refused(alloc, error.number(), error.name(), None),
        ScriptError::Query(error) => refused(alloc, error.number(), error.name(), error.arg()),
        ScriptError::Answer(error) => refused(alloc, error.number(), error.name(), None),
        ScriptError::WorkerNotStarted => refused(alloc, 80, "WorkerNotStarted", None),
    }
}

fn refused(alloc: Global, number: u16, name: &str, arg: Option<Arg>) -> Reply
    ensures { IsAnswer (refused number name.now arg) (seen result) }
{
    match fault_line(alloc, number, name, arg) {
        Ok(line) => Reply::Refused(line),
        Err(_) => Reply::Fault(CommandError::NoMemory),
    }
}
