ghost use Rattle.std.specs.Prelude.{◌≡◌, ◌++◌, ◌∷◌, [], IsOkUnless, decimal};
ghost use Rattle.dr_lines.specs.Failures.{failures_of, inner_of, failures_after};
ghost use Rattle.dr_lines.specs.Written.{Puts};
ghost use Rattle.dr_script.specs.Replies.{seen};
ghost use Rattle.dr_script.specs.Commands.{joined_line};

use crate::hexadecimal::put_hexadecimal_line;
use dr_lines::{Counted, LineError, LineWriter};
use dr_merge::Purpose;
use dr_requests::CommandError;
use itoa::Buffer;
use std::io::Write;

/// What a line of a script is answered with.
#[derive(Debug, Drop)]
pub enum Reply {
    /// `spec ok`: the first line is a spec.
    SpecOk,
    /// `accepted N`: the line is an event, which got that number, from 0.
    Accepted(u64),
    /// `sealed`: the open range of a chunk was sealed.
    Sealed,
    /// `merged`, or `published vN`: sealed ranges became one, for that purpose, which has that version.
    Joined(Purpose, u64),
    /// `job N`: a job was planned, which got that number, from 0.
    Job(usize),
    /// `committed`: a job was committed.
    Committed,
    /// `pin N`: a snapshot was kept, which got that number, from 0.
    Pinned(usize),
    /// That line, which refuses nothing.
    Said(Vec<u8>),
    /// These bytes in lower-case hexadecimal.
    Hexadecimal(Vec<u8>),
    /// The line of a refusal.
    Refused(Vec<u8>),
    /// A refusal of this crate.
    Fault(CommandError),
}

impl Reply {
    /// Whether the line is refused.
    pub fn is_refused(&self) -> bool
        ensures { result ≡ (seen self.now).is_refused }
    {
        match self {
            Reply::Refused(_) | Reply::Fault(_) => true,
            _ => false,
        }
    }

    /// Writes the reply as a line, part by part: the text of bytes in hexadecimal is never whole in memory.
    /// Refusals: 100 `WriteFault` where a write fails.
    pub fn put<W: Write>(
        self,
        lines: &mut LineWriter,
        writer: &mut Counted<W>,
    ) -> Result<(), LineError>
        ensures bytes { Puts (W.contents (inner_of writer.old)) (W.contents (inner_of writer.new))
            (lines.old ++ (seen self).line ++ 10 ∷ []) lines.new result }
        ensures fault { IsOkUnless result LineError.WriteFault }
        ensures failures { failures_of writer.new ≡ failures_after (failures_of writer.old) result }
    {
        match self {
            Reply::SpecOk => lines.put_line(writer, b"spec ok"),
            Reply::Accepted(number) => put_number(lines, writer, b"accepted ", number),
            Reply::Sealed => lines.put_line(writer, b"sealed"),
            Reply::Joined(purpose, version) => put_joined(lines, writer, purpose, version),
            Reply::Job(number) => put_number(lines, writer, b"job ", number as u64),
            Reply::Committed => lines.put_line(writer, b"committed"),
            Reply::Pinned(number) => put_number(lines, writer, b"pin ", number as u64),
            Reply::Said(line) | Reply::Refused(line) => lines.put_line(writer, line.as_slice()),
            Reply::Hexadecimal(bytes) => put_hexadecimal_line(lines, writer, bytes.as_slice()),
            Reply::Fault(error) => lines.put_line(writer, error.line().as_bytes()),
        }
    }
}

// Writes what ranges that became one were joined for.
fn put_joined<W: Write>(
    lines: &mut LineWriter,
    writer: &mut Counted<W>,
    purpose: Purpose,
    version: u64,
) -> Result<(), LineError>
    ensures bytes { Puts (W.contents (inner_of writer.old)) (W.contents (inner_of writer.new))
        (lines.old ++ joined_line purpose version ++ 10 ∷ []) lines.new result }
    ensures fault { IsOkUnless result LineError.WriteFault }
    ensures failures { failures_of writer.new ≡ failures_after (failures_of writer.old) result }
{
    match purpose {
        Purpose::Merge => lines.put_line(writer, b"merged"),
        Purpose::Publish => put_number(lines, writer, b"published v", version),
    }
}

// Writes a line of a word and a number in decimal.
fn put_number<W: Write>(
    lines: &mut LineWriter,
    writer: &mut Counted<W>,
    word: &[u8],
    number: u64,
) -> Result<(), LineError>
    ensures bytes { Puts (W.contents (inner_of writer.old)) (W.contents (inner_of writer.new))
        (lines.old ++ (word.now ++ decimal number) ++ 10 ∷ []) lines.new result }
    ensures fault { IsOkUnless result LineError.WriteFault }
    ensures failures { failures_of writer.new ≡ failures_after (failures_of writer.old) result }
{
    lines.put(writer, word)?;
    lines.put_line(writer, Buffer::new().format(number).as_bytes())
}
