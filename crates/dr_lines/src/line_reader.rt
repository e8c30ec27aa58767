ghost use Rattle.std.specs.Prelude.{◌≡◌, min, ◌^◌, ◌+◌, ◌-◌, ◌<◌, ◌≤◌, ◌↔◌, [], length, take, drop, false, MatchOption, IsTrue, IfOk, OnOk, OnErr, Contains, vec_len, vec_capacity};
ghost use Rattle.std.specs.Io.KnownBytes.{Keeps, Consumes, IsAtEnd};
ghost use Rattle.dr_lines.specs.Failures.{failures_of, reads_of, inner_of, failures_after};
ghost use Rattle.dr_lines.specs.Lines.{left_to_read, longest_line, most_reads, IsInLine, FoundLine, AnswersLine, CountsFailure, CountsReads, steps_left};
ghost use Rattle.dr_lines.specs.Parts.{EndsLines, TakesPart, Grows, IsLineEnd, CountsFault, whole_line, last_line};

use crate::counted::Counted;
use crate::line_error::LineError;
use crate::next_line::NextLine;
use memchr::{memchr, memrchr};
use std::alloc::{AllocError, Global};
use std::io;
use std::io::Read;
use std::marker::Model;

/// The most bytes that a line may have, its newline not counted.
pub const LONGEST_LINE: usize = 1048576;

/// How many reads there may be in all.
const MOST_READS: u64 = 4294967296;

const BUFFER_BYTES: usize = 65536;

/// Reads a stream line by line through a buffer of 64 KiB. A line ends at a newline (the byte 10) or at the end of the
/// input, and a final newline starts no line; a carriage return is part of its line. The memory is taken at the start
/// and never grows: the buffer, and room for the longest line.
#[derive(Drop)]
pub struct LineReader {
    buffer: Vec<u8>,
    start: usize,
    end: usize,
    // Behind the last newline among the bytes up to `end`.
    whole: usize,
    line: Vec<u8>,
    is_too_long: bool,
    reads: u64,
}

impl Model for LineReader {
    ghost use Rattle.std.specs.Prelude.{◌≡◌, ◌≤◌, slice_range, vec_len, vec_capacity};
    ghost use Rattle.dr_lines.specs.Lines.{Reading, longest_line, most_reads};
    ghost use Rattle.dr_lines.specs.Parts.{EndsLines};

    ghost Value = { Reading };

    ghost view = { λ r. record {
      line = r.line.items;
      is_too_long = r.is_too_long;
      ahead = slice_range r.buffer.items r.start r.end;
      reads = r.reads;
    } };

    ghost invariant = { λ r. (r.start ≤ r.end) × (r.end ≤ vec_len r.buffer) × (vec_len r.buffer ≡ 65536)
        × (vec_len r.line ≤ longest_line) × (longest_line ≤ vec_capacity r.line) × (r.reads ≤ most_reads)
        × EndsLines r.buffer.items r.end r.whole };
}

impl LineReader {
    /// A reader of lines that has read nothing. It takes memory for its buffer and for the longest line, some 1.1 MB. The only error
    /// is that memory ran out.
    pub fn new(alloc: Global) -> Result<LineReader, AllocError>
        ensures ahead { IfOk result (λ r. r.ahead ≡ []) }
        ensures reads { IfOk result (λ r. r.reads ≡ 0) }
    {
        Ok(LineReader {
            buffer: empty_buffer(alloc)?,
            start: 0,
            end: 0,
            whole: 0,
            line: Vec::with_capacity(alloc, LONGEST_LINE)?,
            is_too_long: false,
            reads: 0,
        })
    }

    /// The line that was found last, without its newline.
    pub fn line(&self) -> &[u8]
        ensures { result.now ≡ self.now.line }
    {
        self.line.as_slice()
    }

    /// Whether a whole line was read ahead, so that the next line needs no read. It takes constant time.
    pub fn has_line(&self) -> bool
        ensures { IsTrue result ↔ Contains self.now.ahead 10 }
    {
        self.start < self.whole
    }

    /// Reads the next line, and says what came of it: `Line`, which [`LineReader::line`] gives from then on; `TooLong`, one of over
    /// 1048576 bytes, which is skipped; `End`, that no byte is left; or `Failed`, that a read failed, or that 2^32 were made. It takes
    /// time by the bytes of the line, and no memory.
    pub fn next_line<R: Read>(&mut self, reader: &mut Counted<R>) -> NextLine
        ensures answer { AnswersLine result
            (left_to_read self.old (R.remaining (inner_of reader.old)))
            (left_to_read self.new (R.remaining (inner_of reader.new)))
            self.new.line }
        ensures failures { CountsFailure result (failures_of reader.old) (failures_of reader.new) self.new.reads }
        ensures reads { CountsReads self.old.reads self.new.reads (reads_of reader.old) (reads_of reader.new) }
        ensures spent { result ≡ NextLine.Failed → self.new.ahead ≡ [] }
        ensures nearer { FoundLine result → steps_left self.new < steps_left self.old }
    {
        self.clear_line();
        'parts: loop {
            let Ok(()) = self.fill(reader) else {
                return NextLine::Failed;
            };
            if self.is_spent() {
                return self.last_line();
            }
            if self.take_part() {
                return self.whole_line();
            }
        }
    }

    fn clear_line(&mut self)
        ensures { self.new ≡ record self.old { line = []; is_too_long = false } }
    {
        self.line.clear();
        self.is_too_long = false;
    }

    // Whether nothing was read ahead.
    fn is_spent(&self) -> bool
        ensures { IsTrue result ↔ (self.now.ahead ≡ []) }
    {
        self.start == self.end
    }

    // What was found, where the line is whole.
    fn whole_line(&self) -> NextLine
        ensures answer { result ≡ whole_line self.now }
        ensures bound { length self.now.line ≤ longest_line }
    {
        if self.is_too_long {
            NextLine::TooLong
        } else {
            NextLine::Line
        }
    }

    // What was found, where the input is at its end.
    fn last_line(&self) -> NextLine
        ensures answer { result ≡ last_line self.now }
        ensures bound { length self.now.line ≤ longest_line }
    {
        if !self.is_too_long && self.line.is_empty() {
            NextLine::End
        } else {
            self.whole_line()
        }
    }

    // Reads once, where nothing is left of what was read ahead.
    fn fill<R: Read>(&mut self, reader: &mut Counted<R>) -> Result<(), LineError>
        ensures line { self.new ≡ record self.old { ahead = self.new.ahead; reads = self.new.reads } }
        ensures bytes { Keeps (left_to_read self.old (R.remaining (inner_of reader.old)))
            (left_to_read self.new (R.remaining (inner_of reader.new))) }
        ensures end { OnOk result (self.new.ahead ≡ [] → IsAtEnd (R.remaining (inner_of reader.new))) }
        ensures nearer { OnOk result (steps_left self.new ≤ steps_left self.old) }
        ensures read { OnOk result (self.new.ahead ≡ [] → steps_left self.new < steps_left self.old) }
        ensures failures { CountsFault result (failures_of reader.old) (failures_of reader.new) self.new.reads }
        ensures spent { OnErr result (self.new.ahead ≡ []) }
        ensures reads { CountsReads self.old.reads self.new.reads (reads_of reader.old) (reads_of reader.new) }
    {
        if self.start < self.end {
            return Ok(());
        }
        if self.reads == MOST_READS {
            return Err(LineError::ReadFault);
        }
        self.reads += 1;
        self.start = 0;
        self.end = 0;
        self.whole = 0;
        match read_over(reader, &mut self.buffer) {
            Ok(count) => {
                self.end = count;
                self.whole = lines_end(&self.buffer, count);
                Ok(())
            }
            Err(_) => Err(LineError::ReadFault),
        }
    }

    // Moves what was read ahead to the line, up to a newline, and answers whether there was one.
    fn take_part(&mut self) -> bool
        ensures part { TakesPart result self.old self.new }
        ensures reads { self.new.reads ≡ self.old.reads }
        ensures nearer { (self.old.ahead ≡ [] → ⊥) → steps_left self.new < steps_left self.old }
    {
        match newline(self.ahead()) {
            Some(at) => {
                self.grow(at);
                self.skip(at + 1);
                true
            }
            None => {
                let all = self.ahead().len();
                self.grow(all);
                self.skip(all);
                false
            }
        }
    }

    // The bytes that were read ahead.
    fn ahead(&self) -> &[u8]
        ensures { result.now ≡ self.now.ahead }
    {
        &self.buffer[self.start..self.end]
    }

    // Puts the first bytes that were read ahead to the line.
    fn grow(&mut self, count: usize)
        requires { count ≤ length self.old.ahead }
        ensures kept { self.new ≡ record self.old { line = self.new.line; is_too_long = self.new.is_too_long } }
        ensures grows { Grows self.old self.new (take count self.old.ahead) }
    {
        if count <= LONGEST_LINE - self.line.len() {
            let part = &self.buffer[self.start..self.start + count];
            self.line.extend_from_slice(part).unwrap();
        } else {
            self.is_too_long = true;
        }
    }

    fn skip(&mut self, count: usize)
        requires { count ≤ length self.old.ahead }
        ensures { self.new ≡ record self.old { ahead = drop count self.old.ahead } }
    {
        self.start += count;
    }
}

// The bytes that a read fills.
fn empty_buffer(alloc: Global) -> Result<Vec<u8>, AllocError>
    ensures { IfOk result (λ buffer. vec_len buffer ≡ 65536) }
{
    vec![in alloc; 0; BUFFER_BYTES]
}

// The place behind the last newline among so many bytes; 0 where there is none.
fn lines_end(buffer: &Vec<u8>, count: usize) -> usize
    requires { count ≤ vec_len buffer.now }
    ensures { EndsLines buffer.now.items count result }
{
    match memrchr(b'\n', &buffer[..count]) {
        Some(at) => at + 1,
        None => 0,
    }
}

// The place of the first newline.
fn newline(bytes: &[u8]) -> Option<usize>
    ensures { MatchOption result (IsInLine bytes.now) (IsLineEnd bytes.now) }
{
    memchr(b'\n', bytes)
}

fn read_over<R: Read>(reader: &mut Counted<R>, buffer: &mut Vec<u8>) -> io::Result<usize>
    ensures len { vec_len buffer.new ≡ vec_len buffer.old }
    ensures bound { IfOk result (λ n. n ≤ vec_len buffer.new) }
    ensures ok { IfOk result (λ n. Consumes (R.remaining (inner_of reader.old)) (R.remaining (inner_of reader.new)) (take n buffer.new.items)) }
    ensures end { IfOk result (λ n. n ≡ 0 → 0 < vec_len buffer.old → IsAtEnd (R.remaining (inner_of reader.new))) }
    ensures err { OnErr result (Keeps (R.remaining (inner_of reader.old)) (R.remaining (inner_of reader.new))) }
    ensures failures { failures_of reader.new ≡ failures_after (failures_of reader.old) result }
    ensures reads { reads_of reader.new ≡ min (reads_of reader.old + 1) (2 ^ 64 - 1) }
{
    reader.read(buffer.as_mut_slice())
}
