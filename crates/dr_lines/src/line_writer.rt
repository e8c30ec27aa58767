ghost use Rattle.std.specs.Prelude.{◌≡◌, ◌++◌, ◌∷◌, ◌≤◌, [], IfOk, IsOkUnless, if◌then◌else◌};
ghost use Rattle.dr_lines.specs.Failures.{failures_of, inner_of, failures_after};
ghost use Rattle.dr_lines.specs.Written.{Puts};

use crate::counted::Counted;
use crate::line_error::LineError;
use std::alloc::{AllocError, Global};
use std::io::Write;
use std::marker::Model;

const BUFFER_BYTES: usize = 65536;

/// Writes lines to a stream through a buffer of 64 KiB. A contract sees the bytes that are not yet written. The memory
/// is taken at the start and never grows. What a failed write leaves unwritten is lost.
#[derive(Drop)]
pub struct LineWriter {
    buffer: Vec<u8>,
}

impl Model for LineWriter {
    ghost use Rattle.std.specs.Prelude.{ℕ, List, ◌≤◌, vec_len, vec_capacity};

    ghost Value = { List ℕ };

    ghost view = { λ w. w.buffer.items };

    ghost invariant = { λ w. (vec_len w.buffer ≤ 65536) × (65536 ≤ vec_capacity w.buffer) };
}

impl LineWriter {
    /// A writer of lines that has written nothing. It takes memory for its buffer. The only error is that memory ran out.
    pub fn new(alloc: Global) -> Result<LineWriter, AllocError>
        ensures { IfOk result (λ w. w ≡ []) }
    {
        Ok(LineWriter {
            buffer: Vec::with_capacity(alloc, BUFFER_BYTES)?,
        })
    }

    /// Writes the line and a newline (the byte 10), or keeps them for a later write. It takes time by the bytes, and no memory.
    /// Refusals: 100 `WriteFault` where a write fails.
    pub fn put_line<W: Write>(
        &mut self,
        writer: &mut Counted<W>,
        line: &[u8],
    ) -> Result<(), LineError>
        ensures bytes { Puts (W.contents (inner_of writer.old)) (W.contents (inner_of writer.new))
            (self.old ++ line.now ++ 10 ∷ []) self.new result }
        ensures fault { IsOkUnless result LineError.WriteFault }
        ensures failures { failures_of writer.new ≡ failures_after (failures_of writer.old) result }
    {
        self.put(writer, line)?;
        self.put(writer, b"\n")
    }

    /// Writes what is not yet written, at most 65536 bytes, and flushes the stream. It takes no memory.
    /// Refusals: 100 `WriteFault` where a write fails.
    pub fn flush<W: Write>(&mut self, writer: &mut Counted<W>) -> Result<(), LineError>
        ensures empty { self.new ≡ [] }
        ensures bytes { Puts (W.contents (inner_of writer.old)) (W.contents (inner_of writer.new))
            self.old [] result }
        ensures fault { IsOkUnless result LineError.WriteFault }
        ensures failures { failures_of writer.new ≡ failures_after (failures_of writer.old) result }
    {
        self.empty(writer)?;
        match writer.flush() {
            Ok(()) => Ok(()),
            Err(_) => Err(LineError::WriteFault),
        }
    }

    /// Writes the bytes, or keeps them for a later write. It takes time by the bytes, and no memory.
    /// Refusals: 100 `WriteFault` where a write fails.
    pub fn put<W: Write>(&mut self, writer: &mut Counted<W>, bytes: &[u8]) -> Result<(), LineError>
        ensures bytes { Puts (W.contents (inner_of writer.old)) (W.contents (inner_of writer.new))
            (self.old ++ bytes.now) self.new result }
        ensures fault { IsOkUnless result LineError.WriteFault }
        ensures failures { failures_of writer.new ≡ failures_after (failures_of writer.old) result }
    {
        if self.keep(bytes) {
            return Ok(());
        }
        self.empty(writer)?;
        if self.keep(bytes) {
            return Ok(());
        }
        write_out(writer, bytes)
    }

    // Keeps the bytes for a later write, where there is room for them.
    fn keep(&mut self, bytes: &[u8]) -> bool
        ensures { self.new ≡ (if result then self.old ++ bytes.now else self.old) }
    {
        if bytes.len() > BUFFER_BYTES - self.buffer.len() {
            return false;
        }
        self.buffer.extend_from_slice(bytes).unwrap();
        true
    }

    fn empty<W: Write>(&mut self, writer: &mut Counted<W>) -> Result<(), LineError>
        ensures empty { self.new ≡ [] }
        ensures bytes { Puts (W.contents (inner_of writer.old)) (W.contents (inner_of writer.new))
            self.old [] result }
        ensures fault { IsOkUnless result LineError.WriteFault }
        ensures failures { failures_of writer.new ≡ failures_after (failures_of writer.old) result }
    {
        let result = write_out(writer, self.buffer.as_slice());
        self.buffer.clear();
        result
    }
}

/// Writes the bytes at once, through no buffer: until all are written or a write fails.
/// Refusals: 100 `WriteFault` where a write fails.
pub fn write_out<W: Write>(writer: &mut Counted<W>, bytes: &[u8]) -> Result<(), LineError>
    ensures bytes { Puts (W.contents (inner_of writer.old)) (W.contents (inner_of writer.new)) bytes.now [] result }
    ensures fault { IsOkUnless result LineError.WriteFault }
    ensures failures { failures_of writer.new ≡ failures_after (failures_of writer.old) result }
{
    let mut written = 0;
    while written < bytes.len() {
        match writer.write(&bytes[written..]) {
            Ok(taken) => written += taken,
            Err(_) => return Err(LineError::WriteFault),
        }
    }
    Ok(())
}
