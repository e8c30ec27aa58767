ghost use Rattle.std.specs.Prelude.{◌≡◌, ◌+◌, ◌-◌, ◌^◌, ◌<◌, min, length, IfOk};
ghost use Rattle.std.specs.Io.{ReadsAtMost, WritesAtMost};
ghost use Rattle.std.specs.Io.KnownBytes.{ReadConsumes, WriteAppends, Keeps};
ghost use Rattle.dr_lines.specs.Failures.{failures_of, reads_of, inner_of, failures_after};

use std::io;
use std::io::{ErrorKind, Read, Write};

/// How often a call that was interrupted is made again, before it counts as failed.
const MOST_TRIES: u32 = 1_000_000_000;

/// A reader or a writer whose failed calls are counted, and its reads. A call that a signal interrupted is made again, as
/// Rust's `read_until` and `write_all` do, and isn't counted as failed; where that happens a thousand million times in a row it
/// fails. A write that takes none of the bytes that it is given counts as failed, and is an error. A count stays at 2^64-1 once
/// it is there.
#[derive(Debug, Drop)]
pub struct Counted<T> {
    inner: T,
    failures: u64,
    reads: u64,
}

impl<T> Counted<T> {
    /// The stream, none of whose calls has failed, and which was not read.
    pub fn new(inner: T) -> Counted<T>
        ensures inner { inner_of result ≡ inner }
        ensures failures { failures_of result ≡ 0 }
        ensures reads { reads_of result ≡ 0 }
    {
        Counted {
            inner,
            failures: 0,
            reads: 0,
        }
    }

    /// How many calls have failed: `read` of a reader, `write` and `flush` of a writer.
    pub fn failures(&self) -> u64
        ensures { result ≡ failures_of self.now }
    {
        self.failures
    }

    /// How many reads there were, failed ones among them.
    pub fn reads(&self) -> u64
        ensures { result ≡ reads_of self.now }
    {
        self.reads
    }

    /// The stream whose calls are counted.
    pub fn get_ref(&self) -> &T
        ensures { result.now ≡ inner_of self.now }
    {
        &self.inner
    }

    /// The stream, no longer counted.
    pub fn into_inner(self) -> T
        ensures { result ≡ inner_of self }
    {
        self.inner
    }

    fn count_failure(&mut self)
        ensures inner { inner_of self.new ≡ inner_of self.old }
        ensures failures { failures_of self.new ≡ min (failures_of self.old + 1) (2 ^ 64 - 1) }
        ensures reads { reads_of self.new ≡ reads_of self.old }
    {
        self.failures = self.failures.saturating_add(1);
    }
}

impl<R: Read> Read for Counted<R> {
    ghost remaining = { λ r. R.remaining (inner_of r) };

    fn read(&mut self, buf: &mut [u8]) -> io::Result<usize>
        ensures bound { ReadsAtMost result buf.new }
        ensures bytes { ReadConsumes (R.remaining (inner_of self.old)) (R.remaining (inner_of self.new)) result buf.new }
        ensures failures { failures_of self.new ≡ failures_after (failures_of self.old) result }
        ensures reads { reads_of self.new ≡ min (reads_of self.old + 1) (2 ^ 64 - 1) }
    {
        self.reads = self.reads.saturating_add(1);
        let result = read_through(&mut self.inner, buf);
        if result.is_err() {
            self.count_failure();
        }
        result
    }
}

impl<W: Write> Write for Counted<W> {
    ghost contents = { λ w. W.contents (inner_of w) };

    fn write(&mut self, buf: &[u8]) -> io::Result<usize>
        ensures bound { WritesAtMost result buf.now }
        ensures bytes { WriteAppends (W.contents (inner_of self.old)) (W.contents (inner_of self.new)) result buf.now }
        ensures progress { 0 < length buf.now → IfOk result (λ taken. 0 < taken) }
        ensures failures { failures_of self.new ≡ failures_after (failures_of self.old) result }
        ensures reads { reads_of self.new ≡ reads_of self.old }
    {
        match write_through(&mut self.inner, buf) {
            Ok(0) if !buf.is_empty() => {
                self.count_failure();
                Err(io::Error::from(ErrorKind::WriteZero))
            }
            Ok(taken) => Ok(taken),
            Err(error) => {
                self.count_failure();
                Err(error)
            }
        }
    }

    fn flush(&mut self) -> io::Result<()>
        ensures bytes { Keeps (W.contents (inner_of self.old)) (W.contents (inner_of self.new)) }
        ensures failures { failures_of self.new ≡ failures_after (failures_of self.old) result }
        ensures reads { reads_of self.new ≡ reads_of self.old }
    {
        let result = flush_through(&mut self.inner);
        if result.is_err() {
            self.count_failure();
        }
        result
    }
}

// Reads, as often as a signal interrupts it.
#[tactic(auto, using(crate::proofs::Behind::reads_behind))]
fn read_through<R: Read>(reader: &mut R, buf: &mut [u8]) -> io::Result<usize>
    ensures bound { ReadsAtMost result buf.new }
    ensures bytes { ReadConsumes (R.remaining reader.old) (R.remaining reader.new) result buf.new }
{
    'tries: for _ in 1..MOST_TRIES {
        match reader.read(buf) {
            Err(error) if error.kind() == ErrorKind::Interrupted => {}
            result => return result,
        }
    }
    reader.read(buf)
}

// Writes, as often as a signal interrupts it.
#[tactic(auto, using(crate::proofs::Behind::writes_behind))]
fn write_through<W: Write>(writer: &mut W, buf: &[u8]) -> io::Result<usize>
    ensures bound { WritesAtMost result buf.now }
    ensures bytes { WriteAppends (W.contents writer.old) (W.contents writer.new) result buf.now }
{
    'tries: for _ in 1..MOST_TRIES {
        match writer.write(buf) {
            Err(error) if error.kind() == ErrorKind::Interrupted => {}
            result => return result,
        }
    }
    writer.write(buf)
}

// Flushes, as often as a signal interrupts it.
#[tactic(auto, using(crate::proofs::Behind::keeps_behind))]
fn flush_through<W: Write>(writer: &mut W) -> io::Result<()>
    ensures { Keeps (W.contents writer.old) (W.contents writer.new) }
{
    'tries: for _ in 1..MOST_TRIES {
        match writer.flush() {
            Err(error) if error.kind() == ErrorKind::Interrupted => {}
            result => return result,
        }
    }
    writer.flush()
}
