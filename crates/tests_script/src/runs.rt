use dr_lines::Counted;
use dr_script::run_script;
use std::io;
use std::io::{ErrorKind, Read, Write};
use std::sync::Wait;
use std::test::Fail;
use std::thread::Threads;

/// Counts calls, and tells which of them a signal interrupts: every third.
#[derive(Drop)]
struct Signals {
    calls: u32,
}

impl Signals {
    fn pass(&mut self) -> io::Result<()> {
        self.calls = self.calls.wrapping_add(1);
        if self.calls % 3 == 0 {
            return Err(io::Error::from(ErrorKind::Interrupted));
        }
        Ok(())
    }
}

// Gives the bytes one by one, and fails after so many reads that no signal interrupts.
#[derive(Drop)]
struct FailingReader<'a> {
    bytes: &'a [u8],
    left: usize,
    signals: Signals,
}

impl Read for FailingReader<'_> {
    fn read(&mut self, buf: &mut [u8]) -> io::Result<usize> {
        self.signals.pass()?;
        if self.left == 0 {
            return Err(io::Error::from(ErrorKind::Other));
        }
        self.left -= 1;
        let most = buf.len().min(1);
        self.bytes.read(&mut buf[..most])
    }
}

// Takes the bytes one by one, and fails once it holds `room`.
#[derive(Drop)]
struct FailingWriter {
    held: Vec<u8>,
    room: usize,
    signals: Signals,
}

impl Write for FailingWriter {
    fn write(&mut self, buf: &[u8]) -> io::Result<usize> {
        self.signals.pass()?;
        if self.held.len() >= self.room {
            return Err(io::Error::from(ErrorKind::Other));
        }
        let taken = buf.len().min(1);
        self.held.extend_from_slice(&buf[..taken])?;
        Ok(taken)
    }

    fn flush(&mut self) -> io::Result<()> {
        self.signals.pass()
    }
}

const SCRIPT: &str =
    r#"{"dataSchema":{"dataSource":"w","timestampSpec":{"column":"t","format":"iso"},"dimensionsSpec":{"dimensions":["page"]}}}
+ {"t":"2024-01-01T00:10:00Z","page":"A"}
stats
"#;

/// Where the second line of the script ends, with its newline.
const TWO_LINES: usize = SCRIPT.len() - 6;

const WRITTEN: &[u8] = b"spec ok\naccepted 0\nprocessed 1 unparseable 0 thrownAway 0\n";

// After how many reads one fails, how much is taken before a write fails, what is written, and the status.
const CASES: [(usize, usize, &[u8], u8); 6] = [
    (1000, 1000, WRITTEN, 0),
    (0, 1000, b"refused 99 ReadFault\n", 1),
    (
        TWO_LINES,
        1000,
        b"spec ok\naccepted 0\nrefused 99 ReadFault\n",
        1,
    ),
    (
        TWO_LINES + 3,
        1000,
        b"spec ok\naccepted 0\nrefused 99 ReadFault\n",
        1,
    ),
    (1000, 0, b"", 1),
    (1000, 12, b"spec ok\nacce", 1),
];

// The status of a run, behind what it wrote.
fn run<T: AllocGlobal + Threads + Wait + Sync>(
    rt: &T,
    reads: usize,
    room: usize,
) -> Result<Vec<u8>, Fail> {
    let mut reader = Counted::new(FailingReader {
        bytes: SCRIPT.as_bytes(),
        left: reads,
        signals: Signals { calls: 0 },
    });
    let mut writer = Counted::new(FailingWriter {
        held: Vec::new(rt.alloc()),
        room,
        signals: Signals { calls: 0 },
    });
    let status = run_script(rt, &mut reader, &mut writer, 1);
    let mut held = writer.into_inner().held;
    held.push(status)?;
    Ok(held)
}

#[test]
fn ends_at_a_failed_read_or_write(rt: HostRuntime) -> Result<(), Fail> {
    for (reads, room, written, status) in CASES {
        let held = run(&rt, reads, room)?;
        assert!(rt; held.as_slice().split_last() == Some((&status, written)));
    }
    Ok(())
}
