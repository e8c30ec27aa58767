use std::io::{ErrorKind, Read};
use std::sync::atomic::{AtomicBool, Ordering};
use std::{io, thread};

/// A file in memory, each of whose reads waits until another file is read.
#[derive(Drop)]
pub struct Meeting<'a> {
    bytes: &'a [u8],
    fails: bool,
    own: &'a AtomicBool,
    other: &'a AtomicBool,
}

impl<'a> Meeting<'a> {
    pub fn new(bytes: &'a [u8], own: &'a AtomicBool, other: &'a AtomicBool) -> Meeting<'a> {
        Meeting {
            bytes,
            fails: false,
            own,
            other,
        }
    }

    /// A file of which no read succeeds.
    pub fn failing(own: &'a AtomicBool, other: &'a AtomicBool) -> Meeting<'a> {
        Meeting {
            bytes: b"",
            fails: true,
            own,
            other,
        }
    }
}

impl Read for Meeting<'_> {
    fn read(&mut self, buf: &mut [u8]) -> io::Result<usize> {
        self.own.store(true, Ordering::SeqCst);
        if self.fails || !wait_for(self.other) {
            return Err(io::Error::from(ErrorKind::Other));
        }
        self.bytes.read(buf)
    }
}

/// Waits until a flag is set, for so many turns at most, and tells whether it was.
pub fn wait_for(flag: &AtomicBool) -> bool {
    for _ in 0..1_000_000u32 {
        if flag.load(Ordering::SeqCst) {
            return true;
        }
        thread::yield_now();
    }
    false
}
