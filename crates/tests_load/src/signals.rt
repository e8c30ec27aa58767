use std::io;
use std::io::{ErrorKind, Read};

/// A file in memory that gives its bytes one by one, and of which a signal interrupts every third read.
#[derive(Drop)]
pub struct Signals<'a> {
    bytes: &'a [u8],
    calls: u32,
}

impl<'a> Signals<'a> {
    pub fn new(bytes: &'a [u8]) -> Signals<'a> {
        Signals { bytes, calls: 0 }
    }
}

impl Read for Signals<'_> {
    fn read(&mut self, buf: &mut [u8]) -> io::Result<usize> {
        self.calls = self.calls.wrapping_add(1);
        if self.calls % 3 == 0 {
            return Err(io::Error::from(ErrorKind::Interrupted));
        }
        let most = buf.len().min(1);
        self.bytes.read(&mut buf[..most])
    }
}
