use crate::meeting::wait_for;
use std::io;
use std::io::{ErrorKind, Read};
use std::sync::atomic::AtomicBool;

/// A file in memory that ends once a flag is set; where it isn't set for all turns, the read of its end fails.
#[derive(Drop)]
pub struct Ending<'a> {
    bytes: &'a [u8],
    flag: &'a AtomicBool,
}

impl<'a> Ending<'a> {
    pub fn new(bytes: &'a [u8], flag: &'a AtomicBool) -> Ending<'a> {
        Ending { bytes, flag }
    }
}

impl Read for Ending<'_> {
    fn read(&mut self, buf: &mut [u8]) -> io::Result<usize> {
        if self.bytes.is_empty() && !wait_for(self.flag) {
            return Err(io::Error::from(ErrorKind::Other));
        }
        self.bytes.read(buf)
    }
}
