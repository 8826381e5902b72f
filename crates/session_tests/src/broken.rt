//! A reader that fails.

use std::io;
use std::io::{ErrorKind, Read};

/// Gives these bytes, and then errs.
#[derive(Drop)]
pub(crate) struct Broken {
    pub(crate) bytes: &'static [u8],
}

impl Read for Broken {
    fn read(&mut self, buf: &mut [u8]) -> io::Result<usize> {
        if self.bytes.is_empty() {
            return Err(io::Error::from(ErrorKind::Interrupted));
        }
        self.bytes.read(buf)
    }
}
