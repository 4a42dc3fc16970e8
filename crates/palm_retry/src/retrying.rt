//! Readers and writers of std whose calls are made again where they were interrupted.

use std::io;
use std::io::{ErrorKind, Read, Write};

/// How often a call is made at most, before its interruption is told.
pub const MOST_CALLS: u32 = 100;

/// A reader or a writer whose call is made again where a signal interrupted it, up to so many times. Who stands above it is
/// told how the last of these calls ended, and of no other.
#[derive(Drop)]
pub struct Retrying<T: Drop> {
    inner: T,
}

impl<T: Drop> Retrying<T> {
    /// A reader or a writer over this one.
    pub fn new(inner: T) -> Retrying<T> {
        Retrying { inner }
    }
}

impl<R: Read + Drop> Read for Retrying<R> {
    ghost remaining = { λ s. R.remaining s.inner };

    fn read(&mut self, buffer: &mut [u8]) -> io::Result<usize> {
        for _ in 1..MOST_CALLS {
            match self.inner.read(buffer) {
                Err(error) if error.kind() == ErrorKind::Interrupted => {}
                result => return result,
            }
        }
        self.inner.read(buffer)
    }
}

impl<W: Write + Drop> Write for Retrying<W> {
    ghost contents = { λ s. W.contents s.inner };

    fn write(&mut self, piece: &[u8]) -> io::Result<usize> {
        for _ in 1..MOST_CALLS {
            match self.inner.write(piece) {
                Err(error) if error.kind() == ErrorKind::Interrupted => {}
                result => return result,
            }
        }
        self.inner.write(piece)
    }

    fn flush(&mut self) -> io::Result<()> {
        for _ in 1..MOST_CALLS {
            match self.inner.flush() {
                Err(error) if error.kind() == ErrorKind::Interrupted => {}
                result => return result,
            }
        }
        self.inner.flush()
    }
}
