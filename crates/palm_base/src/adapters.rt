//! The edge to the outside: any reader of std as a source, and any writer of std as a sink.
ghost use Rattle.std.specs.Prelude.{◌≡◌, ◌<◌, length, take, IfOk, OnOk, None};
ghost use Rattle.std.specs.Io.KnownBytes.{Appends, WriteAppends};
ghost use Rattle.palm_base.specs.Streams.{HasCause, Reads, IsSameSink, Writes, source, silent_sink};
ghost use Rattle.palm_base.specs.Adapters.{Counted};

use crate::counts::next_count;
use crate::errors::Failed;
use crate::stream::{Sink, Source};
use std::io::{Read, Write};
use std::marker::Model;

/// A reader of std as a source. It tells the bytes that the reader tells, and counts the reader's errors.
#[derive(Drop)]
pub struct StdSource<R: Read + Drop> {
    reader: R,
    faults: u64,
}

impl<R: Read + Drop> Model for StdSource<R> {
    ghost use Rattle.palm_base.specs.Adapters.{Counted};

    ghost Value = { Counted R };

    ghost view = { λ s. record { inner = s.reader; faults = s.faults } };
}

impl<R: Read + Drop> StdSource<R> {
    /// No fault so far.
    pub fn new(reader: R) -> StdSource<R>
        ensures { result ≡ record { inner = reader; faults = 0 } }
    {
        StdSource { reader, faults: 0 }
    }
}

impl<R: Read + Drop> Source for StdSource<R> {
    ghost state = { λ s. source (R.remaining s.inner) s.faults };

    fn read(&mut self, buffer: &mut [u8]) -> Result<usize, Failed> {
        match self.reader.read(buffer) {
            Ok(count) => Ok(count),
            Err(_) => {
                self.faults = next_count(self.faults);
                Err(Failed)
            }
        }
    }
}

/// A writer of std as a sink. It flushes after each write, and counts an error of either, and a write of nothing.
/// It tells nothing of its bytes; of a writer that tells its own, it is known that they were taken as answered.
#[derive(Drop)]
pub struct StdSink<W: Write + Drop> {
    writer: W,
    faults: u64,
}

impl<W: Write + Drop> Model for StdSink<W> {
    ghost use Rattle.palm_base.specs.Adapters.{Counted};

    ghost Value = { Counted W };

    ghost view = { λ s. record { inner = s.writer; faults = s.faults } };
}

impl<W: Write + Drop> StdSink<W> {
    /// No fault so far.
    pub fn new(writer: W) -> StdSink<W>
        ensures { result ≡ record { inner = writer; faults = 0 } }
    {
        StdSink { writer, faults: 0 }
    }
}

impl<W: Write + Drop> Sink for StdSink<W> {
    ghost state = { λ s. silent_sink s.faults };

    fn write(&mut self, piece: &[u8]) -> Result<usize, Failed>
        requires { 0 < length piece.now }
        ensures cause { HasCause self.old.faults self.new.faults result }
        ensures bytes { Writes (silent_sink self.old.faults) (silent_sink self.new.faults) piece.now result }
        ensures stands { IsSameSink (silent_sink self.old.faults) (silent_sink self.new.faults) result }
        ensures taken { IfOk result (λ n. Appends (W.contents self.old.inner) (W.contents self.new.inner) (take n piece.now)) }
    {
        let written = self.writer.write(piece);
        let flushed = self.writer.flush();
        match (written, flushed) {
            (Ok(count), Ok(())) if count > 0 => Ok(count),
            _ => {
                self.faults = next_count(self.faults);
                Err(Failed)
            }
        }
    }
}
