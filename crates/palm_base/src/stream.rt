//! Where bytes come from and where they go. Each stream counts its faults, and a failure has its cause in that count.
ghost use Rattle.std.specs.Prelude.{◌<◌, length};
ghost use Rattle.palm_base.specs.Streams.{SourceState, SinkState, HasCause, Reads, IsSameSink, Writes};

use crate::errors::Failed;

/// A stream of bytes to read from.
pub trait Source {
    /// The bytes that are left, where the source tells them, and how many faults there were.
    ghost state: { Self → SourceState };

    /// Reads the next bytes into the front of the buffer; `Ok(0)` is the end of the stream.
    fn read(&mut self, buffer: &mut [u8]) -> Result<usize, Failed>
        requires { 0 < length buffer.old }
        ensures cause { HasCause (state self.old).faults (state self.new).faults result }
        ensures bytes { Reads (state self.old) (state self.new) buffer.new result };
}

/// A stream of bytes to write to.
pub trait Sink {
    /// The bytes written so far, where the sink tells them, how many faults there were, which sink it is (0 where it
    /// writes the bytes as they are), and whether a failure left something of its own behind the bytes.
    ghost state: { Self → SinkState };

    /// Writes some of the piece's first bytes, and answers how many.
    fn write(&mut self, piece: &[u8]) -> Result<usize, Failed>
        requires { 0 < length piece.now }
        ensures cause { HasCause (state self.old).faults (state self.new).faults result }
        ensures bytes { Writes (state self.old) (state self.new) piece.now result }
        ensures stands { IsSameSink (state self.old) (state self.new) result };
}
