//! Readers and writers of std as streams. What a reader or writer does beyond its bytes, no contract says.
use palm_base::{Failed, Sink, Source, StdSink, StdSource};
use std::cell::Cell;
use std::io;
use std::io::{ErrorKind, Read, Write};
use std::test::Fail;

/// A reader that fails at its first call, and then gives one byte and ends.
#[derive(Drop)]
struct Faltering {
    calls: u8,
}

impl Read for Faltering {
    fn read(&mut self, buffer: &mut [u8]) -> io::Result<usize> {
        self.calls = self.calls.saturating_add(1);
        match self.calls {
            1 => Err(io::Error::from(ErrorKind::Interrupted)),
            2 if !buffer.is_empty() => {
                buffer[0] = b'x';
                Ok(1)
            }
            _ => Ok(0),
        }
    }
}

/// A writer that takes a byte at its first call, fails at its second, takes nothing at its third, and then a byte at
/// each call; it counts its flushes, and one of them fails.
#[derive(Drop)]
struct Faltered<'a> {
    calls: u8,
    flushes: &'a Cell<u8>,
    bad_flush: u8,
}

impl<'a> Write for Faltered<'a> {
    fn write(&mut self, piece: &[u8]) -> io::Result<usize> {
        self.calls = self.calls.saturating_add(1);
        match self.calls {
            2 => Err(io::Error::from(ErrorKind::Interrupted)),
            3 => Ok(0),
            _ => Ok(piece.len().min(1)),
        }
    }

    fn flush(&mut self) -> io::Result<()> {
        self.flushes.set(self.flushes.get().saturating_add(1));
        if self.flushes.get() == self.bad_flush {
            return Err(io::Error::from(ErrorKind::Interrupted));
        }
        Ok(())
    }
}

#[test]
fn a_reader_gives_its_bytes_and_then_ends(rt: HostRuntime) -> Result<(), Fail> {
    let mut source = StdSource::new(b"list".as_slice());
    let mut buffer = [0; 3];
    assert_eq!(rt; source.read(&mut buffer), Ok(3));
    assert_eq!(rt; buffer, *b"lis");
    assert_eq!(rt; source.read(&mut buffer), Ok(1));
    assert_eq!(rt; buffer[0], b't');
    assert_eq!(rt; source.read(&mut buffer), Ok(0));
    Ok(())
}

#[test]
fn a_failed_read_is_told_and_not_tried_again(rt: HostRuntime) -> Result<(), Fail> {
    let mut source = StdSource::new(Faltering { calls: 0 });
    let mut buffer = [0; 3];
    assert_eq!(rt; source.read(&mut buffer), Err(Failed));
    assert_eq!(rt; source.read(&mut buffer), Ok(1));
    assert_eq!(rt; buffer[0], b'x');
    assert_eq!(rt; source.read(&mut buffer), Ok(0));
    Ok(())
}

#[test]
fn a_writer_takes_what_fits_and_then_fails(rt: HostRuntime) -> Result<(), Fail> {
    let mut room = [0; 3];
    let mut sink = StdSink::new(room.as_mut_slice());
    assert_eq!(rt; sink.write(b"bye"), Ok(3));
    assert_eq!(rt; sink.write(b"!"), Err(Failed));
    assert_eq!(rt; room, *b"bye");
    Ok(())
}

#[test]
fn each_write_is_flushed_and_each_fault_told(rt: HostRuntime) -> Result<(), Fail> {
    let flushes = Cell::new(0);
    let mut sink = StdSink::new(Faltered {
        calls: 0,
        flushes: &flushes,
        bad_flush: 5,
    });
    let answers = [Ok(1), Err(Failed), Err(Failed), Ok(1), Err(Failed), Ok(1)];
    for answer in answers {
        let before = flushes.get();
        assert_eq!(rt; sink.write(b"bye"), answer);
        assert_eq!(rt; flushes.get(), before.saturating_add(1));
    }
    Ok(())
}
