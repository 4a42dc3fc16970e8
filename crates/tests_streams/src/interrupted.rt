//! Calls that are interrupted now and then, and for ever.
use palm_base::{Failed, Sink, Source, StdSink, StdSource};
use palm_retry::Retrying;
use std::io;
use std::io::{ErrorKind, Read, Write};
use std::test::Fail;

/// A stream whose next calls, so many, are interrupted. Any other call takes or gives one byte.
#[derive(Drop)]
struct Disturbed {
    interruptions: u32,
}

impl Disturbed {
    /// What the next call fails with.
    fn disturb(&mut self) -> io::Result<()> {
        if self.interruptions == 0 {
            return Ok(());
        }
        self.interruptions -= 1;
        Err(io::Error::from(ErrorKind::Interrupted))
    }
}

impl Read for Disturbed {
    fn read(&mut self, buffer: &mut [u8]) -> io::Result<usize> {
        self.disturb()?;
        Ok(buffer.len().min(1))
    }
}

impl Write for Disturbed {
    fn write(&mut self, piece: &[u8]) -> io::Result<usize> {
        self.disturb()?;
        Ok(piece.len().min(1))
    }

    fn flush(&mut self) -> io::Result<()> {
        self.disturb()
    }
}

#[test]
fn an_interrupted_call_is_made_again(rt: HostRuntime) -> Result<(), Fail> {
    let mut buffer = [0; 3];
    for interruptions in [0, 1, 99] {
        let mut source = StdSource::new(Retrying::new(Disturbed { interruptions }));
        assert_eq!(rt; source.read(&mut buffer), Ok(1));
        let mut sink = StdSink::new(Retrying::new(Disturbed { interruptions }));
        assert_eq!(rt; sink.write(b"bye"), Ok(1));
    }
    Ok(())
}

#[test]
fn a_call_that_stays_interrupted_has_failed(rt: HostRuntime) -> Result<(), Fail> {
    let mut buffer = [0; 3];
    let mut source = StdSource::new(Retrying::new(Disturbed { interruptions: 100 }));
    assert_eq!(rt; source.read(&mut buffer), Err(Failed));
    assert_eq!(rt; source.read(&mut buffer), Ok(1));
    let mut sink = StdSink::new(Retrying::new(Disturbed { interruptions: 200 }));
    assert_eq!(rt; sink.write(b"bye"), Err(Failed));
    assert_eq!(rt; sink.write(b"bye"), Ok(1));
    Ok(())
}
