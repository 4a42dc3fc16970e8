//! Streams over memory, and whole texts.
use palm_base::{
    ByteList, CallList, Failed, MemorySink, MemorySource, Sink, Source, SteadySink, SteadySource,
    write_all,
};
use std::test::Fail;

#[test]
fn sources_hand_out_pieces(rt: HostRuntime) -> Result<(), Fail> {
    let mut buffer = [0; 3];
    let failing = CallList::from_slice(rt.alloc(), &[2])?;
    let mut source = MemorySource::new(ByteList::from_slice(rt.alloc(), b"list")?, 2, failing);
    assert_eq!(rt; source.read(&mut buffer), Ok(2));
    assert_eq!(rt; source.read(&mut buffer), Err(Failed));
    assert_eq!(rt; source.read(&mut buffer[..1]), Ok(1));
    assert_eq!(rt; buffer, *b"si\0");
    let mut steady = SteadySource::new(ByteList::from_slice(rt.alloc(), b"list")?, 9);
    assert_eq!(rt; steady.read(&mut buffer), Ok(3));
    assert_eq!(rt; steady.read(&mut buffer), Ok(1));
    assert_eq!(rt; steady.read(&mut buffer), Ok(0));
    Ok(())
}

#[test]
fn whole_texts_are_written_in_pieces(rt: HostRuntime) -> Result<(), Fail> {
    let mut sink = MemorySink::new(rt.alloc(), 2, CallList::from_slice(rt.alloc(), &[4])?);
    sink.reserve(6)?;
    assert_eq!(rt; write_all(&mut sink, b"list\n"), Ok(()));
    assert_eq!(rt; write_all(&mut sink, b"quit\n"), Err(Failed));
    assert_eq!(rt; write_all(&mut sink, b"quit\n"), Ok(()));
    assert_eq!(rt; sink.bytes(), b"list\nq".as_slice());
    let mut steady = SteadySink::new(rt.alloc());
    steady.reserve(3)?;
    assert_eq!(rt; steady.write(b"list"), Ok(4));
    assert_eq!(rt; steady.bytes(), b"lis".as_slice());
    Ok(())
}
