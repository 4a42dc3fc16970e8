//! Streams that fail, and words on the command line.
use crate::served::{Outcome, served, sink_for};
use crate::sessions::{TWO, TWO_ANSWERED};
use palm_base::{ByteList, CallList, MemorySink, MemorySource, NoMemory};
use palm_hub::{HubStatus, hub};
use std::alloc::Global;
use std::test::Fail;
use tests_compare::first_difference;

/// How a hub ends over the two sessions, read in pieces of 11 bytes and written in pieces of 1, where the listed calls of the
/// source and of the sink fail.
fn stopped(alloc: Global, reads: &[u64], writes: &[u64]) -> Result<Outcome, NoMemory> {
    let bytes = ByteList::from_slice(alloc, TWO.as_bytes())?;
    let mut source = MemorySource::new(bytes, 11, CallList::from_slice(alloc, reads)?);
    let mut sink = MemorySink::new(alloc, 1, CallList::from_slice(alloc, writes)?);
    sink.reserve(256)?;
    let status = served(alloc, &mut source, &mut sink);
    let output = Vec::from_slice(alloc, sink.bytes())?;
    Ok(Outcome { status, output })
}

/// The first bytes of what is written of them.
fn front(written: usize) -> &'static [u8] {
    let whole = TWO_ANSWERED.as_bytes();
    &whole[..written.min(whole.len())]
}

#[test]
fn a_failing_write_leaves_what_was_written_before(rt: HostRuntime) -> Result<(), Fail> {
    let mut call = 1;
    for written in 0..TWO_ANSWERED.len() {
        let got = stopped(rt.alloc(), &[], &[call])?;
        assert_eq!(rt; got.status, HubStatus::WriteFault, "at {call}");
        assert_eq!(rt;
            first_difference(front(written), &got.output),
            None,
            "at {call}"
        );
        call = call.saturating_add(1);
    }
    let got = stopped(rt.alloc(), &[], &[call])?;
    assert_eq!(rt; got.status, HubStatus::Done);
    assert_eq!(rt;
        first_difference(TWO_ANSWERED.as_bytes(), &got.output),
        None
    );
    Ok(())
}

/// The read that fails, and how many bytes were written before it: the input takes eight reads, and a ninth finds its end.
const READS: &[(u64, usize)] = &[
    (1, 0),
    (2, 0),
    (3, 7),
    (4, 14),
    (5, 21),
    (6, 40),
    (7, 86),
    (8, 94),
    (9, 149),
];

#[test]
fn a_failing_read_leaves_the_replies_before_it(rt: HostRuntime) -> Result<(), Fail> {
    for (call, written) in READS {
        let got = stopped(rt.alloc(), &[*call], &[])?;
        assert_eq!(rt; got.status, HubStatus::ReadFault, "at {call}");
        assert_eq!(rt;
            first_difference(front(*written), &got.output),
            None,
            "at {call}"
        );
    }
    let got = stopped(rt.alloc(), &[10], &[])?;
    assert_eq!(rt; got.status, HubStatus::Done);
    assert_eq!(rt;
        first_difference(TWO_ANSWERED.as_bytes(), &got.output),
        None
    );
    Ok(())
}

/// How a hub with these words ends, over a source of which the first read fails.
fn ended(alloc: Global, words: &[&str], sink: &mut MemorySink) -> Result<HubStatus, NoMemory> {
    let mut list = Vec::new(alloc);
    for word in words {
        list.push(String::from_str(alloc, word)?)?;
    }
    let bytes = ByteList::from_slice(alloc, b"a list\n")?;
    let mut source = MemorySource::new(bytes, 4, CallList::from_slice(alloc, &[1])?);
    Ok(hub(alloc, &list, &mut source, sink))
}

/// Words after the program's name.
const WORDS: &[&[&str]] = &[
    &["run"],
    &[""],
    &["--help"],
    &["help"],
    &["--"],
    &["-"],
    &["palm_hub"],
    &["a", "b"],
];

#[test]
fn a_word_gets_the_usage_line(rt: HostRuntime) -> Result<(), Fail> {
    for words in WORDS {
        let mut sink = sink_for(rt.alloc(), 7)?;
        assert_eq!(rt; ended(rt.alloc(), words, &mut sink)?, HubStatus::Usage);
        assert_eq!(rt;
            first_difference(b"usage: palm_hub\n", sink.bytes()),
            None,
            "{words:?}"
        );
    }
    Ok(())
}

#[test]
fn a_usage_line_that_is_not_written_is_told(rt: HostRuntime) -> Result<(), Fail> {
    let mut sink = MemorySink::new(rt.alloc(), 1, CallList::from_slice(rt.alloc(), &[7])?);
    sink.reserve(64)?;
    assert_eq!(rt;
        ended(rt.alloc(), &["run"], &mut sink)?,
        HubStatus::WriteFault
    );
    assert_eq!(rt; first_difference(b"usage:", sink.bytes()), None);
    Ok(())
}

#[test]
fn statuses_have_their_numbers(rt: HostRuntime) {
    let numbers = [
        (HubStatus::Done, 0),
        (HubStatus::Usage, 2),
        (HubStatus::ReadFault, 3),
        (HubStatus::WriteFault, 4),
        (HubStatus::NoMemory, 5),
        (HubStatus::TooLong, 6),
    ];
    for (status, number) in numbers {
        assert_eq!(rt; status.number(), number);
    }
}
