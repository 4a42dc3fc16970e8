//! Streams that fail, and when replies are written.
ghost use Rattle.std.specs.Prelude.{◌<◌};
ghost use Rattle.palm_base.specs.Memory.{source_state, sink_state};

use crate::outcomes::{Outcome, Passing, no_guides, no_orders, outcome_of, words_of};
use palm_base::{ByteList, Failed, NoMemory, Sink, Source, SteadySink, SteadySource};
use palm_cli::{Status, top};
use std::alloc::Global;
use std::cell::Cell;
use std::test::Fail;
use tests_compare::first_difference;

/// A session of 44 bytes.
const TEXT: &str = "var x 1..3\nvar y 1..3\nadd a : x < y\ndomains\n";

/// Its replies, of 27 bytes.
const REPLIES: &str = "ok\nok\nok\nx: 1 2\ny: 2 3\nend\n";

/// A certificate that x is not 2.
const CERTIFICATE: &str = "palm-cert 1\nvar x 1..3\nvar y 1..3\nadd a : x = y\nadd d : y != 2\n\
    step y 2 by d\nstep x 2 by a from 1\nclaim x 2\nend\n";

/// What is asked for: a command by its word, and its input.
#[derive(Clone, Copy)]
struct Asked {
    word: &'static str,
    input: &'static str,
}

const RUN: Asked = Asked {
    word: "run",
    input: TEXT,
};

const CHECK: Asked = Asked {
    word: "check",
    input: CERTIFICATE,
};

/// How the command ends, read in pieces of 11 bytes and written in pieces of so many, where the listed calls of the source and
/// of the sink fail.
fn outcome_in(
    alloc: Global,
    asked: Asked,
    failing_reads: &[u64],
    failing_writes: &[u64],
    piece: usize,
) -> Result<Outcome, NoMemory>
    requires { 0 < piece }
{
    let passing = Passing {
        word: asked.word,
        read: 11,
        written: piece,
        failing_reads,
        failing_writes,
    };
    outcome_of(alloc, asked.input.as_bytes(), &passing)
}

/// What is asked for, the read that fails, what was written before it, and how the command ends; the session takes four
/// reads, and a fifth finds its end.
const FAILING_READS: &[(Asked, u64, &str, Status)] = &[
    (RUN, 1, "", Status::ReadFault),
    (RUN, 2, "ok\n", Status::ReadFault),
    (RUN, 3, "ok\nok\n", Status::ReadFault),
    (RUN, 4, "ok\nok\n", Status::ReadFault),
    (RUN, 5, REPLIES, Status::ReadFault),
    (RUN, 6, REPLIES, Status::Done),
    (CHECK, 1, "", Status::ReadFault),
];

#[test]
fn a_failing_read_ends_the_command(rt: HostRuntime) -> Result<(), Fail> {
    for (asked, call, output, status) in FAILING_READS {
        let outcome = outcome_in(rt.alloc(), *asked, &[*call], &[], 7)?;
        assert_eq!(rt; outcome.status, *status, "read {call}");
        assert_eq!(rt;
            first_difference(output.as_bytes(), &outcome.output),
            None,
            "read {call}"
        );
    }
    Ok(())
}

#[test]
fn a_failing_write_ends_the_run(rt: HostRuntime) -> Result<(), Fail> {
    let mut call = 1;
    for (written, _) in REPLIES.as_bytes().iter().enumerate() {
        let front = &REPLIES.as_bytes()[..written];
        let outcome = outcome_in(rt.alloc(), RUN, &[], &[call], 1)?;
        assert_eq!(rt; outcome.status, Status::WriteFault, "write {call}");
        assert_eq!(rt;
            first_difference(front, &outcome.output),
            None,
            "write {call}"
        );
        call = call.saturating_add(1);
    }
    assert_eq!(rt; call, 28);
    Ok(())
}

#[test]
fn a_write_behind_the_last_may_fail(rt: HostRuntime) -> Result<(), Fail> {
    let outcome = outcome_in(rt.alloc(), RUN, &[], &[28], 1)?;
    assert_eq!(rt; outcome.status, Status::Done);
    assert_eq!(rt; first_difference(REPLIES.as_bytes(), &outcome.output), None);
    Ok(())
}

/// A sink that shows how many bytes it took.
#[derive(Drop)]
struct Shown<'a> {
    inner: SteadySink,
    written: &'a Cell<usize>,
}

impl<'a> Sink for Shown<'a> {
    ghost state = { λ s. sink_state s.inner 0 };

    fn write(&mut self, piece: &[u8]) -> Result<usize, Failed> {
        let count = self.inner.write(piece)?;
        self.written.set(self.written.get().saturating_add(count));
        Ok(count)
    }
}

/// A source of one line a read, which looks at each read whether the sink took so many bytes as the replies to the
/// lines so far have.
#[derive(Drop)]
struct Watching<'a> {
    inner: SteadySource,
    written: &'a Cell<usize>,
    expected: [usize; 4],
    reads: usize,
    waited: bool,
}

impl<'a> Source for Watching<'a> {
    ghost state = { λ s. source_state s.inner 0 };

    fn read(&mut self, buffer: &mut [u8]) -> Result<usize, Failed> {
        let answered = self.reads < 4 && self.expected[self.reads] == self.written.get();
        self.waited = self.waited && answered;
        self.reads = self.reads.saturating_add(1);
        self.inner.read(buffer)
    }
}

#[test]
fn each_line_is_answered_before_the_next_read(rt: HostRuntime) -> Result<(), Fail> {
    let words = words_of(rt.alloc(), &["run"])?;
    let text = b"var x 1..3\ndomains   \ndomain x  \nquit      \nlist      \n";
    let written = Cell::new(0);
    let mut source = Watching {
        inner: SteadySource::new(ByteList::from_slice(rt.alloc(), text)?, 11),
        written: &written,
        expected: [0, 3, 16, 25],
        reads: 0,
        waited: true,
    };
    let mut sink = Shown {
        inner: SteadySink::new(rt.alloc()),
        written: &written,
    };
    let status = top(
        rt.alloc(),
        &words,
        &mut source,
        &mut sink,
        no_guides(rt.alloc()),
        no_orders(rt.alloc()),
    );
    assert_eq!(rt; status, Status::Done);
    assert!(rt;
        source.waited,
        "a read came before the replies to the lines so far"
    );
    assert_eq!(rt; source.reads, 4);
    assert_eq!(rt; written.get(), 29);
    Ok(())
}
