//! The commands `check` and `proof`, which judge the text of the source.
ghost use Rattle.palm_pump.specs.Streams.{streams};
ghost use Rattle.palm_cli.specs.Commands.{JudgesSource};
ghost use Rattle.palm_cli.specs.Judging.{WritesVerdict};

use crate::status::Status;
use crate::verdicts::told_of;
use crate::words::Evidence;
use palm_base::{Failed, Sink, Source, write_all};
use palm_pump::{PumpEnd, pump};
use std::alloc::Global;

/// Reads the source to its end, and then writes the verdict on its bytes, as one line.
pub fn judge<S: Source, K: Sink>(
    alloc: Global,
    evidence: Evidence,
    source: &mut S,
    sink: &mut K,
) -> Status
    ensures { JudgesSource evidence (streams (S.state source.old) (K.state sink.old)) (streams (S.state source.new) (K.state sink.new)) result }
{
    let mut text = Vec::new(alloc);
    match pump(alloc, &mut text, source, sink) {
        PumpEnd::Done => tell(alloc, evidence, text.as_slice(), sink),
        end => Status::from(end),
    }
}

/// Writes the line of the verdict on a text.
fn tell<K: Sink>(alloc: Global, evidence: Evidence, text: &[u8], sink: &mut K) -> Status
    ensures { WritesVerdict evidence text.now (K.state sink.old) (K.state sink.new) result }
{
    let Ok(told) = told_of(alloc, evidence, text) else {
        return Status::NoMemory;
    };
    match write_all(sink, told.line.as_slice()) {
        Ok(()) => told.status,
        Err(Failed) => Status::WriteFault,
    }
}
