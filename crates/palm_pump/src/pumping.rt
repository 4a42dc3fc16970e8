//! The loop that reads.
ghost use Rattle.std.specs.Prelude.{◌≡◌, ◌<◌, ◌≤◌, IfOk, length};
ghost use Rattle.palm_pump.specs.Pumping.{Begins, HasPumped, Pumps, PumpsOn};
ghost use Rattle.palm_pump.specs.Streams.{streams};

use crate::ending::PumpEnd;
use crate::limits::{MOST_INPUT_BYTES, PIECE};
use crate::taker::Taker;
use palm_base::{Sink, Source};
use std::alloc::Global;

/// Reads the source in pieces, to its end, until the taker takes no more, or until too much was read, and hands each piece on
/// before the next read.
pub fn pump<T: Taker, S: Source, K: Sink>(
    alloc: Global,
    taker: &mut T,
    source: &mut S,
    sink: &mut K,
) -> PumpEnd
    requires { Begins (T.takes taker.old) (K.state sink.old) taker.old }
    ensures { Pumps (T.takes taker.old) (streams (S.state source.old) (K.state sink.old))
        (streams (S.state source.new) (K.state sink.new)) taker.new result }
{
    let Ok(mut buffer) = vec![in alloc; 0u8; PIECE] else {
        return PumpEnd::NoMemory;
    };
    let mut taken = 0;
    while taken <= MOST_INPUT_BYTES {
        match pump_once(taker, source, &mut buffer, sink, taken) {
            Ok(count) => taken += count,
            Err(end) => return end,
        }
    }
    PumpEnd::TooLong
}

/// Reads once, where so many bytes were taken before, and hands on the first bytes of the piece, as many as there is room
/// for. It tells how many bytes were read, or how reading ends there.
fn pump_once<T: Taker, S: Source, K: Sink>(
    taker: &mut T,
    source: &mut S,
    buffer: &mut [u8],
    sink: &mut K,
    taken: usize,
) -> Result<usize, PumpEnd>
    requires piece { length buffer.old ≡ PIECE }
    requires room { taken ≤ MOST_INPUT_BYTES }
    requires pumped { HasPumped T.takes (streams (S.state source.old) (K.state sink.old)) taken
        taker.old }
    ensures some { IfOk result (λ count. (0 < count) × (count ≤ PIECE)) }
    ensures pumps { PumpsOn T.takes (streams (S.state source.old) (K.state sink.old)) taken
        taker.old (streams (S.state source.new) (K.state sink.new)) taker.new result }
{
    let Ok(count) = source.read(buffer) else {
        return Err(PumpEnd::ReadFault);
    };
    if count == 0 {
        taker.finish(sink)?;
        return Err(PumpEnd::Done);
    }
    let room = MOST_INPUT_BYTES - taken;
    if taker.take(&buffer[..count.min(room)], sink)? {
        Ok(count)
    } else {
        Err(PumpEnd::Done)
    }
}
