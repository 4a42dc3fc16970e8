//! How reading ends.
use palm_lang::WriteStop;

/// How reading ends.
#[derive(Clone, Copy, Debug, PartialEq, Eq)]
pub enum PumpEnd {
    /// The source was read to its end, or the taker takes no more.
    Done,
    /// A read failed.
    ReadFault,
    /// The taker's write failed.
    WriteFault,
    /// Out of memory.
    NoMemory,
    /// More than [`MOST_INPUT_BYTES`](crate::MOST_INPUT_BYTES) were read.
    TooLong,
}

impl From<WriteStop> for PumpEnd {
    ghost use Rattle.std.specs.Prelude.{◌≡◌};
    ghost use Rattle.palm_pump.specs.Pumping.{end_of};

    ghost from_gives = { λ stop end. end ≡ end_of stop };

    fn from(stop: WriteStop) -> PumpEnd {
        match stop {
            WriteStop::WriteFault => PumpEnd::WriteFault,
            WriteStop::NoMemory => PumpEnd::NoMemory,
        }
    }
}
