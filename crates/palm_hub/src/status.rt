//! How a hub ends.
use palm_pump::PumpEnd;

/// How a hub ends, and the process with it.
#[derive(Clone, Copy, Debug, PartialEq, Eq)]
pub enum HubStatus {
    /// 0: the source was read to its end, and all replies were written.
    Done,
    /// 2: there was a word, and the usage line was written.
    Usage,
    /// 3: a read failed.
    ReadFault,
    /// 4: a write failed.
    WriteFault,
    /// 5: out of memory.
    NoMemory,
    /// 6: more than 16,777,216 bytes were read.
    TooLong,
}

impl HubStatus {
    ghost use Rattle.std.specs.Prelude.{◌≡◌};
    ghost use Rattle.palm_hub.specs.Numbers.{status_number};

    /// The exit status of the process.
    pub fn number(self) -> u8
        ensures { result ≡ status_number self }
    {
        match self {
            HubStatus::Done => 0,
            HubStatus::Usage => 2,
            HubStatus::ReadFault => 3,
            HubStatus::WriteFault => 4,
            HubStatus::NoMemory => 5,
            HubStatus::TooLong => 6,
        }
    }
}

impl From<PumpEnd> for HubStatus {
    ghost use Rattle.std.specs.Prelude.{◌≡◌};
    ghost use Rattle.palm_hub.specs.Numbers.{status_of};

    ghost from_gives = { λ end status. status ≡ status_of end };

    fn from(end: PumpEnd) -> HubStatus {
        match end {
            PumpEnd::Done => HubStatus::Done,
            PumpEnd::ReadFault => HubStatus::ReadFault,
            PumpEnd::WriteFault => HubStatus::WriteFault,
            PumpEnd::NoMemory => HubStatus::NoMemory,
            PumpEnd::TooLong => HubStatus::TooLong,
        }
    }
}
