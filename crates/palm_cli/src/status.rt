//! How a command ends.
use palm_pump::PumpEnd;

/// How a command ends, and the process with it.
#[derive(Clone, Copy, Debug, PartialEq, Eq)]
pub enum Status {
    /// 0: all was read, and all replies were written; or the certificate or proof was accepted, and the line that says
    /// so was written; or the summary was written.
    Done,
    /// 1: the certificate or proof was refused, and the line that says so was written.
    Refused,
    /// 2: the words are no command, and the usage line was written.
    Usage,
    /// 3: a read failed.
    ReadFault,
    /// 4: a write failed.
    WriteFault,
    /// 5: out of memory.
    NoMemory,
    /// 6: more than 16,777,216 bytes were read.
    TooLong,
}

impl Status {
    ghost use Rattle.std.specs.Prelude.{◌≡◌};
    ghost use Rattle.palm_cli.specs.Numbers.{status_number};

    /// The exit status of the process.
    pub fn number(self) -> u8
        ensures { result ≡ status_number self }
    {
        match self {
            Status::Done => 0,
            Status::Refused => 1,
            Status::Usage => 2,
            Status::ReadFault => 3,
            Status::WriteFault => 4,
            Status::NoMemory => 5,
            Status::TooLong => 6,
        }
    }
}

impl From<PumpEnd> for Status {
    ghost use Rattle.std.specs.Prelude.{◌≡◌};
    ghost use Rattle.palm_cli.specs.Numbers.{status_at};

    ghost from_gives = { λ end status. status ≡ status_at end };

    fn from(end: PumpEnd) -> Status {
        match end {
            PumpEnd::Done => Status::Done,
            PumpEnd::ReadFault => Status::ReadFault,
            PumpEnd::WriteFault => Status::WriteFault,
            PumpEnd::NoMemory => Status::NoMemory,
            PumpEnd::TooLong => Status::TooLong,
        }
    }
}
