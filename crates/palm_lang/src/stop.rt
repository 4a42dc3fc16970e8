//! Why a text is not written to its end.
use palm_base::NoMemory;
use std::alloc::{AllocError, AllocFailed};
use thiserror::Error;

/// A front of the text was written; where a write failed, a proper one.
#[derive(Clone, Copy, Debug, PartialEq, Eq, Error)]
pub enum WriteStop {
    /// A write failed. It comes only where the sink's count of faults rose.
    #[error("a write failed")]
    WriteFault,
    /// An allocation was refused.
    #[error("out of memory")]
    NoMemory,
}

impl From<NoMemory> for WriteStop {
    ghost use Rattle.std.specs.Prelude.{◌≡◌};
    ghost use Rattle.palm_lang.specs.declared.stop.WriteStop.TheVariants.{NoMemory};

    ghost from_gives = { λ _ stop. stop ≡ NoMemory };

    fn from(_error: palm_base::NoMemory) -> WriteStop {
        WriteStop::NoMemory
    }
}
