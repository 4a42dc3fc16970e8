//! What the program does with what its host gives it: words and streams in, a status out.
ghost use Rattle.std.specs.Prelude.{◌≡◌};
ghost use Rattle.palm_hub.specs.Host.{HasNoWord, HasWord, LacksMemory};
ghost use Rattle.palm_pump.specs.Streams.{streams};
ghost use Rattle.palm_hub.specs.Serving.{Refuses, Serves};
ghost use Rattle.palm_hub.specs.declared.status.HubStatus.TheVariants as statuses;

use crate::serving::{hub, refuse};
use crate::status::HubStatus;
use palm_base::{Sink, Source};
use std::alloc::Global;
use std::env::Args;
use std::io;
use std::io::ErrorKind;

/// Answers the hub lines of the source where the host tells no word after the program's name, and any word by the usage line.
pub fn program<S: Source, K: Sink>(
    alloc: Global,
    args: io::Result<Args>,
    source: &mut S,
    sink: &mut K,
) -> HubStatus
    ensures serves { HasNoWord args → Serves (streams (S.state source.old) (K.state sink.old)) (streams (S.state source.new) (K.state sink.new)) result }
    ensures refuses { HasWord args → Refuses (streams (S.state source.old) (K.state sink.old)) (streams (S.state source.new) (K.state sink.new)) result }
    // Without memory for the words nothing is done.
    ensures lacks { LacksMemory args → (result ≡ statuses.NoMemory)
        × (streams (S.state source.new) (K.state sink.new) ≡ streams (S.state source.old) (K.state sink.old)) }
{
    match args {
        Ok(args) if args.len() <= 1 => hub(alloc, &[], source, sink),
        Err(error) if error.kind() == ErrorKind::OutOfMemory => HubStatus::NoMemory,
        _ => refuse(sink),
    }
}
