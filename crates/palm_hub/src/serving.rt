//! Hub lines in, and replies out.
ghost use Rattle.std.specs.Prelude.{◌≡◌, ◌≢◌, ◌<◌, []};
ghost use Rattle.palm_base.specs.Streams.{Rose, SourceState};
ghost use Rattle.palm_pump.specs.Streams.{HasNoFault, TakesOver, streams};
ghost use Rattle.palm_hub.specs.Serving.{IsCut, IsWhole, Refuses, Serves, TakesWithin};

use crate::standing::Hub;
use crate::status::HubStatus;
use palm_base::{Failed, Sink, Source, Steps, write_all};
use palm_pump::{Taker, pump};
use palm_session::Stop;
use std::alloc::Global;
use std::marker::Brand;
use std::sync::ledger::{Blank, Ledger};

/// A hub that takes the bytes, and the counter of its sessions' questions.
#[derive(Drop)]
struct HubTaker<L: Ledger> {
    alloc: Global,
    hub: Hub,
    steps: Steps<L>,
}

impl<L: Ledger> Taker for HubTaker<L> {
    ghost use Rattle.palm_hub.specs.Serving.{TakesLines};

    ghost takes = { λ first progress text before after now. TakesLines progress text before after now.hub };

    fn take<K: Sink>(&mut self, piece: &[u8], sink: &mut K) -> Result<bool, Stop> {
        match self.hub.feed(self.alloc, piece, sink, &mut self.steps) {
            Ok(()) => Ok(true),
            Err(stop) => Err(stop),
        }
    }

    fn finish<K: Sink>(&mut self, sink: &mut K) -> Result<(), Stop> {
        self.hub.finish(self.alloc, sink, &mut self.steps)
    }
}

/// Answers the hub lines of the source one by one. There are no words to say after the program's name.
pub fn hub<S: Source, K: Sink>(
    alloc: Global,
    words: &[String],
    source: &mut S,
    sink: &mut K,
) -> HubStatus
    // Without words the lines are answered; every end has its cause.
    ensures serves { words.now ≡ [] → Serves (streams (S.state source.old) (K.state sink.old)) (streams (S.state source.new) (K.state sink.new)) result }
    // Words are answered by the usage line.
    ensures refuses { words.now ≢ [] → Refuses (streams (S.state source.old) (K.state sink.old)) (streams (S.state source.new) (K.state sink.new)) result }
    // Without a fault, an input within the limit is answered whole, unless memory runs out.
    ensures complete { let before = streams (S.state source.old) (K.state sink.old) in
        let after = streams (S.state source.new) (K.state sink.new) in
        words.now ≡ [] → HasNoFault before after → TakesWithin before after → IsWhole result }
    // An input of which too much was taken is told to be too long where no write failed.
    ensures cut { let before = streams (S.state source.old) (K.state sink.old) in
        let after = streams (S.state source.new) (K.state sink.new) in
        words.now ≡ [] → TakesOver before after → (Rose (K.state sink.old).faults (K.state sink.new).faults → ⊥) → IsCut result }
{
    if words.is_empty() {
        serve::<S, K, Brand>(alloc, source, sink, Blank::new(1))
    } else {
        refuse(sink)
    }
}

/// Answers the lines that are read by a hub without sessions. The sessions that it opens count their questions by one counter.
fn serve<S: Source, K: Sink, L: Ledger>(
    alloc: Global,
    source: &mut S,
    sink: &mut K,
    blank: Blank,
) -> HubStatus
    requires named { blank.name ≡ L.name }
    requires parts { blank.parts ≡ L.parts }
    requires shared { 0 < L.parts }
    ensures { Serves (streams (S.state source.old) (K.state sink.old)) (streams (S.state source.new) (K.state sink.new)) result }
{
    let mut taker = HubTaker {
        alloc,
        hub: Hub::new(alloc),
        steps: Steps::<L>::start(blank),
    };
    HubStatus::from(pump(alloc, &mut taker, source, sink))
}

/// Writes the usage line.
pub(crate) fn refuse<K: Sink>(sink: &mut K) -> HubStatus
    ensures { (source : SourceState) → Refuses (streams source (K.state sink.old)) (streams source (K.state sink.new)) result }
{
    match write_all(sink, b"usage: palm_hub\n") {
        Ok(()) => HubStatus::Usage,
        Err(Failed) => HubStatus::WriteFault,
    }
}
