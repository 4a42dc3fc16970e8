//! The command `run`.
ghost use Rattle.std.specs.Prelude.{◌≡◌, ◌<◌, vec_len};
ghost use Rattle.palm_engine.specs.Following.{OrderFollows};
ghost use Rattle.palm_pump.specs.Streams.{streams};
ghost use Rattle.palm_search.specs.Following.{GuideFollows};
ghost use Rattle.palm_session.specs.Objects.{numbered};
ghost use Rattle.palm_cli.specs.Commands.{Runs};
ghost use Rattle.palm_cli.specs.Led.{RunsLead, handed_in};

use crate::status::Status;
use palm_agenda::Order;
use palm_base::{Sink, Source, Steps};
use palm_guide::Guide;
use palm_pump::{Taker, pump};
use palm_session::{Going, Session, Stop};
use std::alloc::Global;
use std::marker::Brand;
use std::sync::ledger::{Blank, Ledger};

/// A session that takes the bytes, and the counter of its questions.
#[derive(Drop)]
struct SessionTaker<G: Guide, O: Order, L: Ledger> {
    session: Session<G, O>,
    steps: Steps<L>,
}

impl<G: Guide, O: Order, L: Ledger> Taker for SessionTaker<G, O, L> {
    ghost use Rattle.palm_engine.specs.Following.{OrderFollows};
    ghost use Rattle.palm_search.specs.Following.{GuideFollows};
    ghost use Rattle.palm_cli.specs.Serving.{TakesLines};

    ghost takes = { λ first progress text before after now.
        TakesLines (GuideFollows G.answers G.hears G.state) (OrderFollows O.answers O.hears O.state)
        first.session.state.guides first.session.state.orders first.session.objects progress text before after now.session };

    fn take<K: Sink>(&mut self, piece: &[u8], sink: &mut K) -> Result<bool, Stop> {
        match self.session.feed(piece, sink, &mut self.steps) {
            Ok(Going::More) => Ok(true),
            Ok(Going::Quit) => Ok(false),
            Err(stop) => Err(stop),
        }
    }

    fn finish<K: Sink>(&mut self, sink: &mut K) -> Result<(), Stop> {
        self.session.finish(sink, &mut self.steps)
    }
}

/// Reads the source in pieces, to its end or to a line that ends the session, and answers each line before the next
/// read.
pub fn run<S: Source, K: Sink, G: Guide, O: Order>(
    alloc: Global,
    source: &mut S,
    sink: &mut K,
    guides: Vec<G>,
    orders: Vec<O>,
) -> Status
    ensures runs { Runs (numbered (vec_len guides)) (numbered (vec_len orders))
        (streams (S.state source.old) (K.state sink.old)) (streams (S.state source.new) (K.state sink.new)) result }
    ensures led { RunsLead (GuideFollows G.answers G.hears G.state) (OrderFollows O.answers O.hears O.state)
        (numbered (vec_len guides)) (numbered (vec_len orders)) (handed_in guides.items orders.items)
        (streams (S.state source.old) (K.state sink.old)) (streams (S.state source.new) (K.state sink.new)) result }
{
    run_counted::<S, K, G, O, Brand>(alloc, source, sink, guides, orders, Blank::new(1))
}

/// The same, with a counter of its own.
fn run_counted<S: Source, K: Sink, G: Guide, O: Order, L: Ledger>(
    alloc: Global,
    source: &mut S,
    sink: &mut K,
    guides: Vec<G>,
    orders: Vec<O>,
    blank: Blank,
) -> Status
    requires named { blank.name ≡ L.name }
    requires parts { blank.parts ≡ L.parts }
    requires shared { 0 < L.parts }
    ensures runs { Runs (numbered (vec_len guides)) (numbered (vec_len orders))
        (streams (S.state source.old) (K.state sink.old)) (streams (S.state source.new) (K.state sink.new)) result }
    ensures led { RunsLead (GuideFollows G.answers G.hears G.state) (OrderFollows O.answers O.hears O.state)
        (numbered (vec_len guides)) (numbered (vec_len orders)) (handed_in guides.items orders.items)
        (streams (S.state source.old) (K.state sink.old)) (streams (S.state source.new) (K.state sink.new)) result }
{
    let steps = Steps::<L>::start(blank);
    let Ok(session) = Session::new(alloc, guides, orders) else {
        return Status::NoMemory;
    };
    let mut taker = SessionTaker { session, steps };
    Status::from(pump(alloc, &mut taker, source, sink))
}
