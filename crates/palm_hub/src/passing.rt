//! Passing bytes of a hub line to the session of its name.
ghost use Rattle.std.specs.Prelude.{◌≡◌, ◌-◌, false, List, ℕ, [], OnOk, IfErr, take};
ghost use Rattle.palm_base.specs.Streams.{Appended, Rose};
ghost use Rattle.palm_lang.specs.Writing.{IsCounted};
ghost use Rattle.palm_lang.specs.declared.stop.WriteStop.TheVariants as stops;
ghost use Rattle.palm_read.specs.Lines.{HasNoFeed};
ghost use Rattle.palm_session.specs.Feeding.{IsSession};
ghost use Rattle.palm_session.specs.declared.limits.TheConstants.{MOST_KEPT_BYTES};
ghost use Rattle.palm_hub.specs.Passing.{FeedsMarked};
ghost use Rattle.palm_hub.specs.Standing.{AnswersIn, AnswersInUntil, KeepsPart};

use crate::prefix::{PrefixSink, Start};
use palm_agenda::LastOrder;
use palm_base::{Sink, Steps};
use palm_guide::FirstGuide;
use palm_session::{Going, Session, Stop};
use std::marker::Brand;
use std::sync::ledger::Ledger;

/// A session of a hub. It is handed no guides and no orders.
pub(crate) type HubSession = Session<FirstGuide, LastOrder>;

/// Passes bytes of a line, without its line feed, to a session. Nothing is written.
pub(crate) fn pass_part<K: Sink, L: Ledger>(
    session: &mut HubSession,
    prefix: &[u8],
    piece: &[u8],
    sink: &mut K,
    steps: &mut Steps<L>,
) -> Result<(), Stop>
    requires going { session.old.over ≡ false }
    requires unbroken { HasNoFeed piece.now }
    ensures counted { IsCounted (K.state sink.old).faults (K.state sink.new).faults result }
    ensures kept { OnOk result (KeepsPart session.old piece.now session.new) }
    ensures written { OnOk result (Appended (K.state sink.old).written (K.state sink.new).written []) }
    ensures memory { IfErr result (λ stop. stop ≡ stops.NoMemory) }
    ensures stopped { IfErr result (λ _. (Rose (K.state sink.old).faults (K.state sink.new).faults → ⊥)
        → Appended (K.state sink.old).written (K.state sink.new).written []) }
{
    feed_marked::<K, L, Brand>(session, prefix, piece, sink, steps)?;
    Ok(())
}

/// Ends a line of a session, of which it keeps the first bytes, and writes each line of its reply behind the prefix.
pub(crate) fn end_line<K: Sink, L: Ledger>(
    session: &mut HubSession,
    prefix: &[u8],
    sink: &mut K,
    steps: &mut Steps<L>,
) -> Result<(), Stop>
    requires going { session.old.over ≡ false }
    ensures counted { IsCounted (K.state sink.old).faults (K.state sink.new).faults result }
    ensures answers { OnOk result ((line : List ℕ) → HasNoFeed line → session.old.unfinished ≡ take MOST_KEPT_BYTES line
        → AnswersIn session.old line prefix.now (K.state sink.old).written (K.state sink.new).written session.new) }
    ensures stopped { IfErr result (λ stop. (line : List ℕ) → HasNoFeed line → session.old.unfinished ≡ take MOST_KEPT_BYTES line
        → (stop ≡ stops.NoMemory → Rose (K.state sink.old).faults (K.state sink.new).faults → ⊥)
        → AnswersInUntil stop session.old.state line prefix.now (K.state sink.old).written (K.state sink.new).written) }
{
    feed_marked::<K, L, Brand>(session, prefix, b"\n", sink, steps)?;
    Ok(())
}

/// Feeds bytes to a session, which writes each line of its replies behind the prefix.
fn feed_marked<K: Sink, L: Ledger, B: Start>(
    session: &mut HubSession,
    prefix: &[u8],
    piece: &[u8],
    sink: &mut K,
    steps: &mut Steps<L>,
) -> Result<Going, Stop>
    requires going { session.old.over ≡ false }
    requires written { (K.state sink.old).written ≡ B.written }
    requires faults { (K.state sink.old).faults ≡ B.faults }
    requires prefix { prefix.now ≡ B.prefix }
    ensures held { IsSession session.old }
    ensures counted { IsCounted (K.state sink.old).faults (K.state sink.new).faults result }
    ensures feeds { FeedsMarked session.old piece.now prefix.now (K.state sink.old) (K.state sink.new) session.new (steps.new - steps.old) result }
{
    let mut marked = PrefixSink::<K, B>::new(sink, prefix);
    session.feed(piece, &mut marked, steps)
}
