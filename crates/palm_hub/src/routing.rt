//! Where a hub line goes, by its first bytes.
ghost use Rattle.std.specs.Prelude.{◌≡◌, ◌≢◌, ◌++◌, ℕ, [], Bool, true, List, IfOk};
ghost use Rattle.palm_agenda.specs.declared.order.LastOrder.{LastOrder};
ghost use Rattle.palm_guide.specs.declared.stock.FirstGuide.{FirstGuide};
ghost use Rattle.palm_read.specs.Bytes.{after_blanks};
ghost use Rattle.palm_read.specs.Lines.{HasNoFeed};
ghost use Rattle.palm_hub.specs.Addressing.{Addresses};
ghost use Rattle.palm_hub.specs.Hub.{Opened as OpenedTerm};
ghost use Rattle.palm_hub.specs.Standing.{IsAtLine, Member, Stands};
ghost use Rattle.palm_hub.specs.Stepping.{IsRouted, IsEnough, IsPlaced, IsQuiet};

use crate::addressee::{Addressee, addressee_of};
use crate::part::Part;
use crate::refusal::Refusal;
use crate::sessions::{Opened, admit};
use palm_base::{Sink, Steps};
use palm_session::Stop;
use std::alloc::Global;
use std::sync::ledger::Ledger;

/// Routes a line with these first bytes: tells where it goes, and passes those behind a name on. Nothing is written.
pub(crate) fn route<K: Sink, L: Ledger>(
    alloc: Global,
    sessions: &mut Vec<Opened>,
    head: &[u8],
    sink: &mut K,
    steps: &mut Steps<L>,
) -> Result<Part, Stop>
    requires unbroken { HasNoFeed head.now }
    ensures quiet { IsQuiet (K.state sink.old) (K.state sink.new) result }
    ensures stands { IfOk result (λ part. (hub : List OpenedTerm) (more : Bool) → IsEnough more head.now
        → IsAtLine hub sessions.old.items → Stands more hub head.now head.now part sessions.new.items) }
    ensures routed { IfOk result IsRouted }
    ensures placed { IfOk result (λ part. IsPlaced part sessions.new.items) }
{
    match addressee_of(head) {
        Addressee::Blank => Ok(Part::Blanks),
        Addressee::Nobody => Ok(Part::Skipped(None)),
        Addressee::Nameless => Ok(Part::Skipped(Some(Refusal::NoName))),
        Addressee::Session(length) => {
            let (name, line) = (&head[..length], &head[length + 1..]);
            begin(alloc, sessions, name, line, sink, steps)
        }
    }
}

/// Begins a line for the session of a name, which these bytes begin. Nothing is written.
fn begin<K: Sink, L: Ledger>(
    alloc: Global,
    sessions: &mut Vec<Opened>,
    name: &[u8],
    line: &[u8],
    sink: &mut K,
    steps: &mut Steps<L>,
) -> Result<Part, Stop>
    requires unbroken { HasNoFeed line.now }
    ensures quiet { IsQuiet (K.state sink.old) (K.state sink.new) result }
    ensures stands { IfOk result (λ part. (hub : List OpenedTerm) (more : Bool) (bytes : List ℕ) → Addresses bytes name.now line.now
        → IsAtLine hub sessions.old.items → Stands more hub bytes bytes part sessions.new.items) }
    ensures routed { IfOk result IsRouted }
    ensures placed { IfOk result (λ part. IsPlaced part sessions.new.items) }
{
    let part = admit(alloc, sessions, name)?;
    if let Part::Session(place) = part {
        sessions[place].take_part(line, sink, steps)?;
    }
    Ok(part)
}

/// Where a line goes that began with blanks alone, by more bytes of it.
pub(crate) fn behind_blanks(bytes: &[u8]) -> Part
    ensures stands { (hub : List OpenedTerm) (members : List (Member FirstGuide LastOrder)) (content head : List ℕ) → after_blanks content ≡ []
        → content ≢ [] → IsAtLine hub members → Stands true hub (content ++ bytes.now) head result members }
    ensures routed { IsRouted result }
    ensures placed { (members : List (Member FirstGuide LastOrder)) → IsPlaced result members }
{
    match addressee_of(bytes) {
        Addressee::Blank => Part::Blanks,
        Addressee::Nobody => Part::Skipped(None),
        Addressee::Nameless | Addressee::Session(_) => Part::Skipped(Some(Refusal::NoName)),
    }
}
