//! The public call: words, streams and objects in, a status out.
ghost use Rattle.std.specs.Prelude.{ℕ, map, string_bytes, vec_len};
ghost use Rattle.palm_base.specs.Streams.{Rose};
ghost use Rattle.palm_engine.specs.Following.{OrderFollows};
ghost use Rattle.palm_pump.specs.Streams.{HasNoFault, TakesOver, streams};
ghost use Rattle.palm_search.specs.Following.{GuideFollows};
ghost use Rattle.palm_session.specs.Objects.{numbered};
ghost use Rattle.palm_cli.specs.declared.status.Status.{Status as StatusTerm};
ghost use Rattle.palm_cli.specs.declared.words.Evidence.{Evidence};
ghost use Rattle.palm_cli.specs.Commands.{EndsWith, IsCut, IsWhole, Generates, JudgesSource, Obeys, Refuses, Runs, TakesAnswerable, TakesJudged, TakesTooMuch, WritesUsage};
ghost use Rattle.palm_cli.specs.Led.{ObeysLead, RunsLead, handed_in};
ghost use Rattle.palm_cli.specs.Words.{IsFit, IsGen, IsJudge, IsNoCommand, IsRun};

use crate::generator::generate;
use crate::judging::judge;
use crate::serving::run;
use crate::status::Status;
use crate::words::{Request, request_of};
use palm_agenda::Order;
use palm_base::{Failed, Sink, Source, write_all};
use palm_guide::Guide;
use std::alloc::Global;

/// Does what the words after the program's name say, and answers how that ended. Lines of a session choose among these
/// guides and orders by their numbers, counted from 1.
pub fn top<S: Source, K: Sink, G: Guide, O: Order>(
    alloc: Global,
    words: &[String],
    source: &mut S,
    sink: &mut K,
    guides: Vec<G>,
    orders: Vec<O>,
) -> Status
    // `run` answers the lines of the source one by one, whatever the guides and orders are; every other end has its cause.
    ensures runs { IsRun (map string_bytes words.now) →
        Runs (numbered (vec_len guides)) (numbered (vec_len orders))
        (streams (S.state source.old) (K.state sink.old)) (streams (S.state source.new) (K.state sink.new)) result }
    // Where `run` ends with `Done`, its lines led the objects under the numbers that they were handed in by, and no others.
    ensures led { IsRun (map string_bytes words.now) →
        RunsLead (GuideFollows G.answers G.hears G.state) (OrderFollows O.answers O.hears O.state)
        (numbered (vec_len guides)) (numbered (vec_len orders)) (handed_in guides.items orders.items)
        (streams (S.state source.old) (K.state sink.old)) (streams (S.state source.new) (K.state sink.new)) result }
    // `check` and `proof` read the source to its end, and write the line of its verdict; every other end has its cause.
    ensures judges { (evidence : Evidence) → IsJudge (map string_bytes words.now) evidence →
        JudgesSource evidence (streams (S.state source.old) (K.state sink.old)) (streams (S.state source.new) (K.state sink.new)) result }
    // `gen` reads nothing, and writes the summary of the session of so many queens.
    ensures generates { (size : ℕ) → IsGen (map string_bytes words.now) size →
        Generates size (streams (S.state source.old) (K.state sink.old)) (streams (S.state source.new) (K.state sink.new)) result }
    // Other words are answered by the usage line.
    ensures refuses { IsNoCommand (map string_bytes words.now) →
        Refuses (streams (S.state source.old) (K.state sink.old)) (streams (S.state source.new) (K.state sink.new)) result }
    // Without a fault, a text that can be answered whole is answered whole, unless memory runs out.
    ensures complete { let before = streams (S.state source.old) (K.state sink.old) in
        let after = streams (S.state source.new) (K.state sink.new) in
        IsRun (map string_bytes words.now) → HasNoFault before after → TakesAnswerable before after → IsWhole result }
    // Without a fault, the summary is written whole, unless memory runs out.
    ensures summed { let before = streams (S.state source.old) (K.state sink.old) in
        let after = streams (S.state source.new) (K.state sink.new) in
        (size : ℕ) → IsGen (map string_bytes words.now) size → HasNoFault before after → IsWhole result }
    // A longer text, whose first bytes have no line that ends the session, is told to be too long where no write failed.
    ensures cut { let before = streams (S.state source.old) (K.state sink.old) in
        let after = streams (S.state source.new) (K.state sink.new) in
        IsRun (map string_bytes words.now) → TakesTooMuch before after →
        (Rose (K.state sink.old).faults (K.state sink.new).faults → ⊥) → IsCut result }
    // Without a fault, the verdict on a text that is not too long is told, unless memory runs out.
    ensures judged { let before = streams (S.state source.old) (K.state sink.old) in
        let after = streams (S.state source.new) (K.state sink.new) in
        (evidence : Evidence) (told : StatusTerm) → IsJudge (map string_bytes words.now) evidence → HasNoFault before after →
        TakesJudged evidence before after told → EndsWith told result }
    // A text of which too much was taken is told to be too long.
    ensures over { let before = streams (S.state source.old) (K.state sink.old) in
        let after = streams (S.state source.new) (K.state sink.new) in
        (evidence : Evidence) → IsJudge (map string_bytes words.now) evidence → TakesOver before after → IsCut result }
{
    let Ok(request) = request_of(alloc, words) else {
        return Status::NoMemory;
    };
    obey(alloc, request, source, sink, guides, orders)
}

/// Does what was asked for, or writes the usage line.
fn obey<S: Source, K: Sink, G: Guide, O: Order>(
    alloc: Global,
    request: Option<Request>,
    source: &mut S,
    sink: &mut K,
    guides: Vec<G>,
    orders: Vec<O>,
) -> Status
    requires { IsFit request }
    ensures obeys { Obeys (numbered (vec_len guides)) (numbered (vec_len orders)) request
        (streams (S.state source.old) (K.state sink.old)) (streams (S.state source.new) (K.state sink.new)) result }
    ensures led { ObeysLead (GuideFollows G.answers G.hears G.state) (OrderFollows O.answers O.hears O.state)
        (numbered (vec_len guides)) (numbered (vec_len orders)) (handed_in guides.items orders.items) request
        (streams (S.state source.old) (K.state sink.old)) (streams (S.state source.new) (K.state sink.new)) result }
{
    match request {
        Some(Request::Run) => run(alloc, source, sink, guides, orders),
        Some(Request::Judge(evidence)) => judge(alloc, evidence, source, sink),
        Some(Request::Gen { size }) => generate(alloc, size, sink),
        None => refuse(sink),
    }
}

/// Writes the usage line.
fn refuse<K: Sink>(sink: &mut K) -> Status
    ensures { WritesUsage (K.state sink.old) (K.state sink.new) result }
{
    match write_all(
        sink,
        b"usage: palm run, palm check, palm proof or palm gen N\n",
    ) {
        Ok(()) => Status::Usage,
        Err(Failed) => Status::WriteFault,
    }
}
