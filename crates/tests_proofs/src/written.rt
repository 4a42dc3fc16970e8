//! The writer's one call, over a book without variables: what it writes, and how it ends where a write fails.
ghost use Rattle.std.specs.Prelude.{◌≡◌, ◌<◌, []};
ghost use Rattle.palm_book.specs.Book.{active_of, initial_of};

use palm_agenda::LastOrder;
use palm_base::{CallList, MemorySink, NoMemory, Sink, Steps};
use palm_book::Book;
use palm_engine::Engine;
use palm_filter::Filter;
use palm_guide::FirstGuide;
use palm_kind::Kind;
use palm_proof::{ProofEnd, ProofStop, prove};
use palm_search::Search;
use std::alloc::Global;
use std::marker::Brand;
use std::sync::ledger::{Blank, Ledger};
use std::test::Fail;
use tests_compare::first_difference;

/// The proof of a search, counted from nothing.
fn prove_counted<F: Filter, K: Sink, L: Ledger>(
    alloc: Global,
    engine: &mut Engine<F>,
    search: &mut Search,
    book: &Book,
    out: &mut K,
    blank: Blank,
) -> Result<ProofEnd, ProofStop>
    requires named { blank.name ≡ L.name }
    requires parts { blank.parts ≡ L.parts }
    requires shared { 0 < L.parts }
    requires fresh { search.old ≡ record { decisions = []; journal = [] } }
    requires initial { engine.old.state.initial ≡ initial_of book.now }
    requires active { engine.old.state.active ≡ active_of book.now }
{
    let mut steps = Steps::<L>::start(blank);
    let mut guide: Option<FirstGuide> = None;
    let mut order: Option<LastOrder> = None;
    prove(
        alloc, engine, search, book, &mut guide, &mut order, 1, out, &mut steps,
    )
}

/// How a proof of nothing ends.
#[derive(Clone, Copy, Debug, PartialEq, Eq)]
enum End {
    /// Values were found, none at all.
    Found,
    /// A write failed.
    Failed,
    /// Otherwise.
    Other,
}

/// How it has ended.
fn end_of(end: &Result<ProofEnd, ProofStop>) -> End {
    match end {
        Ok(ProofEnd::Found(values)) if values.as_slice().is_empty() => End::Found,
        Err(ProofStop::WriteFault) => End::Failed,
        _ => End::Other,
    }
}

/// How a proof ended, and what was written.
#[derive(Drop)]
struct Ended {
    end: End,
    written: Vec<u8>,
}

/// How the proof of nothing ends where these calls of the sink fail, in pieces of 8 bytes.
fn ends(alloc: Global, failing: &[u64]) -> Result<Ended, NoMemory> {
    let mut engine = Engine::<Kind>::new(alloc);
    let mut search = Search::begin(alloc);
    let book = Book::new(alloc);
    let mut sink = MemorySink::new(alloc, 8, CallList::from_slice(alloc, failing)?);
    sink.reserve(32)?;
    let end = prove_counted::<Kind, MemorySink, Brand>(
        alloc,
        &mut engine,
        &mut search,
        &book,
        &mut sink,
        Blank::new(1),
    );
    let written = Vec::from_slice(alloc, sink.bytes())?;
    Ok(Ended {
        end: end_of(&end),
        written,
    })
}

/// Calls of the sink that fail, how the proof ends, and what was written.
const WRITES: &[(&[u64], End, &str)] = &[
    (&[], End::Found, "palm-proof 1\nfound\nend\n"),
    (&[1], End::Failed, ""),
    (&[2], End::Failed, "palm-pro"),
    (&[3], End::Failed, "palm-proof 1\n"),
    (&[4], End::Failed, "palm-proof 1\nfound\n"),
    (&[5], End::Found, "palm-proof 1\nfound\nend\n"),
];

#[test]
fn a_proof_is_written_until_a_write_fails(rt: HostRuntime) -> Result<(), Fail> {
    for (failing, end, written) in WRITES {
        let got = ends(rt.alloc(), failing)?;
        assert_eq!(rt; got.end, *end, "{failing:?}");
        assert_eq!(rt;
            first_difference(written.as_bytes(), &got.written),
            None,
            "{failing:?}"
        );
    }
    Ok(())
}
