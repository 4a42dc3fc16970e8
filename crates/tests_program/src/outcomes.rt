//! How `top` ends on texts in memory, and what it writes.
ghost use Rattle.std.specs.Prelude.{◌<◌};

use palm_agenda::{LastOrder, Order};
use palm_base::{ByteList, CallList, MemorySink, MemorySource, NoMemory};
use palm_cli::{Status, top};
use palm_guide::{FirstGuide, Guide};
use std::alloc::Global;

/// How many bytes a sink may keep.
const ROOM: usize = 65_536;

/// How a command ended, and what it wrote.
#[derive(Drop)]
pub struct Outcome {
    pub status: Status,
    pub output: Vec<u8>,
}

/// The command with this word, whose input is read and whose output is written in pieces of at most so many bytes, and the
/// calls of its source and of its sink that fail.
#[derive(Clone, Copy)]
pub struct Passing<'a> {
    pub word: &'a str,
    pub read: usize,
    pub written: usize,
    pub failing_reads: &'a [u64],
    pub failing_writes: &'a [u64],
}

/// These words.
pub fn words_of(alloc: Global, words: &[&str]) -> Result<Vec<String>, NoMemory> {
    let mut list = Vec::new(alloc);
    for word in words {
        list.push(String::from_str(alloc, word)?)?;
    }
    Ok(list)
}

/// No guides.
pub fn no_guides(alloc: Global) -> Vec<FirstGuide> {
    Vec::new(alloc)
}

/// No orders.
pub fn no_orders(alloc: Global) -> Vec<LastOrder> {
    Vec::new(alloc)
}

/// How a command that passes so ends on the text with these guides and orders.
pub fn outcome_with<G: Guide, O: Order>(
    alloc: Global,
    text: &[u8],
    passing: &Passing<'_>,
    guides: Vec<G>,
    orders: Vec<O>,
) -> Result<Outcome, NoMemory>
    requires read { 0 < passing.now.read }
    requires written { 0 < passing.now.written }
{
    let reads = CallList::from_slice(alloc, passing.failing_reads)?;
    let writes = CallList::from_slice(alloc, passing.failing_writes)?;
    let bytes = ByteList::from_slice(alloc, text)?;
    let mut source = MemorySource::new(bytes, passing.read, reads);
    let mut sink = MemorySink::new(alloc, passing.written, writes);
    sink.reserve(ROOM)?;
    let words = words_of(alloc, &[passing.word])?;
    let status = top(alloc, &words, &mut source, &mut sink, guides, orders);
    let output = Vec::from_slice(alloc, sink.bytes())?;
    Ok(Outcome { status, output })
}

/// The same without guides and orders.
pub fn outcome_of(alloc: Global, text: &[u8], passing: &Passing<'_>) -> Result<Outcome, NoMemory>
    requires read { 0 < passing.now.read }
    requires written { 0 < passing.now.written }
{
    outcome_with(alloc, text, passing, no_guides(alloc), no_orders(alloc))
}

/// How the command with this word ends on the text, in pieces of at most so many bytes, of which no call fails.
pub fn outcome_in(alloc: Global, word: &str, text: &[u8], piece: usize) -> Result<Outcome, NoMemory>
    requires { 0 < piece }
{
    let passing = Passing {
        word,
        read: piece,
        written: piece,
        failing_reads: &[],
        failing_writes: &[],
    };
    outcome_of(alloc, text, &passing)
}

/// How the command with this word ends on the text in pieces of 7 bytes, where the listed calls fail.
pub fn outcome_failing(
    alloc: Global,
    word: &str,
    text: &[u8],
    failing_reads: &[u64],
    failing_writes: &[u64],
) -> Result<Outcome, NoMemory> {
    let passing = Passing {
        word,
        read: 7,
        written: 7,
        failing_reads,
        failing_writes,
    };
    outcome_of(alloc, text, &passing)
}

/// How `run` ends on the text with these guides and orders, in pieces of 7 bytes.
pub fn run_with<G: Guide, O: Order>(
    alloc: Global,
    text: &[u8],
    guides: Vec<G>,
    orders: Vec<O>,
) -> Result<Outcome, NoMemory> {
    let passing = Passing {
        word: "run",
        read: 7,
        written: 7,
        failing_reads: &[],
        failing_writes: &[],
    };
    outcome_with(alloc, text, &passing, guides, orders)
}

/// `ok` so often, and what stands behind.
pub fn accepted(alloc: Global, count: usize, behind: &str) -> Result<String, NoMemory> {
    let mut replies = String::new(alloc);
    for _ in 0..count {
        replies.push_str("ok\n")?;
    }
    replies.push_str(behind)?;
    Ok(replies)
}

/// The first bytes, so many: all where there are no more.
pub fn front_of(bytes: &[u8], count: usize) -> &[u8] {
    match bytes.get(..count) {
        Some(front) => front,
        None => bytes,
    }
}
