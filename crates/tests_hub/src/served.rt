//! What a hub without words writes, and how it ends.
ghost use Rattle.std.specs.Prelude.{◌<◌};

use palm_base::{ByteList, CallList, MemorySink, MemorySource, NoMemory};
use palm_hub::{HubStatus, hub};
use std::alloc::Global;

/// How many bytes a sink may keep.
const ROOM: usize = 65_536;

/// A source of the bytes in pieces of at most so many, of which no call fails.
pub fn source_of(alloc: Global, bytes: Vec<u8>, piece: usize) -> MemorySource
    requires { 0 < piece }
{
    MemorySource::new(ByteList::from_vec(bytes), piece, CallList::new(alloc))
}

/// A sink with room, which takes pieces of at most so many bytes, and of which no call fails.
pub fn sink_for(alloc: Global, piece: usize) -> Result<MemorySink, NoMemory>
    requires { 0 < piece }
{
    let mut sink = MemorySink::new(alloc, piece, CallList::new(alloc));
    sink.reserve(ROOM)?;
    Ok(sink)
}

/// How a hub without words ends over these.
pub fn served(alloc: Global, source: &mut MemorySource, sink: &mut MemorySink) -> HubStatus {
    let words: Vec<String> = Vec::new(alloc);
    hub(alloc, &words, source, sink)
}

/// How a hub ended, and what it wrote.
#[derive(Drop)]
pub struct Outcome {
    pub status: HubStatus,
    pub output: Vec<u8>,
}

/// How a hub without words ends over the bytes, where its input and its output pass in pieces of at most so many bytes.
pub fn ended(alloc: Global, bytes: Vec<u8>, piece: usize) -> Result<Outcome, NoMemory>
    requires { 0 < piece }
{
    let mut source = source_of(alloc, bytes, piece);
    let mut sink = sink_for(alloc, piece)?;
    let status = served(alloc, &mut source, &mut sink);
    let output = Vec::from_slice(alloc, sink.bytes())?;
    Ok(Outcome { status, output })
}

/// What a hub writes of the text in pieces of at most so many bytes. Where it does not end well, a line with the number of its
/// status stands behind it.
pub fn written(alloc: Global, text: &[u8], piece: usize) -> Result<Vec<u8>, NoMemory>
    requires { 0 < piece }
{
    let Outcome { status, mut output } = ended(alloc, Vec::from_slice(alloc, text)?, piece)?;
    if status != HubStatus::Done {
        let line = format!(in alloc; "status {}\n", status.number())?;
        output.extend_from_slice(line.as_bytes())?;
    }
    Ok(output)
}

/// What a hub wrote in pieces of at most so many bytes.
#[derive(Drop)]
pub struct InPieces {
    pub piece: usize,
    pub output: Vec<u8>,
}

/// What a hub writes of the text in pieces of 1, of 7 and of 4,096 bytes: the first output that is not the expected one, and
/// where there is none the last.
pub fn answer(alloc: Global, text: &[u8], expected: &str) -> Result<InPieces, NoMemory> {
    for piece in [1, 7] {
        let output = written(alloc, text, piece)?;
        if output.as_slice() != expected.as_bytes() {
            return Ok(InPieces { piece, output });
        }
    }
    let piece = 4_096;
    let output = written(alloc, text, piece)?;
    Ok(InPieces { piece, output })
}
