//! Sinks over memory.
ghost use Rattle.std.specs.Prelude.{◌≡◌, ◌<◌, [], length, IfOk, OnOk, OnErr, Ok, min, max, take};
ghost use Rattle.palm_base.specs.Streams.{HasCause, IsSameSink, Writes};
ghost use Rattle.palm_base.specs.Memory.{Kept, Calls, IsCalled, Flawed, Keeping, after_keeping, sink_state};

use super::calls::CallLog;
use super::kept::Store;
use crate::errors::{Failed, NoMemory};
use crate::sequence::CallList;
use crate::stream::Sink;
use std::alloc::Global;
use std::marker::Model;

/// A sink over memory that never fails. It keeps what fits into the room that was reserved.
#[derive(Debug, Drop)]
pub struct SteadySink {
    store: Store,
}

impl Model for SteadySink {
    ghost use Rattle.palm_base.specs.Memory.{Kept};

    ghost Value = { Kept };

    ghost view = { λ s. s.store };
}

impl SteadySink {
    /// Nothing written, and no spare room.
    pub fn new(alloc: Global) -> SteadySink
        ensures { result ≡ record { bytes = []; room = 0; dropped = 0 } }
    {
        SteadySink {
            store: Store::new(alloc),
        }
    }

    /// Makes the spare room at least this large; without memory nothing changes.
    pub fn reserve(&mut self, room: usize) -> Result<(), NoMemory>
        ensures ok { OnOk result (self.new ≡ record self.old { room = max self.old.room room }) }
        ensures err { OnErr result (self.new ≡ self.old) }
    {
        self.store.reserve(room)
    }

    /// The kept bytes.
    pub fn bytes(&self) -> &[u8]
        ensures { result.now ≡ self.now.bytes }
    {
        self.store.bytes()
    }
}

impl Sink for SteadySink {
    ghost state = { λ s. sink_state s 0 };

    fn write(&mut self, piece: &[u8]) -> Result<usize, Failed>
        requires { 0 < length piece.now }
        ensures cause { HasCause 0 0 result }
        ensures bytes { Writes (sink_state self.old 0) (sink_state self.new 0) piece.now result }
        ensures stands { IsSameSink (sink_state self.old 0) (sink_state self.new 0) result }
        ensures whole { result ≡ Ok (length piece.now) }
        ensures kept { self.new ≡ after_keeping self.old piece.now }
    {
        self.store.keep(piece);
        Ok(piece.len())
    }
}

/// A sink over memory that takes at most `piece` bytes at a call and fails at the listed calls, counted from 1.
#[derive(Debug, Drop)]
pub struct MemorySink {
    store: Store,
    calls: CallLog,
    piece: usize,
}

impl Model for MemorySink {
    ghost use Rattle.std.specs.Prelude.{◌<◌};
    ghost use Rattle.palm_base.specs.Memory.{Kept, Flawed, Keeping};

    ghost Value = { Flawed Keeping };

    ghost view = { λ s. record { inner = record { kept = s.store; piece = s.piece }; calls = s.calls } };

    ghost invariant = { λ s. 0 < s.piece };
}

impl MemorySink {
    /// Nothing written, no spare room, and these calls fail.
    pub fn new(alloc: Global, piece: usize, failing: CallList) -> MemorySink
        requires { 0 < piece }
        ensures kept { result.inner.kept ≡ record { bytes = []; room = 0; dropped = 0 } }
        ensures piece { result.inner.piece ≡ piece }
        ensures calls { result.calls ≡ record { failing = failing; made = 0; faults = 0 } }
    {
        MemorySink {
            store: Store::new(alloc),
            calls: CallLog::new(failing),
            piece,
        }
    }

    /// Makes the spare room at least this large; without memory nothing changes.
    pub fn reserve(&mut self, room: usize) -> Result<(), NoMemory>
        ensures ok { OnOk result (self.new.inner.kept ≡ record self.old.inner.kept { room = max self.old.inner.kept.room room }) }
        ensures err { OnErr result (self.new ≡ self.old) }
        ensures calls { self.new.calls ≡ self.old.calls }
        ensures piece { self.new.inner.piece ≡ self.old.inner.piece }
    {
        self.store.reserve(room)
    }

    /// The kept bytes.
    pub fn bytes(&self) -> &[u8]
        ensures { result.now ≡ self.now.inner.kept.bytes }
    {
        self.store.bytes()
    }
}

impl Sink for MemorySink {
    ghost state = { λ s. sink_state s.inner.kept s.calls.faults };

    fn write(&mut self, piece: &[u8]) -> Result<usize, Failed>
        requires { 0 < length piece.now }
        ensures cause { HasCause self.old.calls.faults self.new.calls.faults result }
        ensures bytes { Writes (sink_state self.old.inner.kept self.old.calls.faults) (sink_state self.new.inner.kept self.new.calls.faults) piece.now result }
        ensures stands { IsSameSink (sink_state self.old.inner.kept self.old.calls.faults) (sink_state self.new.inner.kept self.new.calls.faults) result }
        ensures count { IfOk result (λ n. n ≡ min self.old.inner.piece (length piece.now)) }
        ensures kept { IfOk result (λ n. self.new.inner.kept ≡ after_keeping self.old.inner.kept (take n piece.now)) }
        ensures piece { self.new.inner.piece ≡ self.old.inner.piece }
        ensures err { OnErr result (self.new.inner ≡ self.old.inner) }
        ensures called { IsCalled self.old.calls self.new.calls result }
    {
        if self.calls.is_failing() {
            return Err(Failed);
        }
        let count = self.piece.min(piece.len());
        self.store.keep(&piece[..count]);
        Ok(count)
    }
}
