//! Sources over memory.
ghost use Rattle.std.specs.Prelude.{◌≡◌, ◌<◌, length, IfOk, OnErr, Ok};
ghost use Rattle.palm_base.specs.Streams.{HasCause, Reads};
ghost use Rattle.palm_base.specs.Memory.{Left, Calls, IsCalled, handed_out, source_state, Flawed};

use super::calls::CallLog;
use super::remaining::Remaining;
use crate::errors::Failed;
use crate::sequence::{ByteList, CallList};
use crate::stream::Source;
use std::marker::Model;

/// A source over memory that never fails.
#[derive(Debug, Drop)]
pub struct SteadySource {
    remaining: Remaining,
}

impl Model for SteadySource {
    ghost use Rattle.palm_base.specs.Memory.{Left};

    ghost Value = { Left };

    ghost view = { λ s. s.remaining };
}

impl SteadySource {
    /// Hands out these bytes, at most `piece` at a call.
    pub fn new(bytes: ByteList, piece: usize) -> SteadySource
        requires { 0 < piece }
        ensures { result ≡ record { bytes = bytes; piece = piece } }
    {
        SteadySource {
            remaining: Remaining::new(bytes, piece),
        }
    }
}

impl Source for SteadySource {
    ghost state = { λ s. source_state s 0 };

    fn read(&mut self, buffer: &mut [u8]) -> Result<usize, Failed>
        requires { 0 < length buffer.old }
        ensures cause { HasCause 0 0 result }
        ensures bytes { Reads (source_state self.old 0) (source_state self.new 0) buffer.new result }
        ensures count { result ≡ Ok (handed_out self.old (length buffer.old)) }
        ensures piece { self.new.piece ≡ self.old.piece }
    {
        Ok(self.remaining.hand_out(buffer))
    }
}

/// A source over memory that fails at the listed calls, counted from 1.
#[derive(Debug, Drop)]
pub struct MemorySource {
    remaining: Remaining,
    calls: CallLog,
}

impl Model for MemorySource {
    ghost use Rattle.palm_base.specs.Memory.{Left, Flawed};

    ghost Value = { Flawed Left };

    ghost view = { λ s. record { inner = s.remaining; calls = s.calls } };
}

impl MemorySource {
    /// Hands out these bytes, at most `piece` at a call, and fails at the listed calls.
    pub fn new(bytes: ByteList, piece: usize, failing: CallList) -> MemorySource
        requires { 0 < piece }
        ensures left { result.inner ≡ record { bytes = bytes; piece = piece } }
        ensures calls { result.calls ≡ record { failing = failing; made = 0; faults = 0 } }
    {
        MemorySource {
            remaining: Remaining::new(bytes, piece),
            calls: CallLog::new(failing),
        }
    }
}

impl Source for MemorySource {
    ghost state = { λ s. source_state s.inner s.calls.faults };

    fn read(&mut self, buffer: &mut [u8]) -> Result<usize, Failed>
        requires { 0 < length buffer.old }
        ensures cause { HasCause self.old.calls.faults self.new.calls.faults result }
        ensures bytes { Reads (source_state self.old.inner self.old.calls.faults) (source_state self.new.inner self.new.calls.faults) buffer.new result }
        ensures count { IfOk result (λ n. n ≡ handed_out self.old.inner (length buffer.old)) }
        ensures piece { self.new.inner.piece ≡ self.old.inner.piece }
        ensures err { OnErr result (self.new.inner ≡ self.old.inner) }
        ensures called { IsCalled self.old.calls self.new.calls result }
    {
        if self.calls.is_failing() {
            return Err(Failed);
        }
        Ok(self.remaining.hand_out(buffer))
    }
}
