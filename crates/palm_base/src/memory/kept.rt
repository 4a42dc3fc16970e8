//! The bytes that a sink over memory keeps, in room that was made before.
ghost use Rattle.std.specs.Prelude.{◌≡◌, ◌++◌, ◌+◌, ◌-◌, ◌^◌, ◌≤◌, [], OnErr, OnOk, length, min, max, take, replicate};
ghost use Rattle.palm_base.specs.Memory.{Kept, after_keeping};

use crate::errors::NoMemory;
use std::alloc::Global;
use std::marker::Model;

/// Kept bytes, the spare room behind them, and how many bytes found none.
#[derive(Debug, Drop)]
pub struct Store {
    bytes: Vec<u8>,
    room: usize,
    dropped: u64,
}

impl Model for Store {
    ghost use Rattle.std.specs.Prelude.{vec_len, vec_capacity, ◌+◌, ◌≤◌};
    ghost use Rattle.palm_base.specs.Memory.{Kept};

    ghost Value = { Kept };

    ghost view = { λ s. record { bytes = s.bytes.items; room = s.room; dropped = s.dropped } };

    ghost invariant = { λ s. vec_len s.bytes + s.room ≤ vec_capacity s.bytes };
}

impl Store {
    /// Nothing kept, and no room.
    pub fn new(alloc: Global) -> Store
        ensures { result ≡ record { bytes = []; room = 0; dropped = 0 } }
    {
        Store {
            bytes: Vec::new(alloc),
            room: 0,
            dropped: 0,
        }
    }

    /// Makes the spare room at least this large.
    pub fn reserve(&mut self, room: usize) -> Result<(), NoMemory>
        ensures ok { OnOk result (self.new ≡ record self.old { room = max self.old.room room }) }
        ensures err { OnErr result (self.new ≡ self.old) }
    {
        self.bytes.reserve(room)?;
        self.room = self.room.max(room);
        Ok(())
    }

    /// Keeps the bytes that find room, and counts the others.
    pub fn keep(&mut self, piece: &[u8])
        ensures { self.new ≡ after_keeping self.old piece.now }
    {
        let count = self.room.min(piece.len());
        self.bytes.extend_from_slice(&piece[..count]).unwrap();
        self.room -= count;
        self.dropped = self.dropped.saturating_add((piece.len() - count) as u64);
    }

    /// The kept bytes.
    pub fn bytes(&self) -> &[u8]
        ensures { result.now ≡ self.now.bytes }
    {
        self.bytes.as_slice()
    }
}
