//! The bytes that a source over memory has left.
ghost use Rattle.std.specs.Prelude.{◌≡◌, ◌++◌, ◌<◌, ◌≤◌, [], ℕ, length, min, take};
ghost use Rattle.palm_base.specs.Memory.{Left};

use crate::sequence::ByteList;
use std::marker::Model;

/// Bytes that are handed out from the front, at most `piece` at a call.
#[derive(Debug, Drop)]
pub struct Remaining {
    bytes: ByteList,
    at: usize,
    piece: usize,
}

impl Model for Remaining {
    ghost use Rattle.std.specs.Prelude.{drop, ◌<◌, ◌≤◌, length};
    ghost use Rattle.palm_base.specs.Memory.{Left};

    ghost Value = { Left };

    ghost view = { λ r. record { bytes = drop r.at r.bytes; piece = r.piece } };

    ghost invariant = { λ r. (r.at ≤ length r.bytes) × (0 < r.piece) };
}

impl Remaining {
    /// All of the bytes are left.
    pub fn new(bytes: ByteList, piece: usize) -> Remaining
        requires { 0 < piece }
        ensures { result ≡ record { bytes = bytes; piece = piece } }
    {
        Remaining {
            bytes,
            at: 0,
            piece,
        }
    }

    /// Copies the next bytes into the front of the buffer, as many as the piece and the buffer allow.
    pub fn hand_out(&mut self, buffer: &mut [u8]) -> usize
        requires { 0 < length buffer.old }
        ensures count { result ≡ min (min self.old.piece (length buffer.old)) (length self.old.bytes) }
        ensures bytes { self.old.bytes ≡ take result buffer.new ++ self.new.bytes }
        ensures piece { self.new.piece ≡ self.old.piece }
        ensures within { result ≤ length buffer.new }
        ensures end { result ≡ 0 → self.old.bytes ≡ [] }
    {
        let left = &self.bytes.as_slice()[self.at..];
        let count = copy_front(buffer, left, self.piece);
        self.at += count;
        count
    }
}

/// Copies the first bytes of `left` into the front of the buffer, at most `most`.
fn copy_front(buffer: &mut [u8], left: &[u8], most: usize) -> usize
    ensures count { result ≡ min (min most (length buffer.old)) (length left.now) }
    ensures bytes { take result buffer.new ≡ take result left.now }
{
    let count = most.min(buffer.len()).min(left.len());
    buffer[..count].copy_from_slice(&left[..count]);
    count
}
