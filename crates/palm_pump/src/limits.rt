//! The limits of what is read.

/// How many bytes of an input are answered.
pub const MOST_INPUT_BYTES: usize = 16_777_216;

/// How many bytes are read at once.
pub const PIECE: usize = 4_096;
