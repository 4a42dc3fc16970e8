//! Streams over memory: steady ones that never fail, and ones that fail at listed calls.
pub mod calls;
pub mod kept;
pub mod remaining;
pub mod sinks;
pub mod sources;
