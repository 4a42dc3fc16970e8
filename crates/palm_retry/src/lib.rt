//! Readers and writers of std whose calls are made again where a signal interrupted them. Both programs read and write through it.
#![tactic(auto)]

mod retrying;

pub use retrying::{MOST_CALLS, Retrying};
