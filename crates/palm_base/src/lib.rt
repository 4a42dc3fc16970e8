//! The plain words that every crate of palm shares: variables, values and ids of constraints, lists that
//! contracts see as lists, the want of memory, and the byte streams at the edge with their counts of faults.
#![tactic(auto)]

mod adapters;
mod by_cid;
mod counts;
mod errors;
mod laws;
mod limits;
mod memory;
mod numbers;
mod sequence;
mod steps;
mod stream;
mod terms;
mod writing;

pub use adapters::{StdSink, StdSource};
pub use by_cid::{HasCid, place_for, place_from, place_of, stands_at};
pub use errors::{Failed, NoMemory};
pub use laws::{ids_are_ordered, limits_are_these_numbers};
pub use limits::LAST_COUNT;
pub use memory::sinks::{MemorySink, SteadySink};
pub use memory::sources::{MemorySource, SteadySource};
pub use numbers::{push_int, read_int};
pub use sequence::{ByteList, CallList, CidList, Sequence, ValueList, VarList};
pub use steps::Steps;
pub use stream::{Sink, Source};
pub use terms::{Cid, Pair, Value, Var};
pub use writing::write_all;
