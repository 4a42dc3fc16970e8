//! The one loop that reads a source: piece by piece, up to the most bytes that are answered, it hands what comes to what takes
//! bytes, and tells how that ended.
#![tactic(auto)]

mod collected;
mod ending;
mod laws;
mod limits;
mod pumping;
mod taker;

pub use ending::PumpEnd;
pub use laws::limits_are_these_numbers;
pub use limits::{MOST_INPUT_BYTES, PIECE};
pub use pumping::pump;
pub use taker::Taker;
