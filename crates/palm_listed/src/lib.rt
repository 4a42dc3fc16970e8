//! What a text lists: a book of its variables and constraints, a filter for each constraint, and a store of the declared
//! values. It tells whether a pair lacks support without some pairs, and knows no order of lines.
#![tactic(auto)]

mod listed;
mod without;

pub use listed::Listed;
