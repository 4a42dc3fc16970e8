//! The commands of palm: words, a source and a sink in; a status out.
#![tactic(auto)]

mod command;
mod generator;
mod host;
mod judging;
mod laws;
mod limits;
mod queens;
mod serving;
mod status;
mod stock;
mod verdicts;
mod words;

pub use command::top;
pub use host::program;
pub use laws::{
    a_size_has_one_summary, limits_are_these_numbers, summaries_are_of_replies,
    what_is_accepted_is_so, what_run_writes_is_accepted,
};
pub use limits::{MOST_QUEENS, MOST_SIZE_DIGITS, SEARCH_BUDGET};
pub use status::Status;
