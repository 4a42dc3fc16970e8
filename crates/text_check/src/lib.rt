//! The checker of texts that list variables and constraints and have phrases of their own, whatever these are. It takes them
//! line by line, over what they list; it knows no log, no agenda, no engine and no search.
#![tactic(auto)]

mod body;
mod checker;
mod items;
mod numbers;
mod statements;
mod steps;
mod verdict;

pub use body::{Body, FirstCause};
pub use items::{Items, read_items};
pub use numbers::{number_up_to, read_header, read_reasons, read_value};
pub use steps::{check_step, check_wiped, is_among};
pub use verdict::check_text;
