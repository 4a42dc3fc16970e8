//! What filters one constraint: whether a value has support, and why it has none.
#![tactic(auto)]

mod alone;
mod filter;
mod heed;
mod index;
mod intervals;
mod laws;
mod reasons;
mod rule;
mod shape;
mod starts;

pub use alone::is_alone;
pub use filter::{Filter, Reasons, ask};
pub use heed::Heed;
pub use index::ValueIndex;
pub use intervals::{push_interval, write_out};
pub use laws::single_values_are_supported_where_they_satisfy;
pub use reasons::{is_missing, push_passing, push_removed, whole_or_none};
pub use rule::{Interval, Intervals, Known, Rule, Shift};
pub use shape::Shape;
