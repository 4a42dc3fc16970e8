//! Objects that pick the next decision of a search.
#![tactic(auto)]

mod boxed;
mod guide;
mod laws;
mod preference;
mod stock;

pub use guide::{Guide, ViewRow};
pub use laws::stock_guides_answer_once;
pub use stock::{FirstGuide, MostConflicts, SmallestGuide};
