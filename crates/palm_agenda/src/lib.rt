//! The agenda: which constraints wait to be revised, and at which places of their scopes values may have lost their
//! support.
#![tactic(auto)]

mod agenda;
mod cids;
mod connection;
mod connections;
mod flags;
mod heard;
mod heedful;
mod loss;
mod mark;
mod open;
mod order;
mod over;
mod taken;

pub use agenda::Agenda;
pub use loss::Loss;
pub use mark::Mark;
pub use order::{LastOrder, Order, RotateOrder};
pub use taken::Taken;
