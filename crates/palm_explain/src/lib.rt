//! The log of removals: it explains each removed value, and withdraws a constraint from all that rests on it.
#![tactic(auto)]

mod cid_set;
mod entry;
mod firsts;
mod laws;
mod losing;
mod moving;
mod naming;
mod needing;
mod noted;
mod places;
mod restored;
mod rows;
mod spans;
mod store;
mod withdrawing;

pub use cid_set::CidSet;
pub use laws::{
    full_stores_lack_nothing, stores_lack_what_is_taken_out, well_founded_logs_are_linked,
    withdrawals_add_up,
};
pub use moving::{End, MovingSpan};
pub use restored::Restored;
pub use store::ExplainStore;
