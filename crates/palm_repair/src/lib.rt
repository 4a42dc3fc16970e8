//! Decision-repair: a set of decisions that is repaired at each conflict, guided by weights and a list of nogoods; and the
//! laws on its run.
#![tactic(auto)]

mod answer;
mod conflict;
pub mod laws;
mod learned;
mod nogood;
mod turns;
mod whole;

pub use answer::RepairAnswer;
pub use laws::bound::{repairs_are_bounded, spent_budgets_are_small, undos_differ};
pub use laws::{
    found_values_are_a_solution, listed_nogoods_are_few, making_room_keeps_repairing,
    no_nogood_is_whole, posted_negations_are_justified, posting_keeps_repairing, repairs_begin,
    repairs_exist, repairs_leave_the_constraints, repairs_leave_the_log,
    repairs_without_guide_and_order_are_unique, settlings_keep_repairing, turns_keep_repairing,
    turns_with_settlings_keep_repairing, users_of_no_solution_have_none,
};
pub use whole::{repair, repair_by};
