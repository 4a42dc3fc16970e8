//! The laws of whatever may happen to an engine, in any order, each the contract of a public function with an empty body:
//! logs and explanations, valid states, the greatest closed domains, conflicts, and what a run leaves behind.
#![tactic(auto)]

pub mod laws;

pub use laws::conflict::{
    conflicts_are_lists, conflicts_name_active_constraints, flat_conflicts_have_no_solution,
    flat_conflicts_hold_active_justifiers, kept_conflicts_are_conflicts,
    steps_keep_negations_justified,
};
pub use laws::greatest::{
    present_domains_include_closed_ones, quiet_states_have_the_greatest_domains,
    runs_reach_the_greatest_domains,
};
pub use laws::logged::{
    explanations_are_active, explanations_are_lists, lists_of_ids_are_unique,
    pairs_are_logged_once, removals_are_explained, withdrawals_have_an_outcome,
    withdrawals_have_one_outcome, withdrawals_keep_logs_well_founded,
};
pub use laws::undoing::{posting_and_withdrawing_gives_back_the_log, runs_give_back_the_log};
pub use laws::validity::{
    reasons_stay_in_scopes, runs_are_valid, states_without_constraints_are_valid,
    steps_keep_validity, withdrawals_keep_validity, withdrawals_wake,
};
