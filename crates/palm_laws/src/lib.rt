//! The laws of the definitions, each the contract of a public function with an empty body. A list of constraints
//! stands for the set of its members.
#![tactic(auto)]

mod closed;
mod explained;
mod formed;
mod greatest;
mod minimal;
mod supported;

pub use closed::{closed_domains_are_closed_by_each, closed_domains_are_supported};
pub use explained::{
    conflict_has_no_solution, conflicts_are_empty_domains, explained_value_is_in_no_solution,
    explained_values_are_the_missing_ones, explanations_grow, well_formed_constraints_are_declared,
};
pub use formed::{comparisons_with_a_value_are_formed, well_formed_constraints_are_formed};
pub use greatest::{greatest_domains_are_unique, greatest_domains_exist, greatest_domains_fall};
pub use minimal::{
    blocks_outside_a_core_are_left_out, conflicts_grow, minimal_sets_are_unique,
    minimal_sets_are_within, minimal_sets_exist, minimal_sets_have_the_property,
    no_member_can_be_left_out,
};
pub use supported::support_is_known;
