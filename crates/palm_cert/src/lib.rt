//! Certificates of what an engine has removed: the removals that a claim needs, written as text, line by line. Which
//! removals these are, and the lines of constraints and steps, are for writers of other texts too.
#![tactic(auto)]

mod certificate;
mod laws;
mod lines;
mod needs;
mod usage;

pub use certificate::{write_added, write_cert, write_removal};
pub use laws::{
    certificates_are_accepted, claims_are_reached, constraints_are_those_of_the_explanation,
    lines_say_what_was_written, numbers_of_variables_do_not_matter,
    steps_are_right_behind_earlier_ones, steps_are_right_by_themselves,
    steps_are_what_the_claim_needs,
};
pub use needs::{collect_numbers, number_of};
pub use palm_lang::WriteStop as CertStop;
