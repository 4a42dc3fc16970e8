//! A session: bytes in, lines cut out of them, each line answered, and its reply written.
#![tactic(auto)]

mod admit;
mod answer;
mod deliver;
mod desk;
mod going;
mod laws;
mod limits;
mod modes;
mod obey;
mod objects;
mod questions;
mod remainder;
mod reply;
mod request;
mod serve;
mod session;
mod settling;
mod stop;
mod taken;
mod ways;
mod weights;
mod withhold;

pub use going::Going;
pub use laws::asking::retractions_ask_no_more;
pub use laws::pieces::{a_line_in_pieces_is_a_line, pieces_are_kept};
pub use laws::printed::{
    adding_and_retracting_gives_back_the_domains, contradictions_are_empty_domains,
    kept_conflicts_conflict, kept_explanations_explain, minimal_conflicts_conflict,
    minimal_explanations_explain, one_domain_is_empty_at_most, preferences_are_told_truly,
    printed_certificates_are_accepted, printed_domains_are_the_engines,
    printed_proofs_are_accepted, searches_leave_all_but_the_journal, searches_tell_the_truth,
};
pub use laws::{
    a_text_has_an_output, a_text_has_one_output, each_line_has_an_answer, fresh_states_are_states,
    limits_are_these_numbers, no_line_has_two_answers, reasons_lie_in_scopes,
    refused_lines_change_nothing, states_stay, the_first_bytes_decide, the_first_bytes_end,
    version_1_texts_stay, what_is_printed_is_true,
};
pub use limits::MOST_KEPT_BYTES;
pub use session::Session;
pub use stop::Stop;
