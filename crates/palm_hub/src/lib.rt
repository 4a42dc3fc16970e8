//! A hub: hub lines in, each passed to the session that its name tells, and each line of a reply written behind that name.
#![tactic(auto)]

mod addressee;
mod host;
mod laws;
mod limits;
mod part;
mod passing;
mod prefix;
mod refusal;
mod routing;
mod serving;
mod sessions;
mod standing;
mod status;

pub use host::program;
pub use laws::{
    an_input_has_an_output, an_input_has_one_output, each_hub_line_has_one_outcome,
    limits_are_these_numbers, names_have_the_same_replies, sessions_are_apart,
};
pub use limits::MOST_SESSIONS;
pub use prefix::{PrefixSink, Start};
pub use serving::hub;
pub use status::HubStatus;
