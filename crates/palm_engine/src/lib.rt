//! The engine: revisions and settlings, the laws on them, and what a settling may ask at most.
#![tactic(auto)]

mod actives;
mod alike;
mod apart;
mod between;
mod conflicts;
mod engine;
mod filtering;
pub mod justification;
mod laws;
mod posted;
mod posting;
mod reasons;
mod revise;
mod runs;
mod settle;
mod values;

pub use engine::Engine;
pub use laws::settling::{
    interrupted_settlings_filter, interruptions_without_order_count_the_same, revisions_fall,
    revisions_filter, settled_domains_do_not_depend_on_the_order,
    settling_and_withdrawing_gives_back_the_log, settlings_end, settlings_exist, settlings_filter,
    settlings_keep_validity, settlings_without_order_are_unique, settlings_without_order_exist,
    the_same_answers_give_the_same_settling,
};
pub use laws::work::{
    settlings_after_withdrawals_ask_no_more, settlings_ask_no_more, walks_look_at_each_pair_once,
};
pub use settle::Settle;
