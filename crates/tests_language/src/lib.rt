//! Tests of the session language, over its public calls.
#![tactic(auto)]

#[cfg(test)]
mod books;
#[cfg(test)]
mod modes;
#[cfg(test)]
mod printing;
#[cfg(test)]
mod reading;
#[cfg(test)]
mod samples;
