//! Tests of the engine, of its log, of its agenda and of its orders, over public calls.
#![tactic(auto)]

#[cfg(test)]
mod agendas;
#[cfg(test)]
mod alike;
#[cfg(test)]
mod calls;
#[cfg(test)]
mod cases;
#[cfg(test)]
mod choice;
#[cfg(test)]
mod cid_sets;
#[cfg(test)]
mod counted;
#[cfg(test)]
mod decisions;
#[cfg(test)]
mod kinds;
#[cfg(test)]
mod log;
#[cfg(test)]
mod orders;
#[cfg(test)]
mod questions;
#[cfg(test)]
mod removals;
#[cfg(test)]
mod samples;
#[cfg(test)]
mod shapes;
#[cfg(test)]
mod slow;
#[cfg(test)]
mod spans;
#[cfg(test)]
mod texts;
#[cfg(test)]
mod twins;
#[cfg(test)]
mod withdrawals;
