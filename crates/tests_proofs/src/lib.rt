//! Tests of proofs that constraints have no solution, over the checker's one call and the writer's.
#![tactic(auto)]

#[cfg(test)]
mod accepted;
#[cfg(test)]
mod kinds;
#[cfg(test)]
mod large;
#[cfg(test)]
mod lines;
#[cfg(test)]
mod places;
#[cfg(test)]
mod steps;
#[cfg(test)]
mod told;
#[cfg(test)]
mod users;
#[cfg(test)]
mod written;
