//! Tests of palm_base and palm_retry over their public calls: numbers, streams over memory, streams over readers and writers of
//! std, and calls that are interrupted.
#![tactic(auto)]

#[cfg(test)]
mod edges;
#[cfg(test)]
mod interrupted;
#[cfg(test)]
mod memory;
#[cfg(test)]
mod numbers;
