//! Tests of minimal sets and of what is preferred, over their public calls.
#![tactic(auto)]

#[cfg(test)]
mod lender;
#[cfg(test)]
mod minimal;
#[cfg(test)]
mod samples;
#[cfg(test)]
mod weighing;
