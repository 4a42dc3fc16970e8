//! Tests of what a problem means, of the store and of the filters, over public calls.
#![tactic(auto)]

#[cfg(test)]
mod comparison;
#[cfg(test)]
mod filter;
#[cfg(test)]
mod kind;
#[cfg(test)]
mod model;
#[cfg(test)]
mod rules;
#[cfg(test)]
mod samples;
#[cfg(test)]
mod shapes;
#[cfg(test)]
mod store;
#[cfg(test)]
mod testing;
