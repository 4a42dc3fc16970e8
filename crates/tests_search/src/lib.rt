//! Tests of the searches, of their journals and of their guides, over public calls.
#![tactic(auto)]

#[cfg(test)]
mod dbt;
#[cfg(test)]
mod guides;
#[cfg(test)]
mod journal;
#[cfg(test)]
mod least;
#[cfg(test)]
mod problems;
#[cfg(test)]
mod repair;
#[cfg(test)]
mod searches;
#[cfg(test)]
mod stock;
#[cfg(test)]
mod told;
