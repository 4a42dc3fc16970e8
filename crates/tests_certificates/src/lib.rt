//! Tests of certificates, over the checker's one call.
#![tactic(auto)]

#[cfg(test)]
mod kinds;
#[cfg(test)]
mod refused;
#[cfg(test)]
mod told;
