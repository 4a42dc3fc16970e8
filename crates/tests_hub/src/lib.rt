//! Tests of the hub's one call, `hub`, over sources and sinks in memory: what is a name and what a line, sixteen sessions at
//! once, pieces, streams that fail, other words, and inputs as long as they may be. Worked hubs are files of `tests/sessions`.
#![tactic(auto)]

#[cfg(test)]
mod apart;
#[cfg(test)]
mod lengths;
#[cfg(test)]
mod names;
#[cfg(test)]
mod served;
#[cfg(test)]
mod sessions;
#[cfg(test)]
mod sixteen;
#[cfg(test)]
mod streams;
