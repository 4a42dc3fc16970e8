//! Tests of the program's one call, `top`, over sources and sinks in memory: worked rows, certificates and proofs with a line
//! changed, objects that are handed in, streams that fail, words, limits, long lines, and the order of reads and writes. All other
//! worked texts stand in `tests/sessions` and `examples`.
#![tactic(auto)]

#[cfg(test)]
mod certificates;
#[cfg(test)]
mod least;
#[cfg(test)]
mod limits;
#[cfg(test)]
mod lines;
#[cfg(test)]
mod objects;
#[cfg(test)]
mod outcomes;
#[cfg(test)]
mod proofs;
#[cfg(test)]
mod proved;
#[cfg(test)]
mod refusals;
#[cfg(test)]
mod searches;
#[cfg(test)]
mod stock;
#[cfg(test)]
mod streams;
#[cfg(test)]
mod words;
#[cfg(test)]
mod worked;
