//! Tests of sessions, over their public calls: pieces that cut lines, the journal of the last search, how often the engine
//! asks for support, how much the two versions of the language have room for, and the filters beside the slow way. Worked
//! sessions are files of `tests/sessions`.
#![tactic(auto)]

#[cfg(test)]
mod agreement;
#[cfg(test)]
mod fresh;
#[cfg(test)]
mod guides;
#[cfg(test)]
mod journals;
#[cfg(test)]
mod pieces;
#[cfg(test)]
mod questions;
#[cfg(test)]
mod versions;
