//! The laws of logs, states, conflicts and runs.

pub mod conflict;
pub mod greatest;
pub mod logged;
pub mod undoing;
pub mod validity;
