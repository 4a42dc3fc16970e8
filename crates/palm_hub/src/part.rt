//! Where a hub stands in a line.

use crate::refusal::Refusal;

/// Where a hub stands in a line.
#[derive(Clone, Copy, Debug, PartialEq, Eq)]
pub enum Part {
    /// In its first bytes, which are kept until they tell to which session the line goes.
    Head,
    /// Behind blanks alone.
    Blanks,
    /// In a comment, or in a line that is refused.
    Skipped(Option<Refusal>),
    /// In a line for the session at this place.
    Session(usize),
}
