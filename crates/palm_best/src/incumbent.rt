//! The best values so far, and the cuts below them.
use palm_base::ValueList;

/// The best values that were found so far, and how many cuts were posted.
#[derive(Debug, Drop)]
pub(crate) struct Incumbent {
    pub values: Option<ValueList>,
    pub cuts: u32,
}
