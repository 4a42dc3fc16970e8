//! A value with its place.
use palm_base::Value;

/// A declared value of a variable, with its place among these.
#[derive(Clone, Copy, Debug, PartialEq, Eq)]
pub struct Placed {
    pub(crate) place: usize,
    pub value: Value,
}
