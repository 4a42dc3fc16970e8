//! Which forms of the language a line may have.

/// Which forms a line may have. The mode of a text is `First` up to its first line that is no comment, and that line decides
/// what it is from there on.
#[derive(Clone, Copy, Debug, PartialEq, Eq)]
pub enum Mode {
    /// The forms of version 1, and the header `palm 2`.
    First,
    /// The forms of version 1.
    One,
    /// The forms of version 2.
    Two,
}
