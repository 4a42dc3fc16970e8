//! Which losses a kind of constraint has to heed: those that take support from values of the other variables.

/// Which losses of a variable may take support from values of the other variables of a constraint, whatever the domains are.
#[derive(Clone, Copy, Debug, PartialEq, Eq)]
pub enum Heed {
    /// Each.
    Each,
    /// That of the least value.
    Least,
    /// That of the greatest value.
    Greatest,
    /// That of the least and that of the greatest value.
    Ends,
    /// One that leaves one value.
    Alone,
    /// Each, but it can take support only from the values that are more by this number.
    Shifted(i32),
}
