//! What replies are made of.

/// A reply of one word.
#[derive(Clone, Copy, Debug, PartialEq, Eq)]
pub enum Fixed {
    /// `ok`
    Done,
    /// `contradiction`
    Contradiction,
    /// `paused`
    Paused,
    /// `present`
    Present,
    /// `consistent`
    Consistent,
    /// `bye`
    Bye,
    /// `end`
    End,
}

/// Why a line changes nothing.
#[derive(Clone, Copy, Debug, PartialEq, Eq)]
pub enum Refusal {
    /// Bytes or length.
    E1,
    /// No such form.
    E2,
    /// Name taken.
    E3,
    /// Unknown variable.
    E4,
    /// Unknown constraint.
    E5,
    /// Number out of range.
    E6,
    /// Limit.
    E7,
    /// Repeated variable.
    E8,
    /// Empty or zero.
    E9,
    /// Wrong state.
    E10,
    /// No such object.
    E11,
    /// Value never declared.
    E12,
}

/// What stands before a list of constraints.
#[derive(Clone, Copy, Debug, PartialEq, Eq)]
pub enum Lead {
    /// `because`
    Because,
    /// `conflict`
    Conflict,
    /// `none`
    NoSolution,
    /// `proved by`
    Proved,
    /// `hard conflict`
    HardConflict,
    /// `keep`
    Keep,
}
