//! What a kind of constraint knows of support, so that support need not be asked for value by value.

use palm_base::Value;

/// What is known of the support of the values of a variable in a constraint, whatever the domains are.
#[derive(Clone, Copy, Debug, PartialEq, Eq)]
pub enum Shape {
    /// Nothing.
    Any,
    /// A value between two that have support has it too.
    Convex,
    /// All values but this one have support alike.
    AlikeBut(Value),
    /// A value has support while every other variable of the constraint has two values.
    Guarded,
    /// A value has support while every other variable of the constraint has another value than the one that is less by this
    /// number.
    Apart(i32),
}
