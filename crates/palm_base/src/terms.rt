//! Variables, values, pairs of the two, and the ids under which constraints are active.
ghost use Rattle.std.specs.Prelude.{◌≡◌};
ghost use Rattle.palm_base.specs.Order.{cid_before, same_cid, same_pair};

use std::marker::Model;

/// A variable, by its place in the order of the declarations.
#[derive(Clone, Copy, Debug, Default, PartialEq, Eq, PartialOrd, Ord, Hash)]
pub struct Var(pub u32);

impl Model for Var {
    ghost use Rattle.std.specs.Prelude.{ℕ, ◌<◌, ◌^◌};

    ghost Value = { ℕ };

    ghost view = { λ x. x.0 };

    ghost invariant = { λ x. x.0 < 2 ^ 32 };

    ghost inverse = { λ n. record { 0 = n } };
}

/// A value that a variable may take.
#[derive(Clone, Copy, Debug, Default, PartialEq, Eq, PartialOrd, Ord, Hash)]
pub struct Value(pub i32);

impl Model for Value {
    ghost use Rattle.std.specs.Prelude.{ℤ, FitsSigned};
    ghost use Rattle.std.specs.Int.{w32};

    ghost Value = { ℤ };

    ghost view = { λ v. v.0 };

    ghost invariant = { λ v. FitsSigned w32 v.0 };

    ghost inverse = { λ z. record { 0 = z } };
}

/// A variable with one of its values.
#[derive(Clone, Copy, Debug, Default, PartialEq, Eq, PartialOrd, Ord, Hash)]
pub struct Pair {
    pub var: Var,
    pub value: Value,
}

impl Pair {
    /// The pair again.
    #[inline(always)]
    pub fn copy(&self) -> Pair
        ensures { result ≡ self.now }
    {
        Pair {
            var: self.var,
            value: self.value,
        }
    }

    /// Whether the two pairs are one.
    #[inline(always)]
    pub fn is_same(&self, other: &Pair) -> bool
        ensures { result ≡ same_pair self.now other.now }
    {
        self.var == other.var && self.value == other.value
    }
}

/// The id of an active constraint: decisions before negations before the constraints of users.
#[derive(Clone, Copy, Debug, PartialEq, Eq, PartialOrd, Ord, Hash)]
pub enum Cid {
    /// The decision on a variable.
    Decide(Var),
    /// The negation of a pair.
    Not(Pair),
    /// A constraint of the user, by its number.
    User(u32),
}

impl Cid {
    /// The id again.
    #[inline(always)]
    pub fn copy(&self) -> Cid
        ensures { result ≡ self.now }
    {
        match self {
            Cid::Decide(var) => Cid::Decide(*var),
            Cid::Not(pair) => Cid::Not(Pair {
                var: pair.var,
                value: pair.value,
            }),
            Cid::User(number) => Cid::User(*number),
        }
    }

    /// Whether the two ids are one.
    #[inline(always)]
    pub fn is_same(&self, other: &Cid) -> bool
        ensures { result ≡ same_cid self.now other.now }
    {
        self == other
    }

    /// Whether the id comes before the other one. Most ids are of users.
    #[inline(always)]
    pub fn is_before(&self, other: &Cid) -> bool
        ensures { result ≡ cid_before self.now other.now }
    {
        match (self, other) {
            (Cid::User(first), Cid::User(second)) => first < second,
            (Cid::Decide(first), Cid::Decide(second)) => first.0 < second.0,
            (Cid::Not(first), Cid::Not(second)) => first < second,
            (Cid::User(_), _) => false,
            (_, Cid::Decide(_)) => false,
            _ => true,
        }
    }
}
