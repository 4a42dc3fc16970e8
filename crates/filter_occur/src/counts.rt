//! How many of some variables have a value: at least so many, and at most so many.
ghost use Rattle.std.specs.Prelude.{◌≡◌, ◌++◌, ◌-◌, ◌<◌, ◌≤◌, ℤ, List, [], ◌∷◌, length, filter, OnOk};
ghost use Rattle.filter_occur.specs.Count.{IsCountReached, IsEnough};
ghost use Rattle.palm_base.specs.Tells.{Tells};
ghost use Rattle.palm_domain.specs.Rows.{IsGreatestOf, IsLeastOf, initial_of, present_of};
ghost use Rattle.palm_model.specs.Domains.{values_of};
ghost use Rattle.palm_model.specs.Count.{is_within_counts};
ghost use Rattle.palm_model.specs.Removed.{pairs_of};

use palm_base::{NoMemory, Value, Var};
use palm_domain::DomainStore;
use palm_filter::{Reasons, push_passing};
use palm_model::{MOST_SCOPE, Op, number_of, stands};

/// The high number that is enough for the relation to values from the least to the greatest: where the high number
/// may be higher still, the answer is the same.
pub(crate) fn enough_between(op: Op, least: &Value, greatest: &Value) -> i64
    ensures { (values : List ℤ) → IsLeastOf values least.now → IsGreatestOf values greatest.now → IsEnough op values result }
{
    match op {
        Op::Lt | Op::Le => 0,
        Op::Eq => number_of(greatest),
        Op::Ge => number_of(least),
        Op::Ne | Op::Gt => number_of(least) + 1,
    }
}

/// The high number that is enough for the relation to the present values of the variable.
pub(crate) fn enough_for(op: Op, store: &DomainStore, target: Var) -> i64
    requires { target < length store.now }
    ensures { IsEnough op (values_of (present_of store.now) target) result }
{
    if store.count(target) == 0 {
        return 0;
    }
    enough_between(op, &store.least(target), &store.greatest(target))
}

/// Every number from the lower to the higher one is the count in some assignment.
#[derive(Debug, Drop)]
pub struct Counts {
    pub low: u32,
    pub high: u32,
}

impl Counts {
    /// Whether one of the numbers stands in the relation to a present value of the variable.
    pub(crate) fn fits_some(&self, op: Op, store: &DomainStore, target: Var) -> bool
        requires ordered { self.now.low ≤ self.now.high }
        requires small { self.now.high ≤ MOST_SCOPE }
        requires declared { target < length store.now }
        ensures { Tells result (IsCountReached self.now op (values_of (present_of store.now) target)) }
    {
        if store.count(target) == 0 {
            return false;
        }
        let least = store.least(target);
        let greatest = store.greatest(target);
        match op {
            Op::Eq => self.meets(store, target),
            Op::Ne => self.fits(op, &least) || self.fits(op, &greatest),
            Op::Lt | Op::Le => self.fits(op, &greatest),
            Op::Gt | Op::Ge => self.fits(op, &least),
        }
    }

    /// Whether one of the numbers stands in the relation to the value.
    pub(crate) fn fits(&self, op: Op, value: &Value) -> bool
        requires { self.now.low ≤ self.now.high }
        ensures { Tells result (IsCountReached self.now op (value.now ∷ [])) }
    {
        let low = i64::from(self.low);
        let high = i64::from(self.high);
        let number = number_of(value);
        match op {
            Op::Eq => low <= number && number <= high,
            Op::Ne => low != number || high != number,
            Op::Lt | Op::Le => stands(op, low, number),
            Op::Gt | Op::Ge => stands(op, high, number),
        }
    }

    /// Whether one of the numbers is a present value of the variable.
    fn meets(&self, store: &DomainStore, target: Var) -> bool
        requires ordered { self.now.low ≤ self.now.high }
        requires small { self.now.high ≤ MOST_SCOPE }
        requires declared { target < length store.now }
        ensures { Tells result (IsCountReached self.now Op.Eq (values_of (present_of store.now) target)) }
    {
        match store.next_from(target, Value(self.low as i32)) {
            Some(value) => number_of(&value) <= i64::from(self.high),
            None => false,
        }
    }

    /// Appends every declared pair of the variable to whose value one of the numbers stands in the relation.
    pub(crate) fn push_fitting(
        &self,
        op: Op,
        store: &DomainStore,
        target: Var,
        out: &mut Reasons,
    ) -> Result<(), NoMemory>
        requires ordered { self.now.low ≤ self.now.high }
        requires declared { target < length store.now }
        ensures { OnOk result (out.new.items ≡ out.old.items ++ pairs_of target (filter (is_within_counts self.now.low (self.now.high - self.now.low) op) (values_of (initial_of store.now) target))) }
    {
        push_passing(
            store.initial_values(target),
            target,
            |value| self.fits(op, value),
            out,
        )
    }
}
