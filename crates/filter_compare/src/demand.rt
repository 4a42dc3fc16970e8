//! What is asked of the value of one variable.
ghost use Rattle.std.specs.Prelude.{◌≡◌, ◌++◌, ◌<◌, ◌≤ℤ◌, ◌⊎◌, length, true, Contains, FitsSigned, OnOk};
ghost use Rattle.std.specs.Int.{w32};
ghost use Rattle.filter_compare.specs.Comparison.{IsMet, comparison_of, flipped_of, meeting_values};
ghost use Rattle.filter_compare.specs.declared.compare.Comparison.{Comparison};
ghost use Rattle.palm_base.specs.Tells.{Tells};
ghost use Rattle.palm_domain.specs.Rows.{Ascends, initial_of, present_of};
ghost use Rattle.palm_filter.specs.Shapes.{IsShaped};
ghost use Rattle.palm_model.specs.Relation.{Stands, is_standing};
ghost use Rattle.palm_model.specs.Domains.{values_of};
ghost use Rattle.palm_model.specs.Removed.{pairs_of};

use palm_base::{NoMemory, Pair, Value, Var};
use palm_domain::DomainStore;
use palm_filter::{Reasons, Shape, push_passing};
use palm_model::{Op, number_of, stands};

/// The variable is to have a value that stands in the relation to the bound.
#[derive(Debug, Drop)]
pub struct Demand {
    pub var: Var,
    pub op: Op,
    pub bound: i64,
}

/// The relation, seen from its other side.
pub(crate) fn flipped(op: Op) -> Op
    ensures { result ≡ flipped_of op }
{
    match op {
        Op::Eq => Op::Eq,
        Op::Ne => Op::Ne,
        Op::Lt => Op::Gt,
        Op::Le => Op::Ge,
        Op::Gt => Op::Lt,
        Op::Ge => Op::Le,
    }
}

impl Demand {
    /// Whether a present value of the variable meets the demand.
    pub(crate) fn is_met(&self, store: &DomainStore) -> bool
        requires { self.now.var < length store.now }
        ensures { Tells result (IsMet (values_of (present_of store.now) self.now.var) self.now) }
    {
        match self.op {
            Op::Eq => self.is_present(store),
            Op::Ne => self.has_other(store),
            Op::Lt => self.least_meets(store),
            Op::Le => self.least_meets(store),
            Op::Gt => self.greatest_meets(store),
            Op::Ge => self.greatest_meets(store),
        }
    }

    /// Whether the variable has a present value, and the least one meets the demand.
    fn least_meets(&self, store: &DomainStore) -> bool
        requires declared { self.now.var < length store.now }
        requires low { (self.now.op ≡ Op.Lt) ⊎ (self.now.op ≡ Op.Le) }
        ensures { Tells result (IsMet (values_of (present_of store.now) self.now.var) self.now) }
    {
        store.count(self.var) > 0 && self.is_met_by(&store.least(self.var))
    }

    /// Whether the variable has a present value, and the greatest one meets the demand.
    fn greatest_meets(&self, store: &DomainStore) -> bool
        requires declared { self.now.var < length store.now }
        requires high { (self.now.op ≡ Op.Gt) ⊎ (self.now.op ≡ Op.Ge) }
        ensures { Tells result (IsMet (values_of (present_of store.now) self.now.var) self.now) }
    {
        store.count(self.var) > 0 && self.is_met_by(&store.greatest(self.var))
    }

    /// Whether a present value of the variable is another one than the bound.
    fn has_other(&self, store: &DomainStore) -> bool
        requires declared { self.now.var < length store.now }
        requires differs { self.now.op ≡ Op.Ne }
        ensures { Tells result (IsMet (values_of (present_of store.now) self.now.var) self.now) }
    {
        // The store tells here that its values ascend: of two values one is not the bound.
        let _ = store.variables();
        let count = store.count(self.var);
        count > 1 || count == 1 && self.is_met_by(&store.least(self.var))
    }

    /// Whether the value meets the demand.
    pub(crate) fn is_met_by(&self, value: &Value) -> bool
        ensures test { result ≡ is_standing self.now.op value.now self.now.bound }
        ensures stands { Tells result (Stands self.now.op value.now self.now.bound) }
    {
        stands(self.op, number_of(value), self.bound)
    }

    /// Whether the bound is from the one value to the other. Then it is itself a number of a value.
    fn is_between(&self, least: &Value, greatest: &Value) -> bool
        ensures between { Tells result ((least.now ≤ℤ self.now.bound) × (self.now.bound ≤ℤ greatest.now)) }
        ensures fits { result ≡ true → FitsSigned w32 self.now.bound }
    {
        number_of(least) <= self.bound && self.bound <= number_of(greatest)
    }

    /// What is known of the support of the variable that is compared with the bound: those of an order lie together, and all
    /// but the bound are alike.
    pub(crate) fn shape(&self) -> Shape
        ensures { IsShaped (comparison_of (Comparison.Constant self.now)) self.now.var result }
    {
        match self.op {
            Op::Eq | Op::Ne => self.alike(),
            Op::Lt | Op::Le | Op::Gt | Op::Ge => Shape::Convex,
        }
    }

    /// All values but the bound are alike.
    fn alike(&self) -> Shape
        requires equal { (self.now.op ≡ Op.Eq) ⊎ (self.now.op ≡ Op.Ne) }
        ensures { IsShaped (comparison_of (Comparison.Constant self.now)) self.now.var result }
    {
        match i32::try_from(self.bound) {
            Ok(bound) => Shape::AlikeBut(Value(bound)),
            Err(_) => Shape::Any,
        }
    }

    /// Whether the bound itself is a present value of the variable.
    fn is_present(&self, store: &DomainStore) -> bool
        requires { self.now.var < length store.now }
        ensures { Tells result (Contains (values_of (present_of store.now) self.now.var) self.now.bound) }
    {
        match i32::try_from(self.bound) {
            Ok(bound) => store.contains(Pair {
                var: self.var,
                value: Value(bound),
            }),
            // A number that no value can be is not between two values.
            Err(_) => {
                let values = store.initial_values(self.var);
                self.is_between(&values[0], &values[values.len() - 1])
            }
        }
    }

    /// The pair of the variable with the bound.
    fn bound_pair(&self) -> Pair
        requires { FitsSigned w32 self.now.bound }
        ensures { result ≡ record { var = self.now.var; value = self.now.bound } }
    {
        Pair {
            var: self.var,
            value: Value(self.bound as i32),
        }
    }

    /// Appends the pair of the variable with the bound, where that is declared: no other value is equal to it.
    fn push_bound(&self, store: &DomainStore, out: &mut Reasons) -> Result<(), NoMemory>
        requires declared { self.now.var < length store.now }
        requires equal { self.now.op ≡ Op.Eq }
        ensures { OnOk result (out.new.items ≡ out.old.items ++ pairs_of self.now.var (meeting_values (values_of (initial_of store.now) self.now.var) self.now)) }
    {
        let values = store.initial_values(self.var);
        if !self.is_between(&values[0], &values[values.len() - 1]) {
            return Ok(());
        }
        if store.declared(self.bound_pair()) {
            out.push(self.bound_pair())?;
        }
        Ok(())
    }

    /// Appends every declared pair of the variable that meets the demand.
    pub(crate) fn push_declared(
        &self,
        store: &DomainStore,
        out: &mut Reasons,
    ) -> Result<(), NoMemory>
        requires { self.now.var < length store.now }
        ensures { OnOk result (out.new.items ≡ out.old.items ++ pairs_of self.now.var (meeting_values (values_of (initial_of store.now) self.now.var) self.now)) }
    {
        let values = store.initial_values(self.var);
        match self.op {
            Op::Eq => self.push_bound(store, out),
            Op::Ne => push_passing(values, self.var, |value| self.is_met_by(value), out),
            Op::Lt | Op::Le => self.push_all(self.lower(values), out),
            Op::Gt | Op::Ge => self.push_all(self.higher(values), out),
        }
    }

    /// The values that meet the demand to be low: the first ones of an ascending list.
    fn lower<'a>(&self, values: &'a [Value]) -> &'a [Value]
        requires ascend { Ascends values.now }
        requires low { (self.now.op ≡ Op.Lt) ⊎ (self.now.op ≡ Op.Le) }
        ensures { result.now ≡ meeting_values values.now self.now }
    {
        let end = values.partition_point(|value| self.is_met_by(value));
        &values[..end]
    }

    /// The values that meet the demand to be high: the last ones of an ascending list.
    fn higher<'a>(&self, values: &'a [Value]) -> &'a [Value]
        requires ascend { Ascends values.now }
        requires high { (self.now.op ≡ Op.Gt) ⊎ (self.now.op ≡ Op.Ge) }
        ensures { result.now ≡ meeting_values values.now self.now }
    {
        let start = values.partition_point(|value| !self.is_met_by(value));
        &values[start..]
    }

    /// Appends the pair of the variable with each of the values.
    fn push_all(&self, values: &[Value], out: &mut Reasons) -> Result<(), NoMemory>
        ensures { OnOk result (out.new.items ≡ out.old.items ++ pairs_of self.now.var values.now) }
    {
        push_passing(values, self.var, |_| true, out)
    }
}
