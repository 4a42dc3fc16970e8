//! Reasons of linear constraints: removed values beyond the present ones, or all removed values.
ghost use Rattle.std.specs.Prelude.{◌≡◌, ◌++◌, ◌<◌, ◌≤◌, ◌≤ℤ◌, ℤ, drop, filter, int_lt, length, take, IfOk, IfSome, OnOk};
ghost use Rattle.palm_filter.specs.Rules.{interval_pairs, listed_pairs, written};
ghost use Rattle.palm_model.specs.declared.constraint.Con.{Con};
ghost use Rattle.filter_linear.specs.Linear.{IsOfLow, beyond_reason, linear_of, values_beyond};
ghost use Rattle.palm_base.specs.Tells.{Tells};
ghost use Rattle.palm_domain.specs.Rows.{IsGreatestOf, IsLeastOf, declared_values, initial_of, present_of, present_values};
ghost use Rattle.palm_model.specs.Linear.{IsFactor, term_vars, linear_reason};
ghost use Rattle.palm_model.specs.Constraint.{IsWellFormed};
ghost use Rattle.palm_model.specs.Domains.{values_of};
ghost use Rattle.palm_model.specs.Reason.{AreFilled};
ghost use Rattle.palm_model.specs.Removed.{others, pairs_of, removed_pairs};

use crate::rule::LinearRule;
use palm_base::{NoMemory, Pair, Value, Var};
use palm_domain::DomainStore;
use palm_filter::{Interval, Intervals, Known, Reasons, Rule, push_passing, push_removed};
use palm_model::{Op, Term, number_of};

/// On which side of the present values others are missing.
#[derive(Clone, Copy, Debug, PartialEq, Eq)]
pub enum Side {
    /// Products below the present ones.
    Below,
    /// Products above the present ones.
    Above,
}

/// How many declared values of the variable are below its least present one.
fn count_below(store: &DomainStore, var: Var) -> usize
    requires declared { var < length store.now }
    requires filled { 0 < length (values_of (present_of store.now) var) }
    ensures within { result ≤ length (declared_values store.now var) }
    ensures lower { (low : ℤ) × IsLeastOf (present_values store.now var) low
        × (take result (declared_values store.now var) ≡ filter (λ v. int_lt v low) (declared_values store.now var)) }
{
    store.declared_below(var, number_of(&store.least(var)))
}

/// How many declared values of the variable are up to its greatest present one.
fn count_up_to(store: &DomainStore, var: Var) -> usize
    requires declared { var < length store.now }
    requires filled { 0 < length (values_of (present_of store.now) var) }
    ensures within { result ≤ length (declared_values store.now var) }
    ensures higher { (high : ℤ) × IsGreatestOf (present_values store.now var) high
        × (drop result (declared_values store.now var) ≡ filter (λ v. int_lt high v) (declared_values store.now var)) }
{
    store.declared_below(var, number_of(&store.greatest(var)) + 1)
}

impl Side {
    /// The interval of the removed values of the term's variable whose products are on this side of those of all present
    /// values.
    fn interval_beyond(self, term: &Term, store: &DomainStore) -> Interval
        requires factor { IsFactor term.now }
        requires declared { term.now.var < length store.now }
        requires filled { 0 < length (values_of (present_of store.now) term.now.var) }
        ensures var { result.var ≡ term.now.var }
        ensures ordered { result.first ≤ result.end }
        ensures within { result.end ≤ length (declared_values store.now term.now.var) }
        ensures values { drop result.first (take result.end (declared_values store.now term.now.var))
            ≡ values_beyond self (initial_of store.now) (present_of store.now) term.now }
    {
        let (first, end) = if self.is_of_low_values(term) {
            (0, count_below(store, term.var))
        } else {
            (
                count_up_to(store, term.var),
                store.initial_count(term.var) as usize,
            )
        };
        Interval {
            var: term.var,
            first,
            end,
        }
    }

    /// Appends these intervals of every variable of the sum but that of the pair.
    fn push_intervals(
        self,
        rule: &LinearRule,
        store: &DomainStore,
        pair: &Pair,
        out: &mut Intervals,
    ) -> Result<(), NoMemory>
        requires formed { IsWellFormed (length store.now) (linear_of rule.now) }
        requires filled { AreFilled (present_of store.now) (term_vars rule.now.terms) }
        ensures { OnOk result (listed_pairs (initial_of store.now) out.new.items ≡ listed_pairs (initial_of store.now) out.old.items ++ beyond_reason self (initial_of store.now) (present_of store.now) rule.now.terms pair.now.var) }
    {
        for term in rule.terms.as_slice() {
            if term.var != pair.var {
                out.push(self.interval_beyond(term, store))?;
            }
        }
        Ok(())
    }

    /// Whether the products of the term on this side are those of its low values.
    fn is_of_low_values(self, term: &Term) -> bool
        requires { IsFactor term.now }
        ensures { Tells result (IsOfLow self term.now.factor) }
    {
        match self {
            Side::Below => term.factor > 0,
            Side::Above => term.factor < 0,
        }
    }

    /// The removed values of the term's variable whose products are on this side of those of all present values.
    fn values_beyond<'a>(self, term: &Term, store: &'a DomainStore) -> &'a [Value]
        requires factor { IsFactor term.now }
        requires declared { term.now.var < length store.now }
        requires filled { 0 < length (values_of (present_of store.now) term.now.var) }
        ensures { result.now ≡ values_beyond self (initial_of store.now) (present_of store.now) term.now }
    {
        let interval = self.interval_beyond(term, store);
        &store.initial_values(term.var)[interval.first..interval.end]
    }

    /// Appends every removed pair of the term's variable whose product is on this side of those of all present values.
    fn push_values(
        self,
        term: &Term,
        store: &DomainStore,
        out: &mut Reasons,
    ) -> Result<(), NoMemory>
        requires factor { IsFactor term.now }
        requires declared { term.now.var < length store.now }
        requires filled { 0 < length (values_of (present_of store.now) term.now.var) }
        ensures { OnOk result (out.new.items ≡ out.old.items ++ pairs_of term.now.var (values_beyond self (initial_of store.now) (present_of store.now) term.now)) }
    {
        push_passing(self.values_beyond(term, store), term.var, |_| true, out)
    }

    /// Appends these pairs of every variable of the sum but that of the pair.
    fn push_pairs(
        self,
        rule: &LinearRule,
        store: &DomainStore,
        pair: &Pair,
        out: &mut Reasons,
    ) -> Result<(), NoMemory>
        requires formed { IsWellFormed (length store.now) (linear_of rule.now) }
        requires filled { AreFilled (present_of store.now) (term_vars rule.now.terms) }
        ensures { OnOk result (out.new.items ≡ out.old.items ++ beyond_reason self (initial_of store.now) (present_of store.now) rule.now.terms pair.now.var) }
    {
        for term in rule.terms.as_slice() {
            if term.var != pair.var {
                self.push_values(term, store, out)?;
            }
        }
        Ok(())
    }
}

/// Appends the removed pairs of every variable of the sum but that of the pair.
fn push_others(
    rule: &LinearRule,
    store: &DomainStore,
    pair: &Pair,
    out: &mut Reasons,
) -> Result<(), NoMemory>
    requires formed { IsWellFormed (length store.now) (linear_of rule.now) }
    ensures { OnOk result (out.new.items ≡ out.old.items ++ removed_pairs (initial_of store.now) (present_of store.now) (others (term_vars rule.now.terms) pair.now.var)) }
{
    for term in rule.terms.as_slice() {
        if term.var != pair.var {
            push_removed(store, term.var, out)?;
        }
    }
    Ok(())
}

/// Appends the removed pairs for which the sum does not stand in the relation where the variable has its value.
pub(crate) fn push_reason(
    rule: &LinearRule,
    store: &DomainStore,
    pair: &Pair,
    out: &mut Reasons,
) -> Result<(), NoMemory>
    requires formed { IsWellFormed (length store.now) (linear_of rule.now) }
    requires filled { AreFilled (present_of store.now) (term_vars rule.now.terms) }
    ensures { OnOk result (out.new.items ≡ out.old.items ++ linear_reason (initial_of store.now) (present_of store.now) rule.now.terms rule.now.op rule.now.bound pair.now.var pair.now.value) }
{
    match rule.op {
        Op::Eq => rule
            .missing_side(store, pair)
            .push_pairs(rule, store, pair, out),
        Op::Ne => push_others(rule, store, pair, out),
        Op::Lt | Op::Le => Side::Below.push_pairs(rule, store, pair, out),
        Op::Gt | Op::Ge => Side::Above.push_pairs(rule, store, pair, out),
    }
}

/// The rule of the reasons: a list of intervals, which replaces what `out` has. It is the same for every value, but of a sum
/// that is to be equal to the bound, where it is told of the value alone. None is told of a sum that is to differ from it.
pub(crate) fn list_rule(
    rule: &LinearRule,
    store: &DomainStore,
    pair: &Pair,
    out: &mut Intervals,
) -> Result<Option<Known>, NoMemory>
    requires formed { IsWellFormed (length store.now) (linear_of rule.now) }
    requires filled { AreFilled (present_of store.now) (term_vars rule.now.terms) }
    ensures { IfOk result (λ told. IfSome told (λ known. (c : Con) (v : ℤ) → pair.now.value ≤ℤ v → v ≤ℤ known.last
        → written (initial_of store.now) c known.rule out.new.items pair.now.var v ≡ linear_reason (initial_of store.now) (present_of store.now) rule.now.terms rule.now.op rule.now.bound pair.now.var v)) }
{
    out.clear();
    match rule.op {
        Op::Eq => {
            rule.missing_side(store, pair)
                .push_intervals(rule, store, pair, out)?;
            Ok(Some(Known {
                rule: Rule::Listed,
                last: pair.value,
            }))
        }
        Op::Ne => Ok(None),
        Op::Lt | Op::Le => {
            Side::Below.push_intervals(rule, store, pair, out)?;
            Ok(Some(Known::always(Rule::Listed)))
        }
        Op::Gt | Op::Ge => {
            Side::Above.push_intervals(rule, store, pair, out)?;
            Ok(Some(Known::always(Rule::Listed)))
        }
    }
}
