//! Reasons by a rule as intervals of places among the declared values.
ghost use Rattle.std.specs.Prelude.{◌≡◌, ◌++◌, ℕ, not, pos, ◌+ℤ◌, int_lt, length, OnOk};
ghost use Rattle.std.specs.Ordering.{int_eq};
ghost use Rattle.palm_base.specs.Order.{IsPartedAt};
ghost use Rattle.palm_domain.specs.Rows.{declared_values, initial_of};
ghost use Rattle.palm_filter.specs.Rules.{declared_passing, interval_pairs, listed_pairs, written};
ghost use Rattle.palm_model.specs.Domains.{Domains};
ghost use Rattle.palm_model.specs.declared.constraint.Con.{Con};

use crate::rule::{Interval, Intervals, Rule, Shift};
use palm_base::{NoMemory, Value, Var};
use palm_domain::DomainStore;

/// How many values the variable was declared with, and none where there is no such variable.
fn count_of(store: &DomainStore, var: &Var) -> usize
    ensures { result ≡ length (declared_values store.now var.now) }
{
    if var.0 < store.variables() {
        store.initial_count(*var) as usize
    } else {
        0
    }
}

/// How many declared values of the shift's variable are less than the shifted value.
fn count_below(store: &DomainStore, shift: &Shift, value: &Value) -> usize
    ensures { IsPartedAt (λ w. int_lt w (value.now +ℤ shift.now.by))
        (declared_values store.now shift.now.var) result }
{
    if shift.var.0 < store.variables() {
        store.declared_below(shift.var, i64::from(value.0) + i64::from(shift.by))
    } else {
        0
    }
}

/// How many declared values of the shift's variable are at most the shifted value.
fn count_up_to(store: &DomainStore, shift: &Shift, value: &Value) -> usize
    ensures { IsPartedAt (λ w. int_lt w (value.now +ℤ shift.now.by +ℤ pos 1))
        (declared_values store.now shift.now.var) result }
{
    if shift.var.0 < store.variables() {
        store.declared_below(shift.var, i64::from(value.0) + i64::from(shift.by) + 1)
    } else {
        0
    }
}

/// Appends the declared values of the variable from a first place on up to before an end, if there are any.
pub fn push_interval(
    var: &Var,
    first: usize,
    end: usize,
    out: &mut Intervals,
) -> Result<(), NoMemory>
    ensures { (d : Domains) → OnOk result (listed_pairs d out.new.items
        ≡ listed_pairs d out.old.items ++ interval_pairs d (record { var = var.now; first = first; end = end })) }
{
    if first < end {
        out.push(Interval {
            var: *var,
            first,
            end,
        })?;
    }
    Ok(())
}

/// Appends the declared values of the shift's variable but the shifted value.
fn push_others(
    store: &DomainStore,
    shift: &Shift,
    value: &Value,
    out: &mut Intervals,
) -> Result<(), NoMemory>
    ensures { OnOk result (listed_pairs (initial_of store.now) out.new.items
        ≡ listed_pairs (initial_of store.now) out.old.items ++ declared_passing (initial_of store.now) shift.now.var (λ w. not (int_eq w (value.now +ℤ shift.now.by)))) }
{
    push_interval(&shift.var, 0, count_below(store, shift, value), out)?;
    push_interval(
        &shift.var,
        count_up_to(store, shift, value),
        count_of(store, &shift.var),
        out,
    )
}

/// Makes `out` the intervals of the reasons of the value by the rule; of a list it has them. Without memory what `out` has
/// means nothing.
pub fn write_out(
    store: &DomainStore,
    rule: &Rule,
    value: &Value,
    out: &mut Intervals,
) -> Result<(), NoMemory>
    ensures { (c : Con) (x : ℕ) → OnOk result (listed_pairs (initial_of store.now) out.new.items
        ≡ written (initial_of store.now) c rule.now out.old.items x value.now) }
{
    if let Rule::Listed = rule {
        return Ok(());
    }
    out.clear();
    match rule {
        Rule::Empty | Rule::Listed => Ok(()),
        Rule::Above(shift) => push_interval(
            &shift.var,
            count_below(store, shift, value),
            count_of(store, &shift.var),
            out,
        ),
        Rule::Below(shift) => push_interval(&shift.var, 0, count_up_to(store, shift, value), out),
        Rule::At(shift) => push_interval(
            &shift.var,
            count_below(store, shift, value),
            count_up_to(store, shift, value),
            out,
        ),
        Rule::Other(shift) => push_others(store, shift, value, out),
    }
}
