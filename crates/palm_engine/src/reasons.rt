//! The reasons of a removal: as spans of values where the constraint's filter tells a rule of them, and else as a list of pairs.
ghost use Rattle.std.specs.Prelude.{◌≡◌, ◌++◌, ◌≤◌, ◌≤ℤ◌, ◌+ℤ◌, ◌-ℤ◌, pos, ℕ, ℤ, not, int_lt, List, [], true, length, IfNone, IfOk, IfSome, OnOk};
ghost use Rattle.std.specs.Ordering.{int_eq};
ghost use Rattle.palm_base.specs.declared.terms.Pair.{Pair as PairTerm};
ghost use Rattle.palm_domain.specs.Rows.{Ascends, IsDeclared, declared_values, initial_of};
ghost use Rattle.palm_domain.specs.declared.limits.TheConstants.{MOST_VALUES};
ghost use Rattle.palm_explain.specs.Explanations.{AreSpanned};
ghost use Rattle.palm_explain.specs.Moving.{spans_at};
ghost use Rattle.palm_explain.specs.declared.moving.End.TheVariants.{Shifted};
ghost use Rattle.palm_filter.specs.Rules.{declared_passing, listed_pairs, written};
ghost use Rattle.palm_model.specs.Constraint.{IsWellFormed};
ghost use Rattle.palm_model.specs.Removed.{pairs_of};
ghost use Rattle.palm_model.specs.declared.constraint.Con.{Con};
ghost use Rattle.palm_engine.specs.Reasons.{AreNear, Covers, Goes, IsNearNumber, IsNearShift, IsRun, IsToldBy, Knows, TellsMore, TellsReason, values_in};

use palm_base::{NoMemory, Pair, Value, Var};
use palm_domain::DomainStore;
use palm_explain::{End, MovingSpan};
use palm_filter::{Filter, Interval, Intervals, Known, Reasons, Rule, Shift};
use std::alloc::{AllocError, Global};

/// Values and shifts up to this number, above zero and below it, are told of by a rule: no sum of two of them leaves 32 bits.
const MOST_NEAR: i32 = (1 << 30) - 1;

/// Room for the reasons of removals, filled again and again.
#[derive(Drop)]
pub(crate) struct ReasonRoom {
    /// The reasons, where they are listed.
    pub(crate) pairs: Reasons,
    pub(crate) intervals: Intervals,
    /// Values that go together.
    pub(crate) values: Vec<Value>,
    /// The spans that stand for the reasons of a value.
    pub(crate) spans: Vec<MovingSpan>,
    /// The greatest value for whose reasons the spans are known to stand, in a walk over the values of a variable.
    pub(crate) known: Option<Value>,
}

impl ReasonRoom {
    /// No reason, and no span that is known to stand for one.
    pub(crate) fn new(alloc: Global) -> ReasonRoom {
        ReasonRoom {
            pairs: Reasons::new(alloc),
            intervals: Intervals::new(alloc),
            values: Vec::new(alloc),
            spans: Vec::new(alloc),
            known: None,
        }
    }

    /// Whether the spans are known to stand for the reasons of the value.
    pub(crate) fn covers(&self, value: &Value) -> bool
        ensures { result ≡ true → Covers value.now self.now }
    {
        match &self.known {
            Some(last) => *value <= *last,
            None => false,
        }
    }
}

/// The declared values of an interval.
fn values_in<'a>(store: &'a DomainStore, interval: &Interval) -> &'a [Value]
    ensures values { result.now ≡ values_in (declared_values store.now interval.now.var) interval.now }
    ensures ascend { Ascends (declared_values store.now interval.now.var) }
    ensures small { length result.now ≤ MOST_VALUES }
{
    let Interval { var, first, end } = *interval;
    if var.0 >= store.variables() {
        return &[];
    }
    let values = store.initial_values(var);
    let end = end.min(values.len());
    &values[first.min(end)..end]
}

/// Appends the removals of values that stand side by side as a span, if there is one.
fn push_span(var: Var, values: &[Value], out: &mut Vec<MovingSpan>) -> Result<(), NoMemory>
    ensures told { (v : ℤ) (pairs reasons : List PairTerm) → IsRun pairs var values.now
        → AreSpanned pairs (spans_at out.old.items v) reasons
        → OnOk result (AreSpanned pairs (spans_at out.new.items v) (reasons ++ pairs_of var values.now)) }
    ensures near { AreNear out.old.items → OnOk result (AreNear out.new.items) }
{
    if let (Some(low), Some(high)) = (values.first(), values.last()) {
        out.push(MovingSpan {
            var,
            low: End::At(*low),
            high: End::At(*high),
        })?;
    }
    Ok(())
}

/// Replaces what `out` has by the spans of these intervals, all of whose values are removed.
fn list_spans(
    store: &DomainStore,
    intervals: &[Interval],
    out: &mut Vec<MovingSpan>,
) -> Result<(), NoMemory>
    ensures told { (v : ℤ) → OnOk result (IsToldBy (initial_of store.now)
        (listed_pairs (initial_of store.now) intervals.now) (spans_at out.new.items v)) }
    ensures near { OnOk result (AreNear out.new.items) }
{
    out.clear();
    for interval in intervals {
        push_span(interval.var, values_in(store, interval), out)?;
    }
    Ok(())
}

/// The least and the greatest declared value of a variable.
#[derive(Clone, Copy)]
struct Ends {
    least: Value,
    greatest: Value,
}

/// The ends of the variable's declared values, if there is such a variable.
fn ends_of(store: &DomainStore, var: Var) -> Option<Ends>
    ensures ascend { Ascends (declared_values store.now var) }
    ensures none { IfNone result (declared_values store.now var ≡ []) }
    ensures some { IfSome result (λ ends. (v : ℤ) → IsDeclared store.now var v
        → (ends.least ≤ℤ v) × (v ≤ℤ ends.greatest)) }
{
    if var.0 >= store.variables() {
        return None;
    }
    let values = store.initial_values(var);
    Some(Ends {
        least: values[0],
        greatest: values[values.len() - 1],
    })
}

/// Whether no sum of the shift, of one more or of one less, and a value that is not beyond those of a rule leaves 32 bits.
fn is_near(shift: &Shift) -> bool
    ensures { result ≡ true → IsNearShift shift.now }
{
    -MOST_NEAR < shift.by && shift.by < MOST_NEAR
}

/// The shifted value.
fn shifted(shift: &Shift) -> End
    requires { IsNearShift shift.now }
    ensures { result ≡ Shifted shift.now.by }
{
    End::Shifted(shift.by)
}

/// What is before the shifted value.
fn before_shifted(shift: &Shift) -> End
    requires { IsNearShift shift.now }
    ensures { result ≡ Shifted (shift.now.by -ℤ pos 1) }
{
    End::Shifted(shift.by - 1)
}

/// What is behind the shifted value.
fn after_shifted(shift: &Shift) -> End
    requires { IsNearShift shift.now }
    ensures { result ≡ Shifted (shift.now.by +ℤ pos 1) }
{
    End::Shifted(shift.by + 1)
}

/// Appends the removals of the values of the shift's variable from the shifted value on as a span, if it has values, and answers
/// whether the shift is near.
fn push_above(
    store: &DomainStore,
    shift: &Shift,
    out: &mut Vec<MovingSpan>,
) -> Result<bool, NoMemory>
    ensures told { IfOk result (λ told. told ≡ true → TellsMore (initial_of store.now) out.old.items out.new.items
        (λ v. declared_passing (initial_of store.now) shift.now.var (λ w. not (int_lt w (v +ℤ shift.now.by))))) }
    ensures near { AreNear out.old.items → OnOk result (AreNear out.new.items) }
{
    if !is_near(shift) {
        return Ok(false);
    }
    let Some(ends) = ends_of(store, shift.var) else {
        return Ok(true);
    };
    out.push(MovingSpan {
        var: shift.var,
        low: shifted(shift),
        high: End::At(ends.greatest),
    })?;
    Ok(true)
}

/// Appends the removals of the values of the shift's variable up to the shifted value as a span, if it has values, and answers
/// whether the shift is near.
fn push_below(
    store: &DomainStore,
    shift: &Shift,
    out: &mut Vec<MovingSpan>,
) -> Result<bool, NoMemory>
    ensures told { IfOk result (λ told. told ≡ true → TellsMore (initial_of store.now) out.old.items out.new.items
        (λ v. declared_passing (initial_of store.now) shift.now.var (λ w. not (int_lt (v +ℤ shift.now.by) w)))) }
    ensures near { AreNear out.old.items → OnOk result (AreNear out.new.items) }
{
    if !is_near(shift) {
        return Ok(false);
    }
    let Some(ends) = ends_of(store, shift.var) else {
        return Ok(true);
    };
    out.push(MovingSpan {
        var: shift.var,
        low: End::At(ends.least),
        high: shifted(shift),
    })?;
    Ok(true)
}

/// Appends the removal of the shifted value of the shift's variable as a span, if the variable has values, and answers whether the
/// shift is near.
fn push_at(store: &DomainStore, shift: &Shift, out: &mut Vec<MovingSpan>) -> Result<bool, NoMemory>
    ensures told { IfOk result (λ told. told ≡ true → TellsMore (initial_of store.now) out.old.items out.new.items
        (λ v. declared_passing (initial_of store.now) shift.now.var (λ w. int_eq w (v +ℤ shift.now.by)))) }
    ensures near { AreNear out.old.items → OnOk result (AreNear out.new.items) }
{
    if !is_near(shift) {
        return Ok(false);
    }
    let Some(_) = ends_of(store, shift.var) else {
        return Ok(true);
    };
    out.push(MovingSpan {
        var: shift.var,
        low: shifted(shift),
        high: shifted(shift),
    })?;
    Ok(true)
}

/// Appends the removals of the values of the shift's variable but the shifted value as spans, if it has values, and answers whether
/// the shift is near.
fn push_others(
    store: &DomainStore,
    shift: &Shift,
    out: &mut Vec<MovingSpan>,
) -> Result<bool, NoMemory>
    ensures told { IfOk result (λ told. told ≡ true → TellsMore (initial_of store.now) out.old.items out.new.items
        (λ v. declared_passing (initial_of store.now) shift.now.var (λ w. not (int_eq w (v +ℤ shift.now.by))))) }
    ensures near { AreNear out.old.items → OnOk result (AreNear out.new.items) }
{
    if !is_near(shift) {
        return Ok(false);
    }
    let Some(ends) = ends_of(store, shift.var) else {
        return Ok(true);
    };
    out.push(MovingSpan {
        var: shift.var,
        low: End::At(ends.least),
        high: before_shifted(shift),
    })?;
    out.push(MovingSpan {
        var: shift.var,
        low: after_shifted(shift),
        high: End::At(ends.greatest),
    })?;
    Ok(true)
}

/// Makes `out` the spans of the reasons of a value by the rule, with the intervals of its list, and answers whether its shift is near.
fn write_spans(
    store: &DomainStore,
    rule: &Rule,
    intervals: &[Interval],
    out: &mut Vec<MovingSpan>,
) -> Result<bool, NoMemory>
    ensures told { (c : Con) (x : ℕ) (v : ℤ) → IfOk result (λ told. told ≡ true → IsToldBy (initial_of store.now)
        (written (initial_of store.now) c rule.now intervals.now x v) (spans_at out.new.items v)) }
    ensures near { OnOk result (AreNear out.new.items) }
{
    out.clear();
    match rule {
        Rule::Empty => Ok(true),
        Rule::Above(shift) => push_above(store, shift, out),
        Rule::Below(shift) => push_below(store, shift, out),
        Rule::At(shift) => push_at(store, shift, out),
        Rule::Other(shift) => push_others(store, shift, out),
        Rule::Listed => {
            list_spans(store, intervals, out)?;
            Ok(true)
        }
    }
}

/// The last value of which the rule is known, if it is not before this one, and neither of them is too far for a rule.
fn last_of(known: &Known, value: &Value) -> Option<Value>
    ensures { IfSome result (λ last. (value.now ≤ℤ last) × (last ≤ℤ known.now.last)
        × IsNearNumber value.now × IsNearNumber last) }
{
    let last = if known.last.0 < MOST_NEAR {
        known.last
    } else {
        Value(MOST_NEAR)
    };
    if last < *value || value.0 < -MOST_NEAR {
        return None;
    }
    Some(last)
}

/// Asks the filter for a rule of the reasons of the value, and answers whether the room's spans are those of one.
fn learn<F: Filter>(
    filter: &F,
    store: &DomainStore,
    pair: &Pair,
    room: &mut ReasonRoom,
) -> Result<bool, NoMemory>
    requires formed { IsWellFormed (length store.now) (F.meaning filter.now) }
    requires goes { Goes store.now (F.meaning filter.now) pair.now }
    ensures knows { OnOk result (Knows store.now (F.meaning filter.now) pair.now.var
        pair.now.value room.new) }
    ensures covers { IfOk result (λ told. told ≡ true → Covers pair.now.value room.new) }
{
    room.known = None;
    let Some(known) = filter.rule(store, pair, &mut room.intervals)? else {
        return Ok(false);
    };
    let Some(last) = last_of(&known, &pair.value) else {
        return Ok(false);
    };
    if !write_spans(store, &known.rule, &room.intervals, &mut room.spans)? {
        return Ok(false);
    }
    room.known = Some(last);
    Ok(true)
}

/// Makes the room's spans stand for the removed pairs for which the value has no support, where the walk or else the filter knows a
/// rule of them, and answers whether they do.
pub(crate) fn spans_by_rule<F: Filter>(
    filter: &F,
    store: &DomainStore,
    pair: &Pair,
    room: &mut ReasonRoom,
) -> Result<bool, NoMemory>
    requires formed { IsWellFormed (length store.now) (F.meaning filter.now) }
    requires goes { Goes store.now (F.meaning filter.now) pair.now }
    requires knows { Knows store.now (F.meaning filter.now) pair.now.var pair.now.value room.old }
    ensures told { IfOk result (λ told. told ≡ true
        → TellsReason store.now (F.meaning filter.now) pair.now room.new.spans.items) }
    ensures knows { OnOk result (Knows store.now (F.meaning filter.now) pair.now.var
        pair.now.value room.new) }
{
    // The store tells here what it holds of its values: spans are known to stand for reasons where they ascend.
    prove!(store.variables() > 0);
    if room.covers(&pair.value) {
        return Ok(true);
    }
    learn(filter, store, pair, room)
}
