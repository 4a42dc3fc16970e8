//! What two engines show alike: their logs, their values, how many revisions ran, and which variable is empty. Each function has
//! what a failed assertion names beside these.
ghost use Rattle.std.specs.Prelude.{◌<◌, length};

use palm_base::{Pair, Var};
use palm_domain::DomainStore;
use palm_engine::Engine;
use palm_explain::ExplainStore;
use palm_filter::Filter;
use std::fmt::Debug;
use std::process::Abort;

/// Asserts that the removals at the place are of one pair, by one constraint and for the same reasons.
fn assert_same_removal(
    rt: &impl Abort,
    at: &impl Debug,
    got: &ExplainStore,
    expected: &ExplainStore,
    place: usize,
)
    requires got { place < length got.now.log }
    requires expected { place < length expected.now.log }
{
    assert_eq!(rt;
        got.pair_at(place),
        expected.pair_at(place),
        "removal {place}, {at:?}"
    );
    assert_eq!(rt;
        got.by_at(place),
        expected.by_at(place),
        "removal {place}, {at:?}"
    );
    let count = expected.reasons_at(place);
    assert_eq!(rt;
        got.reasons_at(place),
        count,
        "reasons of removal {place}, {at:?}"
    );
    for index in 0..count {
        let reason = expected.reason_at(place, index);
        assert_eq!(rt;
            got.reason_at(place, index),
            reason,
            "removal {place}, {at:?}"
        );
    }
}

/// Asserts that the logs have the same removals in the same order.
fn assert_same_log(rt: &impl Abort, at: &impl Debug, got: &ExplainStore, expected: &ExplainStore) {
    assert_eq!(rt; got.removals(), expected.removals(), "removals, {at:?}");
    for place in 0..expected.removals() {
        assert_same_removal(rt, at, got, expected, place);
    }
}

/// Asserts that the variable has the same declared values and the same present ones.
fn assert_same_values(
    rt: &impl Abort,
    at: &impl Debug,
    got: &DomainStore,
    expected: &DomainStore,
    var: Var,
)
    requires got { var < length got.now }
    requires expected { var < length expected.now }
{
    let values = expected.initial_values(var);
    assert_eq!(rt; got.initial_values(var), values, "{var:?}, {at:?}");
    for value in values {
        let value = *value;
        let present = expected.contains(Pair { var, value });
        assert_eq!(rt;
            got.contains(Pair { var, value }),
            present,
            "{var:?} {value:?}, {at:?}"
        );
    }
}

/// Asserts that all variables have the same values.
fn assert_same_domains(
    rt: &impl Abort,
    at: &impl Debug,
    got: &DomainStore,
    expected: &DomainStore,
) {
    assert_eq!(rt; got.variables(), expected.variables(), "variables, {at:?}");
    for var in 0..expected.variables() {
        assert_same_values(rt, at, got, expected, Var(var));
    }
}

/// Asserts that both engines show the same.
pub fn assert_alike<F: Filter, G: Filter>(
    rt: &impl Abort,
    at: &impl Debug,
    got: &Engine<F>,
    expected: &Engine<G>,
) {
    assert_eq!(rt; got.revisions(), expected.revisions(), "revisions, {at:?}");
    assert_eq!(rt;
        got.empty_variable(),
        expected.empty_variable(),
        "the empty variable, {at:?}"
    );
    assert_same_log(rt, at, got.log(), expected.log());
    assert_same_domains(rt, at, got.store(), expected.store());
}
