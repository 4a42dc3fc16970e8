//! The greatest closed domains, as the slow way finds them.
ghost use Rattle.std.specs.Prelude.{◌≡◌, [], ◌∷◌, OnOk};

use crate::calls::values_of;
use crate::cases::At;
use crate::samples::{Sample, push_cons};
use palm_base::{NoMemory, Value, ValueList};
use palm_domain::DomainStore;
use palm_model::{ConList, DomainList, scratch};
use std::alloc::Global;
use std::process::Abort;

/// Appends the values four times.
fn push_four(alloc: Global, list: &mut DomainList, values: &[Value]) -> Result<(), NoMemory>
    requires { list.old ≡ [] }
    ensures { OnOk result (list.new ≡ values.now ∷ values.now ∷ values.now ∷ values.now ∷ []) }
{
    list.push(ValueList::from_slice(alloc, values)?)?;
    list.push(ValueList::from_slice(alloc, values)?)?;
    list.push(ValueList::from_slice(alloc, values)?)?;
    list.push(ValueList::from_slice(alloc, values)?)
}

/// Asserts that the store has these domains.
fn assert_domains(
    rt: &impl Abort,
    alloc: Global,
    store: &DomainStore,
    domains: &DomainList,
    at: &At<'_>,
) -> Result<(), NoMemory> {
    let mut var = 0;
    for values in domains.as_slice() {
        let got = values_of(alloc, store, var)?;
        assert_eq!(rt; got, Some(values.copy()?), "variable {var}, {at:?}");
        var = var.saturating_add(1);
    }
    Ok(())
}

/// The domains that the slow way leaves, of lists that are filled here.
fn domains_left(
    alloc: Global,
    samples: &[Sample],
    initial: &mut DomainList,
    constraints: &mut ConList,
) -> Result<DomainList, NoMemory>
    requires initial { initial.old ≡ [] }
    requires constraints { constraints.old ≡ [] }
{
    push_four(alloc, initial, &[Value(1), Value(2), Value(3)])?;
    push_cons(alloc, constraints, samples)?;
    scratch(alloc, initial, constraints)
}

/// Asserts that the store has the domains that the slow way leaves of four times the values 1 to 3.
pub fn assert_slow_domains(
    rt: &impl Abort,
    alloc: Global,
    store: &DomainStore,
    samples: &[Sample],
    at: &At<'_>,
) -> Result<(), NoMemory> {
    let mut initial = DomainList::new(alloc);
    let mut constraints = ConList::new(alloc);
    let domains = domains_left(alloc, samples, &mut initial, &mut constraints)?;
    assert_domains(rt, alloc, store, &domains, at)
}
