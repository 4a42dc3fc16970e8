//! The greatest closed domains, by a plain slow closure: take out values without support until there are none.
ghost use Rattle.std.specs.Prelude.{◌≡◌, ◌<◌, [], ◌∷◌, length, All, Contains, IfOk, OnOk, slice_set, remove};
ghost use Rattle.palm_model.specs.Constraint.{IsWellFormed};
ghost use Rattle.palm_model.specs.Domains.{AllAscend, values_of};
ghost use Rattle.palm_model.specs.Part.{scope_of};
ghost use Rattle.palm_model.specs.Closure.{IsClosedFor, IsGreatest};
ghost use Rattle.palm_model.specs.Trial.{EachSupported, IsClosedForAll, IsTriable, Narrowed, Narrows};

use crate::constraint::{ConList, DomainList};
use crate::part::Part;
use crate::parts::{all_parts, copy_lists, variables_of};
use crate::support::{is_supported, values_of};
use palm_base::{NoMemory, Value, ValueList, Var};
use std::alloc::Global;

/// The greatest closed domains of the constraints inside the initial ones, computed from nothing. It tries the
/// assignments of each part one after another, so it is slow, and meant for tests and for comparison.
pub fn scratch(
    alloc: Global,
    initial: &DomainList,
    constraints: &ConList,
) -> Result<DomainList, NoMemory>
    requires ascend { AllAscend initial.now }
    requires formed { All (IsWellFormed (length initial.now)) constraints.now }
    ensures { IfOk result (IsGreatest initial.now (Contains constraints.now)) }
{
    let parts = all_parts(alloc, constraints)?;
    let mut domains = copy_lists(alloc, initial.as_slice())?;
    let mut values = vec![in alloc; Value(0); domains.len()]?;
    close(
        alloc,
        parts.as_slice(),
        domains.as_mut_slice(),
        values.as_mut_slice(),
    )?;
    Ok(DomainList::from_vec(domains))
}

/// Takes values without support out until there are none.
fn close(
    alloc: Global,
    parts: &[Part],
    domains: &mut [ValueList],
    values: &mut [Value],
) -> Result<(), NoMemory>
    requires triable { All (IsTriable (length values.old)) parts.now }
    requires domains { length domains.old ≡ length values.old }
    ensures step { OnOk result (Narrows (IsClosedForAll parts.now) domains.old domains.new) }
    ensures closed { OnOk result (IsClosedForAll parts.now domains.new) }
{
    while sweep(alloc, parts, domains, values)? {}
    Ok(())
}

/// Takes values without support out, part by part, and answers whether there were any.
fn sweep(
    alloc: Global,
    parts: &[Part],
    domains: &mut [ValueList],
    values: &mut [Value],
) -> Result<bool, NoMemory>
    requires triable { All (IsTriable (length values.old)) parts.now }
    requires domains { length domains.old ≡ length values.old }
    ensures { let closed = IsClosedForAll parts.now in
        IfOk result (Narrowed closed closed domains.old domains.new) }
{
    let mut lost = false;
    for part in parts {
        let now = narrow(alloc, part, domains, values)?;
        lost = lost || now;
    }
    Ok(lost)
}

/// Takes out the values that have no support in the part, variable by variable, and answers whether there were any.
fn narrow(
    alloc: Global,
    part: &Part,
    domains: &mut [ValueList],
    values: &mut [Value],
) -> Result<bool, NoMemory>
    requires triable { IsTriable (length values.old) part.now }
    requires domains { length domains.old ≡ length values.old }
    ensures { let closed = IsClosedFor part.now in
        IfOk result (Narrowed closed closed domains.old domains.new) }
{
    let scope = variables_of(alloc, part)?;
    let mut lost = false;
    for var in scope.as_slice() {
        let now = narrow_variable(alloc, part, scope.as_slice(), var, domains, values)?;
        lost = lost || now;
    }
    Ok(lost)
}

/// Takes out the values of the variable that have no support in the part, and answers whether there were any.
fn narrow_variable(
    alloc: Global,
    part: &Part,
    scope: &[Var],
    var: &Var,
    domains: &mut [ValueList],
    values: &mut [Value],
) -> Result<bool, NoMemory>
    requires triable { IsTriable (length values.old) part.now }
    requires domains { length domains.old ≡ length values.old }
    requires scope { scope.now ≡ scope_of part.now }
    requires over { Contains scope.now var.now }
    ensures { let supported = EachSupported part.now (var.now ∷ []) in
        IfOk result (Narrowed (IsClosedFor part.now) supported domains.old domains.new) }
{
    let mut lost = false;
    let mut index = 0;
    while index < values_of(domains, var).len() {
        let value = values_of(domains, var)[index];
        if is_supported(part, scope, var, &value, domains, values) {
            index += 1;
        } else {
            remove_value(alloc, domains, var, index)?;
            lost = true;
        }
    }
    Ok(lost)
}

/// Takes the value at the index out of the variable's list.
fn remove_value(
    alloc: Global,
    domains: &mut [ValueList],
    var: &Var,
    index: usize,
) -> Result<(), NoMemory>
    requires declared { var.now < length domains.old }
    requires present { index < length (values_of domains.old var.now) }
    ensures { let shorter = remove (values_of domains.old var.now) index in
        OnOk result (domains.new ≡ slice_set domains.old var.now shorter) }
{
    let shorter = without_value(alloc, values_of(domains, var), index)?;
    domains[var.0 as usize] = shorter;
    Ok(())
}

/// The list without the value at the index.
fn without_value(alloc: Global, values: &[Value], index: usize) -> Result<ValueList, NoMemory>
    requires { index < length values.now }
    ensures { IfOk result (λ list. list ≡ remove values.now index) }
{
    let mut list = ValueList::from_slice(alloc, &values[..index])?;
    for value in &values[index + 1..] {
        list.push(*value)?;
    }
    Ok(list)
}
