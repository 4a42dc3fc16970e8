//! Whether a value has support in a part, by trying the values of the other variables one after another.
ghost use Rattle.std.specs.Prelude.{◌≡◌, ◌<◌, true, false, length, All, slice_set};
ghost use Rattle.palm_base.specs.Tells.{Tells};
ghost use Rattle.palm_model.specs.Domains.{Has, values_of};
ghost use Rattle.palm_model.specs.Part.{scope_of};
ghost use Rattle.palm_model.specs.Support.{HasSupport};
ghost use Rattle.palm_model.specs.Trial.{listed, ChangesOnly, IsCompleted, IsTriable};

use crate::part::Part;
use crate::satisfied::is_satisfied;
use palm_base::{Value, ValueList, Var};

/// The values of a variable.
pub(crate) fn values_of<'a>(domains: &'a [ValueList], var: &Var) -> &'a [Value]
    requires { var.now < length domains.now }
    ensures { result.now ≡ values_of domains.now var.now }
{
    domains[var.0 as usize].as_slice()
}

/// Gives the variable the value.
fn assign(values: &mut [Value], var: &Var, value: &Value)
    requires { var.now < length values.old }
    ensures set { values.new ≡ slice_set values.old var.now value.now }
    ensures len { length values.new ≡ length values.old }
{
    values[var.0 as usize] = *value;
}

/// Whether values of the domains for the open variables other than the fixed one make the assignment satisfy the
/// part. What the assignment gives to these variables is lost.
fn is_completed(
    part: &Part,
    fixed: &Var,
    open_vars: &[Var],
    domains: &[ValueList],
    values: &mut [Value],
) -> bool
    requires triable { IsTriable (length values.old) part.now }
    requires declared { All (λ x. x < length values.old) open_vars.now }
    requires domains { length domains.now ≡ length values.old }
    ensures changes { ChangesOnly open_vars.now fixed.now values.old values.new }
    ensures completed { Tells result (IsCompleted domains.now part.now fixed.now open_vars.now (listed values.old)) }
{
    let [first, rest @ ..] = open_vars else {
        return is_satisfied(part, values);
    };
    if first == fixed {
        return is_completed(part, fixed, rest, domains, values);
    }
    for value in values_of(domains, first) {
        assign(values, first, value);
        if is_completed(part, fixed, rest, domains, values) {
            return true;
        }
    }
    false
}

/// Whether a value of the variable has support in the part within the domains. The values of the scope's variables
/// are lost.
pub(crate) fn is_supported(
    part: &Part,
    scope: &[Var],
    var: &Var,
    value: &Value,
    domains: &[ValueList],
    values: &mut [Value],
) -> bool
    requires triable { IsTriable (length values.old) part.now }
    requires scope { scope.now ≡ scope_of part.now }
    requires domains { length domains.now ≡ length values.old }
    requires present { Has domains.now var.now value.now }
    ensures { Tells result (HasSupport domains.now part.now var.now value.now) }
{
    assign(values, var, value);
    is_completed(part, var, scope, domains, values)
}
