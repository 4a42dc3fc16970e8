//! The values of domains that were read.
ghost use Rattle.std.specs.Prelude.{◌≡◌, ◌≤ℤ◌, ◌-ℤ◌, ◌+◌, pos, IfOk};
ghost use Rattle.palm_book.specs.Book.{AreValues};
ghost use Rattle.palm_read.specs.Domain.{IsLarge, IsSoundDomain, count_in, from_on, values_in};
ghost use Rattle.palm_read.specs.declared.limits.TheConstants.{MOST_VALUES};

use palm_base::{NoMemory, Value, ValueList};
use palm_read::DomainText;
use std::alloc::Global;

/// The values of a domain, ascending.
pub fn values_in(alloc: Global, domain: DomainText) -> Result<ValueList, NoMemory>
    requires sound { IsSoundDomain domain }
    requires small { IsLarge domain → ⊥ }
    ensures values { IfOk result (λ values. values ≡ values_in domain) }
    ensures fit { IfOk result AreValues }
{
    written_out(alloc, domain)
}

/// The values of a domain that is not large; of an empty interval, its first number.
pub(crate) fn written_out(alloc: Global, domain: DomainText) -> Result<ValueList, NoMemory>
    requires { IsLarge domain → ⊥ }
    ensures { IfOk result (λ values. values ≡ values_in domain) }
{
    match domain {
        DomainText::Range { low, high } => interval(alloc, low, high),
        DomainText::Set(values) => Ok(values),
    }
}

/// All values from `low` to `high`, and `low` at least.
fn interval(alloc: Global, low: Value, high: Value) -> Result<ValueList, NoMemory>
    requires { (pos MOST_VALUES ≤ℤ (high -ℤ low)) → ⊥ }
    ensures { IfOk result (λ values. values ≡ from_on low (count_in (high -ℤ low) + 1)) }
{
    let mut values = ValueList::new(alloc);
    values.push(low)?;
    for value in low.0..high.0 {
        values.push(Value(value + 1))?;
    }
    Ok(values)
}
