//! Steps by constraints and variables without a value, by the pairs that earlier steps proved.
ghost use Rattle.std.specs.Prelude.{◌≡◌, ◌≤◌, length, All, Contains, IfOk};
ghost use Rattle.palm_base.specs.Tells.{Tells};
ghost use Rattle.palm_book.specs.Book.{initial_of};
ghost use Rattle.palm_claim.specs.Statement.{IsStepNumber};
ghost use Rattle.palm_claim.specs.Step.{pairs_at};
ghost use Rattle.palm_listed.specs.Lists.{IsListed};
ghost use Rattle.palm_model.specs.Domains.{Has};
ghost use Rattle.text_check.specs.Steps.{ChecksStep, ChecksWiped};

use palm_base::{NoMemory, Pair, Var};
use palm_claim::Cause;
use palm_listed::Listed;
use palm_read::Name;
use std::alloc::Global;

/// The pairs that the steps with these numbers proved.
fn pairs_at(alloc: Global, proved: &[Pair], reasons: &[u32]) -> Result<Vec<Pair>, NoMemory>
    requires { All (λ k. (1 ≤ k) × (k ≤ length proved.now)) reasons.now }
    ensures { IfOk result (λ pairs. pairs.items ≡ pairs_at proved.now reasons.now) }
{
    let mut pairs = Vec::new(alloc);
    for number in reasons {
        pairs.push(proved[*number as usize - 1])?;
    }
    Ok(pairs)
}

/// Whether each number is that of a step so far.
fn are_proved(proved: &[Pair], reasons: &[u32]) -> bool
    ensures { Tells result (All (λ k. k ≤ length proved.now) reasons.now) }
{
    let steps = proved.len();
    reasons.iter().all(|number| *number as usize <= steps)
}

/// Where the constraint stands by which a step takes the declared pair out, or the step's first cause.
pub fn check_step(
    alloc: Global,
    listed: &mut Listed,
    proved: &[Pair],
    pair: &Pair,
    by: &Name,
    reasons: &[u32],
) -> Result<Result<usize, Cause>, NoMemory>
    requires listed { IsListed listed.old }
    requires declared { Has (initial_of listed.old.book) pair.now.var pair.now.value }
    requires proved { All (λ p. Has (initial_of listed.old.book) p.var p.value) proved.now }
    requires sound { All IsStepNumber reasons.now }
    ensures checks { IfOk result (ChecksStep listed.old.book proved.now pair.now by.now reasons.now) }
    ensures same { listed.new.book ≡ listed.old.book }
    ensures listed { IsListed listed.new }
{
    let Some(place) = listed.book.constraint_named(by) else {
        return Ok(Err(Cause::Misdeclared));
    };
    if !are_proved(proved, reasons) {
        return Ok(Err(Cause::Unproved));
    }
    let pairs = pairs_at(alloc, proved, reasons)?;
    if !listed.lacks_support(pair, place, &pairs) {
        return Ok(Err(Cause::NotRight));
    }
    Ok(Ok(place))
}

/// Whether the pair is one of these.
pub fn is_among(pairs: &[Pair], pair: &Pair) -> bool
    ensures { Tells result (Contains pairs.now pair.now) }
{
    pairs.iter().any(|p| p.is_same(pair))
}

/// The variable with the name, where steps proved each of its values, or the first cause of what says so.
pub fn check_wiped(listed: &mut Listed, proved: &[Pair], name: &Name) -> Result<Var, Cause>
    requires listed { IsListed listed.old }
    requires proved { All (λ p. Has (initial_of listed.old.book) p.var p.value) proved.now }
    ensures checks { ChecksWiped listed.old.book proved.now name.now result }
    ensures same { listed.new.book ≡ listed.old.book }
    ensures listed { IsListed listed.new }
{
    let Some(var) = listed.book.variable_named(name) else {
        return Err(Cause::Misdeclared);
    };
    if !listed.is_empty(var, proved) {
        return Err(Cause::NotReached);
    }
    Ok(var)
}
