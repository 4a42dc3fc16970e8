//! Which removals of a log a claim needs, which numbers they have as steps, and which constraints made them.
ghost use Rattle.std.specs.Prelude.{◌≡◌, ◌<◌, ◌++◌, List, [], ◌∷◌, length, true, All, Contains, IfOk, OnOk, slice_set};
ghost use Rattle.palm_book.specs.Book.{IsUser};
ghost use Rattle.palm_cert.specs.Certificate.{claim_var, claimed};
ghost use Rattle.palm_cert.specs.Needs.{AreNeeds, AreSteps, IsNumbered, IsNumberOf, IsOfBook, cites_of, numbers_at, removals_at};
ghost use Rattle.palm_explain.specs.Explanations.{IsLinked};
ghost use Rattle.palm_explain.specs.Needed.{AreNeeded};
ghost use Rattle.palm_model.specs.Log.{Removal, log_pairs};

use palm_base::{Cid, NoMemory, Pair, Var};
use palm_explain::ExplainStore;
use palm_lang::{Book, Claim};
use std::alloc::Global;

/// What the claim of a certificate needs.
#[derive(Debug, Drop)]
pub struct Needs {
    /// The places in the log of the removals that are steps, rising: the first step has the number 1.
    pub steps: Vec<usize>,
    /// For each constraint of the book, whether it made a step.
    pub cited: Vec<bool>,
}

/// What a claim needs of the log.
pub fn needs_of(
    alloc: Global,
    book: &Book,
    log: &ExplainStore,
    claim: &Claim,
) -> Result<Needs, NoMemory>
    requires linked { IsLinked log.now.log }
    requires logged { All (IsOfBook book.now (IsUser book.now)) log.now.log }
    requires variable { claim_var claim.now < length book.now.variables }
    ensures { IfOk result (AreNeeds book.now log.now.log claim.now) }
{
    let steps = steps_of(alloc, book, log, claim)?;
    let cited = cited_by(alloc, book, log, &steps)?;
    Ok(Needs { steps, cited })
}

/// The places of the removals that the claim needs.
fn steps_of(
    alloc: Global,
    book: &Book,
    log: &ExplainStore,
    claim: &Claim,
) -> Result<Vec<usize>, NoMemory>
    requires { claim_var claim.now < length book.now.variables }
    ensures { IfOk result (λ steps. AreNeeded log.now.log (claimed book.now claim.now) steps.items) }
{
    let mut steps = Vec::new(alloc);
    match claim {
        Claim::Gone(pair) => log.needed(pair.var, &[pair.value], &mut steps)?,
        Claim::Conflict(var) => log.needed(*var, book.initial(*var).as_slice(), &mut steps)?,
    }
    Ok(steps)
}

/// Sets a mark.
fn set(marks: &mut Vec<bool>, place: usize)
    requires { place < length marks.old.items }
    ensures { marks.new.items ≡ slice_set marks.old.items place true }
{
    marks[place] = true;
}

/// For each constraint of the book, whether it made one of the removals at these places.
fn cited_by(
    alloc: Global,
    book: &Book,
    log: &ExplainStore,
    steps: &[usize],
) -> Result<Vec<bool>, NoMemory>
    requires logged { All (IsOfBook book.now (IsUser book.now)) log.now.log }
    requires within { All (λ place. place < length log.now.log) steps.now }
    ensures { IfOk result (λ cited. cited.items ≡ cites_of book.now (removals_at log.now.log steps.now)) }
{
    let mut cited = vec![in alloc; false; book.constraints()]?;
    for place in steps {
        cite(book, number_of(log.by_at(*place)), &mut cited);
    }
    Ok(cited)
}

/// Marks the constraint with the number.
fn cite(book: &Book, number: u32, cited: &mut Vec<bool>)
    requires long { length cited.old.items ≡ length book.now.constraints }
    ensures long { length cited.new.items ≡ length book.now.constraints }
    ensures cites { (rs : List Removal) (r : Removal) → cited.old.items ≡ cites_of book.now rs → r.by ≡ Cid.User number → cited.new.items ≡ cites_of book.now (rs ++ r ∷ []) }
{
    let _ = book.constraints();
    if let Some(place) = book.place_of(number) {
        set(cited, place);
    }
}

/// The number of a user's constraint.
pub fn number_of(cid: Cid) -> u32
    requires { IsNumbered cid }
    ensures { cid ≡ Cid.User result }
{
    match cid {
        Cid::User(number) => number,
        Cid::Decide(_) | Cid::Not(_) => unreachable!(),
    }
}

/// The variable that a claim is about.
pub fn claimed_var(claim: &Claim) -> Var
    ensures { result ≡ claim_var claim.now }
{
    match claim {
        Claim::Gone(pair) => pair.var,
        Claim::Conflict(var) => *var,
    }
}

/// Makes the list the numbers of the steps that proved the reasons of the one at a place, ascending. The steps are the removals at
/// these places.
pub fn collect_numbers(
    log: &ExplainStore,
    steps: &[usize],
    place: usize,
    numbers: &mut Vec<usize>,
) -> Result<(), NoMemory>
    requires steps { AreSteps log.now.log steps.now }
    requires place { place < length log.now.log }
    requires step { Contains steps.now place }
    ensures { OnOk result (numbers.new.items ≡ numbers_at steps.now log.now.log place) }
{
    numbers.clear();
    let mut pairs = Vec::new(*numbers.allocator());
    log.reasons(place, &mut pairs)?;
    for pair in pairs.as_slice() {
        numbers.push(number_at(log, steps, pair.copy()))?;
    }
    numbers.sort_unstable();
    numbers.dedup();
    Ok(())
}

/// The number of the step that proved the pair.
fn number_at(log: &ExplainStore, steps: &[usize], pair: Pair) -> usize
    requires steps { AreSteps log.now.log steps.now }
    requires proved { Contains (log_pairs (removals_at log.now.log steps.now)) pair }
    ensures { IsNumberOf (removals_at log.now.log steps.now) result pair }
{
    let Some(place) = log.place_of(pair) else {
        unreachable!();
    };
    match steps.binary_search(&place) {
        Ok(index) => index + 1,
        Err(_) => unreachable!(),
    }
}
