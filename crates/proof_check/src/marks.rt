//! Which constraints a lemma uses: one pass over the lemmas before it, from the last to the first. A lemma names only
//! lemmas before it, so when the pass comes to a lemma it is known whether that one is reached.
ghost use Rattle.std.specs.Prelude.{◌≡◌, ◌+◌, ◌<◌, ◌≤◌, length, All, Contains, IfOk};
ghost use Rattle.palm_book.specs.declared.limits.TheConstants.{MOST_CONSTRAINTS};
ghost use Rattle.proof_check.specs.Kept.{AreBehind, IsBehind};
ghost use Rattle.proof_text.specs.declared.lemma.Lemma.{Lemma as LemmaTerm};
ghost use Rattle.proof_check.specs.Marks.{IsPassed, IsUsage, MarksMore, MarksNamed};

use palm_base::NoMemory;
use proof_text::Lemma;
use std::alloc::Global;

/// Which lemmas are reached, and which constraints are named by the lemma or one that is reached, by their numbers.
#[derive(Drop)]
pub struct Marks {
    pub lemmas: Vec<bool>,
    pub constraints: Vec<bool>,
}

/// Marks a place.
fn mark(marks: &mut [bool], place: usize)
    requires { place < length marks.old }
    ensures { MarksMore marks.old marks.new (λ n. n ≡ place) }
{
    marks[place] = true;
}

/// Marks what has these numbers.
fn mark_all(marks: &mut [bool], numbers: &[u64])
    requires { All (λ n. n < length marks.old) numbers.now }
    ensures { MarksMore marks.old marks.new (Contains numbers.now) }
{
    for number in numbers {
        mark(marks, *number as usize);
    }
}

/// Marks what the lemma's steps name.
fn mark_named(marks: &mut Marks, lemma: &Lemma)
    requires constraints { All (λ n. n < length marks.old.constraints.items) lemma.now.constraints }
    requires lemmas { All (λ n. n < length marks.old.lemmas.items) lemma.now.lemmas }
    ensures { MarksNamed marks.old marks.new lemma.now }
{
    mark_all(&mut marks.constraints, lemma.constraints.as_slice());
    mark_all(&mut marks.lemmas, lemma.lemmas.as_slice());
}

/// Marks what the lemma at a place names, where that one is reached.
fn mark_if_reached(marks: &mut Marks, lemmas: &[Lemma], place: usize)
    requires place { place < length lemmas.now }
    requires long { length marks.old.lemmas.items ≡ length lemmas.now + 1 }
    requires behind { AreBehind (length marks.old.constraints.items) lemmas.now }
    ensures constraints { length marks.new.constraints.items ≡ length marks.old.constraints.items }
    ensures lemmas { length marks.new.lemmas.items ≡ length marks.old.lemmas.items }
    ensures passed { (lemma : LemmaTerm) → IsPassed lemmas.now lemma marks.old (place + 1) → IsPassed lemmas.now lemma marks.new place }
{
    if marks.lemmas[place + 1] {
        mark_named(marks, &lemmas[place]);
    }
}

/// Marks of the constraints that the lemma uses, behind these lemmas, by their numbers. No constraint has a larger number
/// than the most.
pub fn usage(
    alloc: Global,
    most: usize,
    lemmas: &[Lemma],
    lemma: &Lemma,
) -> Result<Vec<bool>, NoMemory>
    requires most { most ≤ MOST_CONSTRAINTS }
    requires behind { AreBehind (most + 1) lemmas.now }
    requires last { IsBehind (most + 1) (length lemmas.now) lemma.now }
    ensures { IfOk result (λ marks. IsUsage lemmas.now lemma.now marks.items) }
{
    let reached = vec![in alloc; false; lemmas.len() + 1]?;
    let constraints = vec![in alloc; false; most + 1]?;
    let mut marks = Marks {
        lemmas: reached,
        constraints,
    };
    mark_named(&mut marks, lemma);
    let mut place = lemmas.len();
    while place > 0 {
        place -= 1;
        mark_if_reached(&mut marks, lemmas, place);
    }
    let Marks { constraints, .. } = marks;
    Ok(constraints)
}
