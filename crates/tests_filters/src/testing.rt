//! What the tests of the filters share: domains without some pairs, and questions that ask for no promise.
ghost use Rattle.std.specs.Prelude.{◌≡◌, ℕ, ℤ, ◌<◌, [], length, All, Contains, IfNone, IfOk, IfSome, OnOk, false, true};
ghost use Rattle.palm_base.specs.Tells.{Tells};
ghost use Rattle.palm_domain.specs.Rows.{initial_of, present_of, IsPresent};
ghost use Rattle.palm_model.specs.Constraint.{IsWellFormed, scope};
ghost use Rattle.palm_model.specs.Domains.{Has};
ghost use Rattle.palm_model.specs.Reason.{AreFilled, reason};
ghost use Rattle.palm_model.specs.Support.{IsSupported, LacksSupport};

use palm_base::{NoMemory, Pair, Value, Var};
use palm_domain::DomainStore;
use palm_filter::{Filter, Intervals, Known, Reasons};
use std::alloc::Global;
use std::fmt::Debug;
use std::process::Abort;

/// What a test asks of a store that has no variable yet.
pub trait Question {
    /// Fills the store, and asserts that it answers as it should.
    fn assert_answer(
        &self,
        rt: &impl Abort,
        alloc: Global,
        store: &mut DomainStore,
    ) -> Result<(), NoMemory>
        requires { store.old ≡ [] };
}

/// Asserts that a fresh store answers the question as it should. It alone owns a store, since each place that gives one up costs
/// its proof.
pub fn assert_answers<Q: Question>(
    rt: &impl Abort,
    alloc: Global,
    question: &Q,
) -> Result<(), NoMemory> {
    let mut store = DomainStore::new(alloc);
    question.assert_answer(rt, alloc, &mut store)
}

/// Declares x and y with the values 1 to 3 in a fresh store.
pub fn declare_two(store: &mut DomainStore) -> Result<(), NoMemory>
    requires { store.old ≡ [] }
    ensures { OnOk result (length store.new ≡ 2) }
{
    store.add_variable(&[Value(1), Value(2), Value(3)])?;
    store.add_variable(&[Value(1), Value(2), Value(3)])?;
    Ok(())
}

/// The pair of a variable and a value.
pub fn pair(var: u32, value: i32) -> Pair
    ensures { result ≡ record { var = var; value = value } }
{
    Pair {
        var: Var(var),
        value: Value(value),
    }
}

/// Takes out those of the pairs that are present.
pub fn take_out_all(store: &mut DomainStore, pairs: &[Pair])
    ensures variables { length store.new ≡ length store.old }
    ensures gone { All (λ p. IsPresent store.new p.var p.value → ⊥) pairs.now }
{
    for pair in pairs {
        take_out_if_present(store, pair);
    }
}

fn take_out_if_present(store: &mut DomainStore, pair: &Pair)
    ensures variables { length store.new ≡ length store.old }
    ensures gone { IsPresent store.new pair.now.var pair.now.value → ⊥ }
    ensures fewer { (x : ℕ) (v : ℤ) → IsPresent store.new x v → IsPresent store.old x v }
{
    let Pair { var, value } = *pair;
    if var.0 < store.variables() && store.contains(Pair { var, value }) {
        store.take_out(Pair { var, value });
    }
}

/// Whether none of the variables has an empty domain.
fn are_filled(store: &DomainStore, vars: &[Var]) -> bool
    requires { All (λ x. x < length store.now) vars.now }
    ensures { Tells result (AreFilled (present_of store.now) vars.now) }
{
    for var in vars {
        if store.count(*var) == 0 {
            return false;
        }
    }
    true
}

/// The reason of a pair, where there is one: the value is present and has no support, and no domain of the scope is
/// empty.
pub fn reason_of<F: Filter>(
    alloc: Global,
    filter: &F,
    store: &DomainStore,
    pair: &Pair,
) -> Result<Option<Reasons>, NoMemory>
    requires formed { IsWellFormed (length store.now) (F.meaning filter.now) }
    requires over { Contains (scope (F.meaning filter.now)) pair.now.var }
    ensures exact { IfOk result (λ answer. IfSome answer (λ out. out.items ≡ reason (initial_of store.now) (present_of store.now) (F.meaning filter.now) pair.now.var pair.now.value)) }
    ensures none { IfOk result (λ answer. IfNone answer
        (Has (present_of store.now) pair.now.var pair.now.value
        → LacksSupport (present_of store.now) (F.meaning filter.now) pair.now.var pair.now.value
        → AreFilled (present_of store.now) (scope (F.meaning filter.now)) → ⊥)) }
{
    let Pair { var, value } = *pair;
    if !store.contains(Pair { var, value })
        || !are_filled(store, filter.scope().as_slice())
        || filter.supported(store, Pair { var, value })
    {
        return Ok(None);
    }
    let mut out = Reasons::new(alloc);
    filter.reason(store, Pair { var, value }, &mut out)?;
    Ok(Some(out))
}

/// The rule of a pair, with its list, where there is a reason and a rule is told.
pub fn rule_of<F: Filter>(
    alloc: Global,
    filter: &F,
    store: &DomainStore,
    pair: &Pair,
) -> Result<Option<(Known, Intervals)>, NoMemory>
    requires formed { IsWellFormed (length store.now) (F.meaning filter.now) }
    requires over { Contains (scope (F.meaning filter.now)) pair.now.var }
{
    let Pair { var, value } = *pair;
    if !store.contains(Pair { var, value })
        || !are_filled(store, filter.scope().as_slice())
        || filter.supported(store, Pair { var, value })
    {
        return Ok(None);
    }
    let mut out = Intervals::new(alloc);
    match filter.rule(store, pair, &mut out)? {
        Some(known) => Ok(Some((known, out))),
        None => Ok(None),
    }
}

/// Whether the pair is one of the constraint's variables, present and supported.
pub fn is_supported<F: Filter>(filter: &F, store: &DomainStore, asked: &Pair) -> bool
    requires { IsWellFormed (length store.now) (F.meaning filter.now) }
    ensures supported { result ≡ true → IsSupported (present_of store.now) (F.meaning filter.now) asked.now.var asked.now.value }
    ensures lacking { result ≡ false → Contains (scope (F.meaning filter.now)) asked.now.var
        → Has (present_of store.now) asked.now.var asked.now.value
        → LacksSupport (present_of store.now) (F.meaning filter.now) asked.now.var asked.now.value }
{
    let Pair { var, value } = *asked;
    filter.scope().as_slice().contains(&var)
        && var.0 < store.variables()
        && store.contains(Pair { var, value })
        && filter.supported(store, Pair { var, value })
}

/// Asserts that there is a reason why the constraint takes the pair out, and it is this list. A failed assertion names `at`.
pub fn assert_reason<F: Filter>(
    rt: &impl Abort,
    alloc: Global,
    filter: &F,
    store: &DomainStore,
    asked: &Pair,
    expected: &[Pair],
    at: &impl Debug,
) -> Result<(), NoMemory>
    requires { IsWellFormed (length store.now) (F.meaning filter.now) }
{
    let over = filter.scope().as_slice().contains(&asked.var);
    assert!(rt; over, "{asked:?} is of no variable of {at:?}");
    let got = reason_of(alloc, filter, store, asked)?;
    let expected = Some(Reasons::from_slice(alloc, expected)?);
    assert_eq!(rt; got, expected, "the reason of {asked:?} in {at:?}");
    Ok(())
}
