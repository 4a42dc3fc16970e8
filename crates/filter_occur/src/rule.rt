//! The number of some variables that have a value, and the target that it is compared with.
ghost use Rattle.std.specs.Prelude.{◌≡◌, ◌++◌, ◌<◌, ◌≤◌, ℕ, [], ◌∷◌, length, flat_map, if◌then◌else◌, All, Contains, IfNone, IfSome, MatchOption, OnOk};
ghost use Rattle.filter_occur.specs.Count.{AreCounts, AreCountsTo, CanReach, IsChance, IsCountReached, IsEnough, count_of, target_values, values_where};
ghost use Rattle.palm_base.specs.Tells.{Tells};
ghost use Rattle.palm_domain.specs.Rows.{initial_of, present_of};
ghost use Rattle.palm_filter.specs.Heeds.{IsHeeded};
ghost use Rattle.palm_filter.specs.Shapes.{IsShaped};
ghost use Rattle.palm_model.specs.Constraint.{Distinct};
ghost use Rattle.palm_model.specs.Count.{target_scope, count_reason, counted_pairs, high_pairs, low_pairs, needs_high, needs_low, target_pairs};
ghost use Rattle.palm_model.specs.Domains.{values_of};
ghost use Rattle.palm_model.specs.Reason.{AreFilled};
ghost use Rattle.palm_model.specs.Removed.{others};

use crate::counts::{Counts, enough_between, enough_for};
use palm_base::{NoMemory, Pair, Value, Var, VarList};
use palm_domain::DomainStore;
use palm_filter::{Heed, Reasons, Shape, is_alone, is_missing, push_removed};
use palm_model::{MOST_SCOPE, Op, Target};

/// The number of the variables that have the value stands in the relation to the target.
#[derive(Debug, Drop)]
pub struct CountRule {
    pub value: Value,
    pub vars: VarList,
    pub op: Op,
    pub target: Target,
}

/// What a variable tells of the counted value without a search for it: that it has it alone, that it lacks it, or that
/// it has several values.
#[derive(Debug, Drop)]
pub enum Chance {
    Certain,
    Impossible,
    Open,
}

impl Chance {
    /// The chance of the counted value where a variable has one value alone.
    fn of_one(only: &Value, counted: &Value) -> Chance
        ensures { IsChance (only.now ∷ []) counted.now result }
    {
        if *only == *counted {
            Chance::Certain
        } else {
            Chance::Impossible
        }
    }
}

/// Whether a number can be too high because variables have no other value.
fn needs_low(op: Op) -> bool
    ensures { result ≡ needs_low op }
{
    matches!(op, Op::Eq | Op::Ne | Op::Lt | Op::Le)
}

/// Whether a number can be too low because variables lack the value.
fn needs_high(op: Op) -> bool
    ensures { result ≡ needs_high op }
{
    matches!(op, Op::Eq | Op::Ne | Op::Gt | Op::Ge)
}

impl CountRule {
    /// Whether the number can stand in the relation to the target where the variable of the pair has its value.
    pub(crate) fn is_reachable(&self, store: &DomainStore, pair: &Pair) -> bool
        requires declared { All (λ y. y < length store.now) self.now.vars }
        requires target { All (λ y. y < length store.now) (target_scope self.now.target) }
        requires few { length self.now.vars ≤ MOST_SCOPE }
        ensures { Tells result (CanReach (present_of store.now) pair.now.var pair.now.value self.now) }
    {
        match self.counts_to(store, pair, self.enough(store, pair)) {
            Some(counts) => self.is_count_reached(&counts, store, pair),
            None => false,
        }
    }

    /// The high number that is enough for the relation to the target, where the variable of the pair has its value.
    fn enough(&self, store: &DomainStore, pair: &Pair) -> i64
        requires { All (λ y. y < length store.now) (target_scope self.now.target) }
        ensures { IsEnough self.now.op (target_values (present_of store.now) pair.now.var pair.now.value self.now.target) result }
    {
        match &self.target {
            Target::Const(number) => enough_between(self.op, number, number),
            Target::Variable(target) => {
                if *target == pair.var {
                    enough_between(self.op, &pair.value, &pair.value)
                } else {
                    enough_for(self.op, store, *target)
                }
            }
        }
    }

    /// Whether one of the numbers stands in the relation to a value that the target may have.
    fn is_count_reached(&self, counts: &Counts, store: &DomainStore, pair: &Pair) -> bool
        requires target { All (λ y. y < length store.now) (target_scope self.now.target) }
        requires ordered { counts.now.low ≤ counts.now.high }
        requires small { counts.now.high ≤ MOST_SCOPE }
        ensures { Tells result (IsCountReached counts.now self.now.op (target_values (present_of store.now) pair.now.var pair.now.value self.now.target)) }
    {
        match &self.target {
            Target::Const(number) => counts.fits(self.op, number),
            Target::Variable(target) => {
                if *target == pair.var {
                    counts.fits(self.op, &pair.value)
                } else {
                    counts.fits_some(self.op, store, *target)
                }
            }
        }
    }

    /// How many of the variables have the value, where the variable of the pair has its value. There is no number
    /// where another variable has an empty domain.
    fn counts(&self, store: &DomainStore, pair: &Pair) -> Option<Counts>
        requires declared { All (λ y. y < length store.now) self.now.vars }
        requires few { length self.now.vars ≤ MOST_SCOPE }
        ensures counts { IfSome result (AreCounts (present_of store.now) pair.now.var pair.now.value self.now) }
        ensures empty { IfNone result (All (λ y. 0 < length (values_where (present_of store.now) pair.now.var pair.now.value y)) self.now.vars → ⊥) }
    {
        self.counts_to(store, pair, i64::MAX)
    }

    /// The counts, where the high one is raised by variables with several values only until it is enough.
    #[inline(always)]
    fn counts_to(&self, store: &DomainStore, pair: &Pair, enough: i64) -> Option<Counts>
        requires declared { All (λ y. y < length store.now) self.now.vars }
        requires few { length self.now.vars ≤ MOST_SCOPE }
        ensures counts { IfSome result (AreCountsTo (present_of store.now) pair.now.var pair.now.value self.now enough) }
        ensures empty { IfNone result (All (λ y. 0 < length (values_where (present_of store.now) pair.now.var pair.now.value y)) self.now.vars → ⊥) }
    {
        let mut low = 0;
        let mut high = 0;
        for var in self.vars.as_slice() {
            match self.chance(store, *var, pair)? {
                Chance::Certain => {
                    low += 1;
                    high += 1;
                }
                Chance::Impossible => {}
                Chance::Open => {
                    if i64::from(high) < enough && self.is_possible(store, *var) {
                        high += 1;
                    }
                }
            }
        }
        Some(Counts { low, high })
    }

    /// What the variable tells of the counted value, where the variable of the pair has its value. There is no answer
    /// where the domain is empty.
    fn chance(&self, store: &DomainStore, var: Var, pair: &Pair) -> Option<Chance>
        requires { var < length store.now }
        ensures { MatchOption result
            (length (values_where (present_of store.now) pair.now.var pair.now.value var) ≡ 0)
            (IsChance (values_where (present_of store.now) pair.now.var pair.now.value var) self.now.value) }
    {
        if var == pair.var {
            return Some(Chance::of_one(&pair.value, &self.value));
        }
        let count = store.count(var);
        if count > 1 {
            Some(Chance::Open)
        } else if count == 1 {
            Some(Chance::of_one(&store.least(var), &self.value))
        } else {
            None
        }
    }

    /// What is known of the support of the target: those of a one-sided count lie together.
    pub(crate) fn target_shape(&self) -> Shape
        requires { Distinct (self.now.vars ++ target_scope self.now.target) }
        ensures { (x : ℕ) → Contains (target_scope self.now.target) x → IsShaped (count_of self.now) x result }
    {
        match self.op {
            Op::Eq | Op::Ne => Shape::Any,
            Op::Lt | Op::Le | Op::Gt | Op::Ge => Shape::Convex,
        }
    }

    /// Which losses of the target may take support from values of the counted variables: of a one-sided count those at the
    /// end of its values that the relation looks at.
    pub(crate) fn target_heed(&self) -> Heed
        requires { Distinct (self.now.vars ++ target_scope self.now.target) }
        ensures { (x : ℕ) → Contains (target_scope self.now.target) x → IsHeeded (count_of self.now) x result }
    {
        match self.op {
            Op::Eq => Heed::Each,
            Op::Ne => Heed::Alone,
            Op::Lt | Op::Le => Heed::Greatest,
            Op::Gt | Op::Ge => Heed::Least,
        }
    }

    /// Whether the variable has the counted value.
    fn is_possible(&self, store: &DomainStore, var: Var) -> bool
        requires { var < length store.now }
        ensures { Tells result (Contains (values_of (present_of store.now) var) self.now.value) }
    {
        store.contains(Pair {
            var,
            value: self.value,
        })
    }
}

impl CountRule {
    /// Appends the reason of the pair: what keeps the number of the other variables too low or too high, and the
    /// declared values of the target that would fit.
    pub(crate) fn push_reason(
        &self,
        store: &DomainStore,
        pair: &Pair,
        out: &mut Reasons,
    ) -> Result<(), NoMemory>
        requires declared { All (λ y. y < length store.now) self.now.vars }
        requires target { All (λ y. y < length store.now) (target_scope self.now.target) }
        requires distinct { Distinct (self.now.vars ++ target_scope self.now.target) }
        requires few { length self.now.vars ≤ MOST_SCOPE }
        requires over { Contains (self.now.vars ++ target_scope self.now.target) pair.now.var }
        requires filled { AreFilled (present_of store.now) self.now.vars }
        ensures { OnOk result (out.new.items ≡ out.old.items ++ count_reason (initial_of store.now) (present_of store.now) self.now.value self.now.vars self.now.op self.now.target pair.now.var pair.now.value) }
    {
        self.push_others(store, pair.var, out)?;
        self.push_targets(store, pair, out)
    }

    /// Appends the low and the high pairs of the variables but one, as the relation needs them.
    fn push_others(
        &self,
        store: &DomainStore,
        except: Var,
        out: &mut Reasons,
    ) -> Result<(), NoMemory>
        requires { All (λ y. y < length store.now) self.now.vars }
        ensures { OnOk result (out.new.items ≡ out.old.items ++ flat_map (counted_pairs (initial_of store.now) (present_of store.now) self.now.value self.now.op) (others self.now.vars except)) }
    {
        for var in self.vars.as_slice() {
            if *var != except {
                self.push_low(store, *var, out)?;
                self.push_high(store, *var, out)?;
            }
        }
        Ok(())
    }

    /// Appends all removed pairs of the variable, where the relation needs them and it has the counted value alone.
    fn push_low(&self, store: &DomainStore, var: Var, out: &mut Reasons) -> Result<(), NoMemory>
        requires { var < length store.now }
        ensures { OnOk result (out.new.items ≡ out.old.items ++ (if needs_low self.now.op then low_pairs (initial_of store.now) (present_of store.now) self.now.value var else [])) }
    {
        let counted = Pair {
            var,
            value: self.value,
        };
        if needs_low(self.op) && is_alone(store, &counted) {
            push_removed(store, var, out)?;
        }
        Ok(())
    }

    /// Appends the counted value of the variable, where the relation needs it and it is declared and removed.
    fn push_high(&self, store: &DomainStore, var: Var, out: &mut Reasons) -> Result<(), NoMemory>
        requires { var < length store.now }
        ensures { OnOk result (out.new.items ≡ out.old.items ++ (if needs_high self.now.op then high_pairs (initial_of store.now) (present_of store.now) self.now.value var else [])) }
    {
        let counted = Pair {
            var,
            value: self.value,
        };
        if needs_high(self.op) && is_removed(store, &counted) {
            out.push(counted)?;
        }
        Ok(())
    }

    /// Appends the declared values of the target that would fit, where the target is another variable.
    fn push_targets(
        &self,
        store: &DomainStore,
        pair: &Pair,
        out: &mut Reasons,
    ) -> Result<(), NoMemory>
        requires declared { All (λ y. y < length store.now) self.now.vars }
        requires target { All (λ y. y < length store.now) (target_scope self.now.target) }
        requires distinct { Distinct (self.now.vars ++ target_scope self.now.target) }
        requires few { length self.now.vars ≤ MOST_SCOPE }
        requires over { Contains (self.now.vars ++ target_scope self.now.target) pair.now.var }
        requires filled { AreFilled (present_of store.now) self.now.vars }
        ensures { OnOk result (out.new.items ≡ out.old.items ++ target_pairs (initial_of store.now) (present_of store.now) self.now.value self.now.vars self.now.op self.now.target pair.now.var pair.now.value) }
    {
        match &self.target {
            Target::Const(_) => Ok(()),
            Target::Variable(target) => {
                if *target == pair.var {
                    return Ok(());
                }
                match self.counts(store, pair) {
                    Some(counts) => counts.push_fitting(self.op, store, *target, out),
                    None => unreachable!(),
                }
            }
        }
    }
}

/// Whether the pair is declared and not present.
fn is_removed(store: &DomainStore, pair: &Pair) -> bool
    requires { pair.now.var < length store.now }
    ensures { high_pairs (initial_of store.now) (present_of store.now) pair.now.value pair.now.var ≡ (if result then (pair.now ∷ []) else []) }
{
    store.declared(Pair {
        var: pair.var,
        value: pair.value,
    }) && is_missing(store, pair.var, &pair.value)
}
