//! The domains of all variables.
ghost use Rattle.std.specs.Prelude.{◌≡◌, ℕ, ℤ, pos, ◌+ℤ◌, ◌+◌, ◌-◌, ◌^◌, ◌<◌, ◌≤◌, ◌<ℤ◌, ◌≤ℤ◌, [], ◌∷◌, ◌++◌, int_lt, length, All, Contains, IfNone, IfOk, IfSome, OnOk, OnErr, MatchOption, slice_set};
ghost use Rattle.palm_base.specs.Order.{IsPartedAt};
ghost use Rattle.palm_base.specs.Tells.{Tells};
ghost use Rattle.palm_domain.specs.Rows.{Ascends, GainsPair, IsDeclared, IsGapless, IsGreatestOf, IsLastBefore, IsLeastOf, IsNextFrom, IsNextRemovedFrom, IsPlaced, IsPresent, IsWindow, LosesPair, declared_values, initial_of, present_of, present_values, values_with, values_without};

use crate::domain::Domain;
use crate::limits::MOST_VALUES;
use crate::placed::Placed;
use palm_base::{NoMemory, Pair, Value, Var};
use std::alloc::Global;
use std::marker::Model;

/// The declared values of each variable, and those of them that are present. A variable's number is the place of
/// its row. No call walks the variables or the values, and none but `add_variable` takes memory.
#[derive(Debug, Drop)]
pub struct DomainStore {
    domains: Vec<Domain>,
}

impl Model for DomainStore {
    ghost use Rattle.std.specs.Prelude.{List};
    ghost use Rattle.palm_domain.specs.Rows.{AreFormed, Row};

    ghost Value = { List Row };

    ghost view = { λ s. s.domains.items };

    ghost invariant = { λ s. AreFormed s.domains.items };
}

impl DomainStore {
    /// A store with no variables.
    pub fn new(alloc: Global) -> DomainStore
        ensures { result ≡ [] }
    {
        DomainStore {
            domains: Vec::new(alloc),
        }
    }

    /// Appends a variable, and answers it: each of the values is declared and present. Without memory the
    /// store stays as it was.
    pub fn add_variable(&mut self, values: &[Value]) -> Result<Var, NoMemory>
        requires ascend { Ascends values.now }
        requires filled { 0 < length values.now }
        requires small { length values.now ≤ MOST_VALUES }
        requires few { length self.old < 2 ^ 32 - 1 }
        ensures ok { OnOk result
            (self.new ≡ self.old ++ record { initial = values.now; present = values.now } ∷ []) }
        ensures var { IfOk result (λ x. x ≡ length self.old) }
        ensures err { OnErr result (self.new ≡ self.old) }
    {
        let var = Var(self.domains.len() as u32);
        let domain = Domain::new(*self.domains.allocator(), values)?;
        self.domains.push(domain)?;
        Ok(var)
    }

    /// How many variables there are. What it ensures besides holds of every store.
    pub fn variables(&self) -> u32
        ensures count { result ≡ length self.now }
        ensures initial_ascend { All Ascends (initial_of self.now) }
        ensures initial_filled { All (λ values. 0 < length values) (initial_of self.now) }
        ensures initial_small { All (λ values. length values ≤ MOST_VALUES) (initial_of self.now) }
        ensures present_ascend { All Ascends (present_of self.now) }
        ensures inside { (x : ℕ) (v : ℤ) → IsPresent self.now x v → IsDeclared self.now x v }
    {
        self.domains.len() as u32
    }

    /// The declared values of the variable.
    pub fn initial_values(&self, var: Var) -> &[Value]
        requires { var < length self.now }
        ensures values { result.now ≡ declared_values self.now var }
        ensures ascend { Ascends result.now }
        ensures filled { 0 < length result.now }
        ensures small { length result.now ≤ MOST_VALUES }
        ensures inside { (v : ℤ) → IsPresent self.now var v → Contains result.now v }
    {
        self.domain(var).initial()
    }

    /// Whether the pair was declared.
    pub fn declared(&self, pair: Pair) -> bool
        requires { pair.var < length self.now }
        ensures tells { Tells result (IsDeclared self.now pair.var pair.value) }
        ensures ascend { Ascends (declared_values self.now pair.var) }
    {
        self.domain(pair.var).declared(pair.value)
    }

    /// Whether the pair is present.
    pub fn contains(&self, pair: Pair) -> bool
        requires { pair.var < length self.now }
        ensures { Tells result (IsPresent self.now pair.var pair.value) }
    {
        self.domain(pair.var).contains(pair.value)
    }

    /// A bit for each of the 64 numbers from a declared value on: one where the number is present. They are not told
    /// where the declared values leave out a number between the first and the last of them.
    #[inline(always)]
    pub fn window(&self, var: Var, first: Value) -> Option<u64>
        requires { var < length self.now }
        ensures window { IfSome result (IsWindow (present_values self.now var) first) }
        ensures none { IfNone result (IsGapless (declared_values self.now var) → IsDeclared self.now var first → ⊥) }
    {
        self.domain(var).window(first)
    }

    /// How many values the variable was declared with.
    pub fn initial_count(&self, var: Var) -> u32
        requires { var < length self.now }
        ensures { result ≡ length (declared_values self.now var) }
    {
        self.domain(var).initial_count()
    }

    /// How many of the variable's declared values are less than the number.
    pub fn declared_below(&self, var: Var, number: i64) -> usize
        requires { var < length self.now }
        ensures { IsPartedAt (λ v. int_lt v number) (declared_values self.now var) result }
    {
        self.domain(var).declared_below(number)
    }

    /// How many values of the variable are present.
    pub fn count(&self, var: Var) -> u32
        requires { var < length self.now }
        ensures { result ≡ length (present_values self.now var) }
    {
        self.domain(var).count()
    }

    /// The least present value.
    pub fn least(&self, var: Var) -> Value
        requires { 0 < length (present_values self.now var) }
        ensures { IsLeastOf (present_values self.now var) result }
    {
        self.domain(var).least()
    }

    /// The greatest present value.
    pub fn greatest(&self, var: Var) -> Value
        requires { 0 < length (present_values self.now var) }
        ensures { IsGreatestOf (present_values self.now var) result }
    {
        self.domain(var).greatest()
    }

    /// The least present value that is at least `value`.
    pub fn next_from(&self, var: Var, value: Value) -> Option<Value>
        requires { var < length self.now }
        ensures { MatchOption result
            ((w : ℤ) → IsPresent self.now var w → w <ℤ value)
            (IsNextFrom (present_values self.now var) value) }
    {
        self.domain(var).next_from(value)
    }

    /// The least present value above `value`: the next one of a walk.
    pub fn next_after(&self, var: Var, value: Value) -> Option<Value>
        requires { var < length self.now }
        ensures { MatchOption result
            ((w : ℤ) → IsPresent self.now var w → w <ℤ (value +ℤ pos 1))
            (IsNextFrom (present_values self.now var) (value +ℤ pos 1)) }
    {
        self.domain(var).next_after(value)
    }

    /// The least present value, with its place.
    pub fn first_placed(&self, var: Var) -> Placed
        requires { 0 < length (present_values self.now var) }
        ensures least { IsLeastOf (present_values self.now var) result.value }
        ensures placed { IsPlaced self.now var result }
    {
        self.domain(var).first_placed()
    }

    /// The least present value that is at least `value`, with its place.
    pub fn placed_from(&self, var: Var, value: Value) -> Option<Placed>
        requires { var < length self.now }
        ensures next { MatchOption result
            ((w : ℤ) → IsPresent self.now var w → w <ℤ value)
            (λ p. IsNextFrom (present_values self.now var) value p.value) }
        ensures placed { IfSome result (λ p. IsPlaced self.now var p) }
    {
        self.domain(var).placed_from(value)
    }

    /// The least present value above the value at a place: the next one of a walk. Nothing is looked up.
    #[inline(always)]
    pub fn next_placed(&self, var: Var, last: Placed) -> Option<Placed>
        requires var { var < length self.now }
        requires placed { IsPlaced self.now var last }
        ensures next { MatchOption result
            ((w : ℤ) → IsPresent self.now var w → w <ℤ (last.value +ℤ pos 1))
            (λ p. IsNextFrom (present_values self.now var) (last.value +ℤ pos 1) p.value) }
        ensures placed { IfSome result (λ p. IsPlaced self.now var p) }
    {
        self.domain(var).next_placed(last)
    }

    /// The greatest present value below `value`: the next one of a walk downwards.
    pub fn last_before(&self, var: Var, value: Value) -> Option<Value>
        requires { var < length self.now }
        ensures { MatchOption result
            ((w : ℤ) → IsPresent self.now var w → value ≤ℤ w)
            (IsLastBefore (present_values self.now var) value) }
    {
        self.domain(var).last_before(value)
    }

    /// The least declared value that is not present and is at least `value`.
    pub fn next_removed_from(&self, var: Var, value: Value) -> Option<Value>
        requires { var < length self.now }
        ensures { MatchOption result
            ((w : ℤ) → IsDeclared self.now var w → value ≤ℤ w → IsPresent self.now var w)
            (IsNextRemovedFrom (declared_values self.now var) (present_values self.now var) value) }
    {
        self.domain(var).next_removed_from(value)
    }

    /// The least declared value that is not present and is above `value`: the next one of a walk.
    pub fn next_removed_after(&self, var: Var, value: Value) -> Option<Value>
        requires { var < length self.now }
        ensures { MatchOption result
            ((w : ℤ) → IsDeclared self.now var w → (value +ℤ pos 1) ≤ℤ w →
            IsPresent self.now var w)
            (IsNextRemovedFrom (declared_values self.now var) (present_values self.now var)
            (value +ℤ pos 1)) }
    {
        self.domain(var).next_removed_after(value)
    }

    /// Takes a pair out that is present.
    pub fn take_out(&mut self, pair: Pair)
        requires { IsPresent self.old pair.var pair.value }
        ensures variables { length self.new ≡ length self.old }
        ensures initial { initial_of self.new ≡ initial_of self.old }
        ensures present { present_of self.new
            ≡ slice_set (present_of self.old) pair.var
            (values_without pair.value (present_values self.old pair.var)) }
        ensures fewer { length (present_values self.new pair.var) + 1
            ≡ length (present_values self.old pair.var) }
        ensures loses { LosesPair self.old self.new pair.var pair.value }
    {
        let domain = &mut self.domains[place_of_row(pair.var)];
        domain.take_out(pair.value);
    }

    /// Puts a pair back that was declared and is not present: it stands at its place in the order again.
    pub fn put_back(&mut self, pair: Pair)
        requires declared { IsDeclared self.old pair.var pair.value }
        requires removed { IsPresent self.old pair.var pair.value → ⊥ }
        ensures variables { length self.new ≡ length self.old }
        ensures initial { initial_of self.new ≡ initial_of self.old }
        ensures present { present_of self.new
            ≡ slice_set (present_of self.old) pair.var
            (values_with pair.value (present_values self.old pair.var)) }
        ensures more { length (present_values self.new pair.var)
            ≡ length (present_values self.old pair.var) + 1 }
        ensures gains { GainsPair self.old self.new pair.var pair.value }
    {
        let domain = &mut self.domains[place_of_row(pair.var)];
        domain.put_back(pair.value);
    }

    fn domain(&self, var: Var) -> &Domain
        requires { var < length self.now }
        ensures initial { declared_values self.now var ≡ result.now.initial }
        ensures present { present_values self.now var ≡ result.now.present }
    {
        &self.domains[place_of_row(var)]
    }
}

/// A variable's number is the place of its row.
fn place_of_row(var: Var) -> usize
    ensures { result ≡ var }
{
    var.0 as usize
}
