//! The trait of filters, and the one call by which support is asked for.
ghost use Rattle.std.specs.Prelude.{◌≡◌, ◌+◌, ◌<◌, ℕ, [], length, true, false, Contains, IfOk, IfSome, OnErr, OnOk};
ghost use Rattle.palm_domain.specs.Rows.{initial_of, present_of};
ghost use Rattle.palm_model.specs.Constraint.{scope, IsWellFormed};
ghost use Rattle.palm_model.specs.Domains.{Has};
ghost use Rattle.palm_model.specs.Reason.{AreFilled, IsReason, reason};
ghost use Rattle.palm_model.specs.Support.{IsSupported, LacksSupport};
ghost use Rattle.palm_filter.specs.Heeds.{FitsHeed};
ghost use Rattle.palm_filter.specs.Rules.{FitsRule};
ghost use Rattle.palm_filter.specs.Shapes.{FitsShape};

use crate::heed::Heed;
use crate::rule::{Intervals, Known};
use crate::shape::Shape;
use palm_base::{NoMemory, Pair, Steps, VarList};
use palm_domain::DomainStore;
use smallvec::SmallVec;
use std::sync::ledger::Ledger;

/// The pairs of a reason. Up to eight stand in the list itself. One list is filled again and again, and keeps its room.
pub type Reasons = SmallVec<Pair, 8>;

/// What filters one constraint, its meaning.
pub trait Filter: Drop {
    ghost use Rattle.palm_model.specs.declared.constraint.Con.{Con};

    /// The constraint.
    ghost meaning: { Self → Con };

    /// The variables of the constraint, in the order of its text: 1 to 16 different ones.
    fn scope(&self) -> &VarList
        ensures scope { result.now ≡ scope (meaning self.now) }
        ensures formed { (variables : ℕ) × IsWellFormed variables (meaning self.now) };

    /// What is known of the support of the values of the variable at a place of the scope, whatever the domains are. A filter
    /// that says nothing of it is asked for each value.
    fn shape(&self, place: usize) -> Shape
        requires { place < length (scope (meaning self.now)) }
        ensures { FitsShape (meaning self.now) place result }
    {
        Shape::Any
    }

    /// Which losses of the variable at a place of the scope may take support from values of the other variables, whatever the
    /// domains are. A filter that says nothing of it is asked after each loss.
    fn heed(&self, place: usize) -> Heed
        requires { place < length (scope (meaning self.now)) }
        ensures { FitsHeed (meaning self.now) place result }
    {
        Heed::Each
    }

    /// Whether the value has support within the present domains, in every part of the constraint over its variable.
    fn supported(&self, store: &DomainStore, pair: Pair) -> bool
        requires formed { IsWellFormed (length store.now) (meaning self.now) }
        requires over { Contains (scope (meaning self.now)) pair.var }
        requires present { Has (present_of store.now) pair.var pair.value }
        ensures supported { result ≡ true → IsSupported (present_of store.now) (meaning self.now) pair.var pair.value }
        ensures lacking { result ≡ false → LacksSupport (present_of store.now) (meaning self.now) pair.var pair.value };

    /// A rule for the reasons of the value, and of those above it, up to the last one that it is known of, where they lack
    /// support now. Where the rule is a list, that replaces what `out` has. Without memory what `out` has means nothing. A
    /// filter that tells no rule is asked for the reason.
    fn rule(
        &self,
        store: &DomainStore,
        pair: &Pair,
        out: &mut Intervals,
    ) -> Result<Option<Known>, NoMemory>
        requires formed { IsWellFormed (length store.now) (meaning self.now) }
        requires present { Has (present_of store.now) pair.now.var pair.now.value }
        requires unsupported { LacksSupport (present_of store.now) (meaning self.now) pair.now.var pair.now.value }
        requires filled { AreFilled (present_of store.now) (scope (meaning self.now)) }
        ensures { IfOk result (λ told. IfSome told (λ known.
            FitsRule (initial_of store.now) (present_of store.now) (meaning self.now) pair.now.var pair.now.value known out.new.items)) }
    {
        Ok(None)
    }

    /// Replaces what `out` has by the removed pairs for which the value has no support. Without memory `out` is empty.
    fn reason(&self, store: &DomainStore, pair: Pair, out: &mut Reasons) -> Result<(), NoMemory>
        requires formed { IsWellFormed (length store.now) (meaning self.now) }
        requires present { Has (present_of store.now) pair.var pair.value }
        requires unsupported { LacksSupport (present_of store.now) (meaning self.now) pair.var pair.value }
        requires filled { AreFilled (present_of store.now) (scope (meaning self.now)) }
        ensures ok { OnOk result (out.new.items ≡ reason (initial_of store.now) (present_of store.now) (meaning self.now) pair.var pair.value) }
        ensures right { OnOk result (IsReason (initial_of store.now) (present_of store.now) (meaning self.now) pair.var pair.value out.new.items) }
        ensures err { OnErr result (out.new.items ≡ []) };
}

/// Whether the value has support within the present domains, in every part of the filter's constraint over its
/// variable. It counts one step.
pub fn ask<F: Filter, L: Ledger>(
    filter: &F,
    store: &DomainStore,
    pair: Pair,
    steps: &mut Steps<L>,
) -> bool
    requires formed { IsWellFormed (length store.now) (F.meaning filter.now) }
    requires over { Contains (scope (F.meaning filter.now)) pair.var }
    requires present { Has (present_of store.now) pair.var pair.value }
    ensures supported { result ≡ true → IsSupported (present_of store.now) (F.meaning filter.now) pair.var pair.value }
    ensures lacking { result ≡ false → LacksSupport (present_of store.now) (F.meaning filter.now) pair.var pair.value }
    ensures counted { steps.new ≡ steps.old + 1 }
{
    steps.tick();
    filter.supported(store, pair)
}
