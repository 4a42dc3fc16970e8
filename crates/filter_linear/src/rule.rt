//! The sum that is filtered, and the side on which it fails.
ghost use Rattle.std.specs.Prelude.{◌≡◌, ℕ, Contains, length, int_lt, if◌then◌else◌};
ghost use Rattle.filter_linear.specs.Linear.{CanBeMet, IsMetAt, IsMetWithin, linear_of};
ghost use Rattle.filter_linear.specs.declared.reasons.Side.TheVariants.{Below, Above};
ghost use Rattle.palm_base.specs.Tells.{Tells};
ghost use Rattle.palm_domain.specs.Rows.{present_of};
ghost use Rattle.palm_filter.specs.Heeds.{IsHeeded};
ghost use Rattle.palm_model.specs.Constraint.{IsWellFormed};
ghost use Rattle.palm_model.specs.Linear.{term_vars, least_total};
ghost use Rattle.palm_model.specs.Reason.{AreFilled};

use crate::end::End;
use crate::reasons::Side;
use crate::span::Span;
use palm_base::Pair;
use palm_domain::DomainStore;
use palm_filter::Heed;
use palm_model::{Op, Term, TermList, stands};

/// The sum of the terms stands in the relation to the bound.
#[derive(Debug, Drop)]
pub struct LinearRule {
    pub terms: TermList,
    pub op: Op,
    pub bound: i64,
}

impl LinearRule {
    /// Whether every other variable than that of the pair has a value, and the sum can stand in the relation to the
    /// bound where that has its own.
    pub(crate) fn is_met(&self, store: &DomainStore, pair: &Pair) -> bool
        requires { IsWellFormed (length store.now) (linear_of self.now) }
        ensures { Tells result (CanBeMet (present_of store.now) self.now pair.now.var pair.now.value) }
    {
        match self.op {
            Op::Eq => self.is_met_between_ends(store, pair),
            Op::Ne => self.is_met_between_ends(store, pair),
            Op::Lt => self.is_met_at(End::Least, store, pair),
            Op::Le => self.is_met_at(End::Least, store, pair),
            Op::Gt => self.is_met_at(End::Greatest, store, pair),
            Op::Ge => self.is_met_at(End::Greatest, store, pair),
        }
    }

    /// The same, by both ends of what the sum can be.
    fn is_met_between_ends(&self, store: &DomainStore, pair: &Pair) -> bool
        requires { IsWellFormed (length store.now) (linear_of self.now) }
        ensures { Tells result (CanBeMet (present_of store.now) self.now pair.now.var pair.now.value) }
    {
        match Span::of_sum(self.terms.as_slice(), store, pair) {
            Some(span) => self.is_met_within(&span),
            None => false,
        }
    }

    /// The same, by the one end of what the sum can be that the relation looks at.
    #[inline(always)]
    fn is_met_at(&self, end: End, store: &DomainStore, pair: &Pair) -> bool
        requires formed { IsWellFormed (length store.now) (linear_of self.now) }
        requires one { IsMetAt self.now.op end }
        ensures { Tells result (CanBeMet (present_of store.now) self.now pair.now.var pair.now.value) }
    {
        match end.of_sum(self.terms.as_slice(), store, pair) {
            Some(sum) => stands(self.op, sum, self.bound),
            None => false,
        }
    }

    /// Whether a sum within the span can stand in the relation to the bound.
    fn is_met_within(&self, span: &Span) -> bool
        ensures { Tells result (IsMetWithin self.now.op self.now.bound span.now) }
    {
        match self.op {
            Op::Eq => span.least <= self.bound && self.bound <= span.greatest,
            Op::Ne => span.least != self.bound || span.greatest != self.bound,
            Op::Lt => span.least < self.bound,
            Op::Le => span.least <= self.bound,
            Op::Gt => self.bound < span.greatest,
            Op::Ge => self.bound <= span.greatest,
        }
    }

    /// Where values are missing for which the sum cannot be equal to the bound: below the present ones where even the
    /// least sum is above the bound, else above them.
    pub(crate) fn missing_side(&self, store: &DomainStore, pair: &Pair) -> Side
        requires formed { IsWellFormed (length store.now) (linear_of self.now) }
        requires filled { AreFilled (present_of store.now) (term_vars self.now.terms) }
        ensures { result ≡ (if int_lt self.now.bound (least_total (present_of store.now) self.now.terms pair.now.var pair.now.value) then Below else Above) }
    {
        match Span::of_sum(self.terms.as_slice(), store, pair) {
            Some(span) => {
                if self.bound < span.least {
                    Side::Below
                } else {
                    Side::Above
                }
            }
            None => unreachable!(),
        }
    }

    /// Which losses of the term's variable may take support from values of the other variables: where the sum is to be low
    /// those at the end of its values that has the low products, where it is to be high those at the other end.
    pub(crate) fn heed(&self, term: &Term) -> Heed
        requires formed { (variables : ℕ) × IsWellFormed variables (linear_of self.now) }
        requires own { Contains self.now.terms term.now }
        ensures { IsHeeded (linear_of self.now) term.now.var result }
    {
        match self.op {
            Op::Eq => Heed::Ends,
            Op::Ne => Heed::Alone,
            Op::Lt | Op::Le if term.factor > 0 => Heed::Least,
            Op::Lt | Op::Le => Heed::Greatest,
            Op::Gt | Op::Ge if term.factor > 0 => Heed::Greatest,
            Op::Gt | Op::Ge => Heed::Least,
        }
    }
}
