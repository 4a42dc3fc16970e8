//! The least or the greatest number that a sum can be, by one kept end of each domain.
ghost use Rattle.std.specs.Prelude.{◌≡◌, ◌<◌, ◌≤◌, length, All, IfNone, IfSome};
ghost use Rattle.filter_linear.specs.Linear.{IsEnd, IsFilledBeside, IsShareEnd, IsTermEnd};
ghost use Rattle.palm_domain.specs.Rows.{present_of};
ghost use Rattle.palm_model.specs.Linear.{IsFactor, term_vars};
ghost use Rattle.palm_model.specs.Domains.{values_of};

use crate::span::product_of;
use palm_base::Pair;
use palm_domain::DomainStore;
use palm_model::{MOST_SCOPE, Term};

/// An end of what a term or a sum can be.
#[derive(Clone, Copy, Debug, PartialEq, Eq)]
pub enum End {
    Least,
    Greatest,
}

impl End {
    /// This end of what the sum of the terms can be where the variable of the pair has its value. Nothing where another
    /// variable has no value.
    #[inline(always)]
    pub(crate) fn of_sum(self, terms: &[Term], store: &DomainStore, pair: &Pair) -> Option<i64>
        requires factors { All IsFactor terms.now }
        requires few { length terms.now ≤ MOST_SCOPE }
        requires declared { All (λ x. x < length store.now) (term_vars terms.now) }
        ensures some { IfSome result (IsEnd self (present_of store.now) terms.now pair.now.var pair.now.value) }
        ensures none { IfNone result (All (IsFilledBeside (present_of store.now) pair.now.var) terms.now → ⊥) }
    {
        let mut sum = 0;
        for term in terms {
            sum += self.of_share(term, store, pair)?;
        }
        Some(sum)
    }

    /// This end of what the term can be where the variable of the pair has its value. Nothing where its own variable is
    /// another one and has no value.
    #[inline(always)]
    fn of_share(self, term: &Term, store: &DomainStore, pair: &Pair) -> Option<i64>
        requires factor { IsFactor term.now }
        requires declared { term.now.var < length store.now }
        ensures some { IfSome result (IsShareEnd self (present_of store.now) pair.now.var pair.now.value term.now) }
        ensures none { IfNone result (IsFilledBeside (present_of store.now) pair.now.var term.now → ⊥) }
    {
        if term.var == pair.var {
            return Some(product_of(term, &pair.value));
        }
        self.of_term(term, store)
    }

    /// This end of what the term can be. Nothing where its variable has no value.
    #[inline(always)]
    fn of_term(self, term: &Term, store: &DomainStore) -> Option<i64>
        requires factor { IsFactor term.now }
        requires declared { term.now.var < length store.now }
        ensures some { IfSome result (IsTermEnd self (present_of store.now) term.now) }
        ensures none { IfNone result (length (values_of (present_of store.now) term.now.var) ≡ 0) }
    {
        if store.count(term.var) == 0 {
            return None;
        }
        match self {
            End::Least => Some(least_of(term, store)),
            End::Greatest => Some(greatest_of(term, store)),
        }
    }
}

/// The least number that the term can be.
#[inline(always)]
fn least_of(term: &Term, store: &DomainStore) -> i64
    requires factor { IsFactor term.now }
    requires filled { 0 < length (values_of (present_of store.now) term.now.var) }
    ensures { IsTermEnd End.Least (present_of store.now) term.now result }
{
    if term.factor > 0 {
        product_of(term, &store.least(term.var))
    } else {
        product_of(term, &store.greatest(term.var))
    }
}

/// The greatest number that the term can be.
#[inline(always)]
fn greatest_of(term: &Term, store: &DomainStore) -> i64
    requires factor { IsFactor term.now }
    requires filled { 0 < length (values_of (present_of store.now) term.now.var) }
    ensures { IsTermEnd End.Greatest (present_of store.now) term.now result }
{
    if term.factor > 0 {
        product_of(term, &store.greatest(term.var))
    } else {
        product_of(term, &store.least(term.var))
    }
}
