//! What a sum can be, by the kept ends of the domains.
ghost use Rattle.std.specs.Prelude.{◌≡◌, ◌<◌, ◌≤◌, ◌*ℤ◌, length, All, IfNone, IfSome};
ghost use Rattle.filter_linear.specs.Linear.{IsFilledBeside, IsProduct, IsShare, IsSpan, IsTermSpan};
ghost use Rattle.palm_domain.specs.Rows.{present_of};
ghost use Rattle.palm_model.specs.Linear.{IsFactor, term_vars};
ghost use Rattle.palm_model.specs.Domains.{values_of};

use palm_base::{Pair, Value};
use palm_domain::DomainStore;
use palm_model::{MOST_SCOPE, Term, number_of};

/// The least and the greatest number that a term or a sum can be.
#[derive(Debug, Drop)]
pub struct Span {
    pub least: i64,
    pub greatest: i64,
}

/// The coefficient times the value.
pub(crate) fn product_of(term: &Term, value: &Value) -> i64
    requires { IsFactor term.now }
    ensures product { result ≡ term.now.factor *ℤ value.now }
    ensures small { IsProduct result }
{
    i64::from(term.factor) * number_of(value)
}

impl Span {
    /// What the sum of the terms can be where the variable of the pair has its value. Nothing where another variable
    /// has no value.
    pub(crate) fn of_sum(terms: &[Term], store: &DomainStore, pair: &Pair) -> Option<Span>
        requires factors { All IsFactor terms.now }
        requires few { length terms.now ≤ MOST_SCOPE }
        requires declared { All (λ x. x < length store.now) (term_vars terms.now) }
        ensures some { IfSome result (IsSpan (present_of store.now) terms.now pair.now.var pair.now.value) }
        ensures none { IfNone result (All (IsFilledBeside (present_of store.now) pair.now.var) terms.now → ⊥) }
    {
        let mut span = Span {
            least: 0,
            greatest: 0,
        };
        for term in terms {
            let share = Span::of_share(term, store, pair)?;
            span.least += share.least;
            span.greatest += share.greatest;
        }
        Some(span)
    }

    /// What the term can be where the variable of the pair has its value. Nothing where its own variable is another one
    /// and has no value.
    fn of_share(term: &Term, store: &DomainStore, pair: &Pair) -> Option<Span>
        requires factor { IsFactor term.now }
        requires declared { term.now.var < length store.now }
        ensures some { IfSome result (IsShare (present_of store.now) pair.now.var pair.now.value term.now) }
        ensures none { IfNone result (IsFilledBeside (present_of store.now) pair.now.var term.now → ⊥) }
    {
        if term.var == pair.var {
            let product = product_of(term, &pair.value);
            return Some(Span {
                least: product,
                greatest: product,
            });
        }
        Span::of_term(term, store)
    }

    /// What the term can be. Nothing where its variable has no value.
    pub(crate) fn of_term(term: &Term, store: &DomainStore) -> Option<Span>
        requires factor { IsFactor term.now }
        requires declared { term.now.var < length store.now }
        ensures some { IfSome result (IsTermSpan (present_of store.now) term.now) }
        ensures none { IfNone result (length (values_of (present_of store.now) term.now.var) ≡ 0) }
    {
        if store.count(term.var) == 0 {
            return None;
        }
        let least = product_of(term, &store.least(term.var));
        let greatest = product_of(term, &store.greatest(term.var));
        if term.factor > 0 {
            Some(Span { least, greatest })
        } else {
            Some(Span {
                least: greatest,
                greatest: least,
            })
        }
    }
}
