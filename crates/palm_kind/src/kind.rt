//! The filter of a constraint, whatever its kind.
ghost use Rattle.std.specs.Prelude.{◌≡◌, ℕ, IfOk, Contains, false, length, true};
ghost use Rattle.palm_domain.specs.Rows.{present_of};
ghost use Rattle.palm_kind.specs.Kind.{con_of};
ghost use Rattle.palm_model.specs.Constraint.{IsWellFormed, scope};
ghost use Rattle.palm_model.specs.Domains.{Has};
ghost use Rattle.palm_model.specs.Support.{IsSupported, LacksSupport};

use filter_compare::{CompareFilter, WithinFilter};
use filter_differ::DifferFilter;
use filter_element::ElementFilter;
use filter_linear::LinearFilter;
use filter_occur::OccurFilter;
use filter_table::TableFilter;
use palm_base::{NoMemory, Pair, VarList};
use palm_domain::DomainStore;
use palm_filter::{Filter, Heed, Intervals, Known, Reasons, Shape};
use palm_model::Con;
use std::alloc::Global;

/// The filter of a constraint of any kind.
#[derive(Debug, Drop)]
pub enum Kind {
    /// A variable compared with another one or with a value.
    Compare(CompareFilter),
    /// A sum of variables with coefficients.
    Linear(LinearFilter),
    /// A list of the rows that are allowed.
    Table(TableFilter),
    /// An entry of a list at a variable index.
    Element(ElementFilter),
    /// How many of some variables have a value.
    Count(OccurFilter),
    /// Variables that are pairwise different.
    Differ(DifferFilter),
    /// A variable that has one of some values.
    Within(WithinFilter),
}

impl Kind {
    /// The filter of a constraint.
    pub fn from_con(alloc: Global, con: &Con) -> Result<Kind, NoMemory>
        requires { (variables : ℕ) × IsWellFormed variables con.now }
        ensures { IfOk result (λ kind. con_of kind ≡ con.now) }
    {
        Ok(match con {
            Con::CompareVar { .. } | Con::CompareConst { .. } => {
                Kind::Compare(CompareFilter::new(alloc, con)?)
            }
            Con::Linear { .. } => Kind::Linear(LinearFilter::new(alloc, con)?),
            Con::Table { .. } => Kind::Table(TableFilter::new(alloc, con)?),
            Con::Element { .. } => Kind::Element(ElementFilter::new(alloc, con)?),
            Con::Count { .. } => Kind::Count(OccurFilter::new(alloc, con)?),
            Con::Differ { .. } => Kind::Differ(DifferFilter::new(alloc, con)?),
            Con::Within { .. } => Kind::Within(WithinFilter::new(alloc, con)?),
        })
    }
}

impl Filter for Kind {
    ghost meaning = { con_of };

    fn scope(&self) -> &VarList {
        match self {
            Kind::Compare(filter) => filter.scope(),
            Kind::Linear(filter) => filter.scope(),
            Kind::Table(filter) => filter.scope(),
            Kind::Element(filter) => filter.scope(),
            Kind::Count(filter) => filter.scope(),
            Kind::Differ(filter) => filter.scope(),
            Kind::Within(filter) => filter.scope(),
        }
    }

    fn shape(&self, place: usize) -> Shape {
        match self {
            Kind::Compare(filter) => filter.shape(place),
            Kind::Linear(filter) => filter.shape(place),
            Kind::Table(filter) => filter.shape(place),
            Kind::Element(filter) => filter.shape(place),
            Kind::Count(filter) => filter.shape(place),
            Kind::Differ(filter) => filter.shape(place),
            Kind::Within(filter) => filter.shape(place),
        }
    }

    fn heed(&self, place: usize) -> Heed {
        match self {
            Kind::Compare(filter) => filter.heed(place),
            Kind::Linear(filter) => filter.heed(place),
            Kind::Table(filter) => filter.heed(place),
            Kind::Element(filter) => filter.heed(place),
            Kind::Count(filter) => filter.heed(place),
            Kind::Differ(filter) => filter.heed(place),
            Kind::Within(filter) => filter.heed(place),
        }
    }

    fn supported(&self, store: &DomainStore, pair: Pair) -> bool {
        match self {
            Kind::Compare(filter) => filter.supported(store, pair),
            Kind::Linear(filter) => supported_apart(filter, store, pair),
            Kind::Table(filter) => supported_apart(filter, store, pair),
            Kind::Element(filter) => supported_apart(filter, store, pair),
            Kind::Count(filter) => supported_apart(filter, store, pair),
            Kind::Differ(filter) => supported_apart(filter, store, pair),
            Kind::Within(filter) => supported_apart(filter, store, pair),
        }
    }

    fn rule(
        &self,
        store: &DomainStore,
        pair: &Pair,
        out: &mut Intervals,
    ) -> Result<Option<Known>, NoMemory> {
        match self {
            Kind::Compare(filter) => filter.rule(store, pair, out),
            Kind::Linear(filter) => filter.rule(store, pair, out),
            Kind::Table(filter) => filter.rule(store, pair, out),
            Kind::Element(filter) => filter.rule(store, pair, out),
            Kind::Count(filter) => filter.rule(store, pair, out),
            Kind::Differ(filter) => filter.rule(store, pair, out),
            Kind::Within(filter) => filter.rule(store, pair, out),
        }
    }

    fn reason(&self, store: &DomainStore, pair: Pair, out: &mut Reasons) -> Result<(), NoMemory> {
        match self {
            Kind::Compare(filter) => filter.reason(store, pair, out),
            Kind::Linear(filter) => filter.reason(store, pair, out),
            Kind::Table(filter) => filter.reason(store, pair, out),
            Kind::Element(filter) => filter.reason(store, pair, out),
            Kind::Count(filter) => filter.reason(store, pair, out),
            Kind::Differ(filter) => filter.reason(store, pair, out),
            Kind::Within(filter) => filter.reason(store, pair, out),
        }
    }
}

/// Asks a filter by a call of its own. So a comparison, whose answer takes a few instructions, pays for no other kind's
/// frame.
#[inline(never)]
fn supported_apart<F: Filter>(filter: &F, store: &DomainStore, pair: Pair) -> bool
    requires formed { IsWellFormed (length store.now) (F.meaning filter.now) }
    requires over { Contains (scope (F.meaning filter.now)) pair.var }
    requires present { Has (present_of store.now) pair.var pair.value }
    ensures supported { result ≡ true → IsSupported (present_of store.now) (F.meaning filter.now) pair.var pair.value }
    ensures lacking { result ≡ false → LacksSupport (present_of store.now) (F.meaning filter.now) pair.var pair.value }
{
    filter.supported(store, pair)
}
