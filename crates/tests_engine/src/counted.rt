//! Filters that count how often they are asked for support: one that tells the shapes and heeds of its kind, and one that tells none.
use palm_base::{NoMemory, Pair, VarList};
use palm_domain::DomainStore;
use palm_filter::{Filter, Heed, Reasons, Shape};
use palm_kind::Kind;
use std::cell::Cell;

/// A filter that counts.
#[derive(Drop)]
pub struct Counted<'a> {
    pub kind: Kind,
    pub asked: &'a Cell<u64>,
}

impl Filter for Counted<'_> {
    ghost use Rattle.palm_kind.specs.Kind.{con_of};

    ghost meaning = { λ counted. con_of counted.kind };

    fn scope(&self) -> &VarList {
        self.kind.scope()
    }

    fn shape(&self, place: usize) -> Shape {
        self.kind.shape(place)
    }

    fn heed(&self, place: usize) -> Heed {
        self.kind.heed(place)
    }

    fn supported(&self, store: &DomainStore, pair: Pair) -> bool {
        count(self.asked);
        self.kind.supported(store, pair)
    }

    fn reason(&self, store: &DomainStore, pair: Pair, out: &mut Reasons) -> Result<(), NoMemory> {
        self.kind.reason(store, pair, out)
    }
}

/// A filter that counts, and has no word on shapes and heeds of its own, as that of a caller who wrote none.
#[derive(Drop)]
pub struct Silent<'a> {
    pub kind: Kind,
    pub asked: &'a Cell<u64>,
}

impl Filter for Silent<'_> {
    ghost use Rattle.palm_kind.specs.Kind.{con_of};

    ghost meaning = { λ silent. con_of silent.kind };

    fn scope(&self) -> &VarList {
        self.kind.scope()
    }

    fn supported(&self, store: &DomainStore, pair: Pair) -> bool {
        count(self.asked);
        self.kind.supported(store, pair)
    }

    fn reason(&self, store: &DomainStore, pair: Pair, out: &mut Reasons) -> Result<(), NoMemory> {
        self.kind.reason(store, pair, out)
    }
}

/// Counts one more.
fn count(asked: &Cell<u64>) {
    asked.set(asked.get().saturating_add(1));
}
