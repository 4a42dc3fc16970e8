//! The filters of the marked constraints of a book, which an engine lends.
ghost use Rattle.std.specs.Prelude.{◌≡◌, ℕ, ◌<◌, None, Some, Contains, length, true, slice_index_or, IfOk};
ghost use Rattle.palm_kind.specs.Kind.{con_of};
ghost use Rattle.palm_model.specs.State.{user_of};
ghost use Rattle.palm_model.specs.declared.constraint.Con.{Con as ConTerm};
ghost use Rattle.palm_reduce.specs.Kept.{AreKept, CanLend, con_of_kept};
ghost use Rattle.palm_reduce.specs.Marked.{marked};

use palm_base::{NoMemory, Pair, VarList};
use palm_book::Book;
use palm_domain::DomainStore;
use palm_engine::Engine;
use palm_filter::{Filter, Heed, Intervals, Known, Reasons, Shape};
use palm_kind::Kind;
use std::alloc::Global;

/// The filters of constraints of a book, each at the place of its constraint. An engine has them.
#[derive(Debug, Drop)]
pub struct Kinds<'a> {
    kept: Vec<Option<&'a Kind>>,
}

/// A filter that an engine has on loan.
#[derive(Drop)]
pub struct Lent<'a> {
    kind: &'a Kind,
}

/// The filter that the lender has of the constraint with the number, where it is marked.
fn kind_where<'a>(lender: &'a Engine<Kind>, number: u32, marked: bool) -> Option<&'a Kind>
    ensures { marked ≡ true → (con : ConTerm) → Contains lender.now.state.active (user_of number con) → con_of_kept result ≡ Some con }
{
    if !marked {
        return None;
    }
    lender.filter(number)
}

impl<'a> Kinds<'a> {
    /// The filters of the marked constraints, which are active in the lender. Nothing is made anew.
    pub fn new(
        alloc: Global,
        book: &Book,
        marks: &[bool],
        lender: &'a Engine<Kind>,
    ) -> Result<Kinds<'a>, NoMemory>
        requires whole { length marks.now ≡ length book.now.constraints }
        requires lends { CanLend (marked book.now marks.now) lender.now.state }
        ensures { IfOk result (AreKept book.now marks.now) }
    {
        let mut kept = Vec::new(alloc);
        for place in 0..book.constraints() {
            kept.push(kind_where(lender, book.constraint(place).number, marks[place]))?;
        }
        Ok(Kinds { kept })
    }

    /// The filter at a place.
    pub(crate) fn lend(&self, place: usize) -> Lent<'a>
        requires { (con : ConTerm) × (con_of_kept (slice_index_or self.now.kept.items place None) ≡ Some con) }
        ensures { con_of_kept (slice_index_or self.now.kept.items place None) ≡ Some (con_of result.kind.now) }
    {
        match self.kept.get(place) {
            Some(&Some(kind)) => Lent { kind },
            Some(None) | None => unreachable!(),
        }
    }
}

impl Filter for Lent<'_> {
    ghost use Rattle.palm_kind.specs.Kind.{con_of};

    ghost meaning = { λ lent. con_of lent.kind.now };

    fn scope(&self) -> &VarList {
        self.kind.scope()
    }

    #[inline(always)]
    fn shape(&self, place: usize) -> Shape {
        self.kind.shape(place)
    }

    #[inline(always)]
    fn heed(&self, place: usize) -> Heed {
        self.kind.heed(place)
    }

    #[inline(always)]
    fn supported(&self, store: &DomainStore, pair: Pair) -> bool {
        self.kind.supported(store, pair)
    }

    fn rule(
        &self,
        store: &DomainStore,
        pair: &Pair,
        out: &mut Intervals,
    ) -> Result<Option<Known>, NoMemory> {
        self.kind.rule(store, pair, out)
    }

    fn reason(&self, store: &DomainStore, pair: Pair, out: &mut Reasons) -> Result<(), NoMemory> {
        self.kind.reason(store, pair, out)
    }
}
