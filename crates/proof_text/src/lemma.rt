//! What is kept of a lemma.
use palm_base::{Pair, Sequence};

/// Pairs of variables and values.
pub type PairList = Sequence<Pair>;

/// Numbers of listed constraints or of lemmas, counted from 1.
pub type NumberList = Sequence<u64>;

/// Lemmas, in the order of their lines.
pub type LemmaList = Sequence<Lemma>;

/// A lemma: pairs that no solution has together, and what its steps name.
#[derive(Debug, Drop)]
pub struct Lemma {
    /// The pairs that are assumed.
    pub pairs: PairList,
    /// The numbers of the constraints that its steps name, step by step.
    pub constraints: NumberList,
    /// The numbers of the lemmas that its steps name, step by step.
    pub lemmas: NumberList,
}
