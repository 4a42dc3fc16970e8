//! Why a step takes its pair out.
use palm_base::Sequence;
use palm_read::Name;

/// Numbers of steps, counted from 1.
pub type StepList = Sequence<u32>;

/// Why a step takes its pair out.
#[derive(Debug, Drop)]
pub enum Ground {
    /// `by NAME`, with ` from K K K` where it has reasons: the constraint gives the pair no support without the pairs of
    /// these earlier steps.
    By { name: Name, reasons: StepList },
    /// `assume`: another value of the variable is assumed.
    Assumed,
    /// `lemma L`: the pair is one of the lemma, and its other pairs are assumed.
    OfLemma(u64),
}
