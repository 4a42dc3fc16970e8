//! The law of the reasons: where a reason is wanted of any constraint, the stated list is one. It is the contract of a
//! public function with an empty body, and stands below the filters, which cite it.
#![tactic(auto)]

mod laws;

pub use laws::reasons_are_right;
