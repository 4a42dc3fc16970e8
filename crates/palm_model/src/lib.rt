//! What a finite-domain problem means: its constraints and their parts, support, the greatest closed domains,
//! and what explains a missing value. Everything above is proved against these definitions.
#![tactic(auto)]

mod constraint;
mod copy;
mod greatest;
mod laws;
mod limits;
mod part;
mod parts;
mod satisfied;
mod support;

pub use constraint::{Con, ConList, DomainList, Op, RowList, Target, Term, TermList};
pub use copy::copy_of;
pub use greatest::scratch;
pub use laws::limits_are_these_numbers;
pub use limits::{
    GREATEST_BOUND, GREATEST_FACTOR, GREATEST_OFFSET, GREATEST_PRODUCT, GREATEST_VALUE,
    MOST_LISTED, MOST_ROWS, MOST_SCOPE,
};
pub use part::{Part, PartList};
pub use parts::parts_of;
pub use satisfied::{number_of, stands};
