//! The verdict on a text.
use palm_base::CidList;
use palm_book::Book;
use palm_claim::Cause;

/// The verdict on a text.
#[derive(Debug, Drop)]
pub enum ProofVerdict {
    /// It is a proof that these constraints of the book have no solution. All constraints are active, and numbered from 1
    /// in the order of their lines.
    Accepted { book: Book, users: CidList },
    /// It is none: the first line that has a cause, counted from 1, and its first cause.
    Refused { line: u64, cause: Cause },
}
