//! The session language: every text that is printed, and the writing of lines. What reads it, the book of a session and
//! what a certificate claims stand below and are passed on.
#![tactic(auto)]

mod print;
mod reply;
mod stop;
mod writer;

pub use palm_book::{
    Book, BookCon, MOST_ADDED, MOST_CONSTRAINTS, MOST_CONSTRAINTS_IN_ONE, MOST_VARIABLES,
    MOST_VARIABLES_IN_ONE, Unresolved, most_constraints, most_variables, values_in,
};
pub use palm_claim::Claim;
pub use palm_read::{
    DomainText, Line, LineError, MOST_VALUES, Mode, Name, NameList, NameTarget, NameTerm,
    NameTermList, Shape, Token, TokenKind, beyond, next_feed, parse_line, token, without_return,
};
pub use print::{
    print_best, print_con, print_domain, print_entry, print_fixed, print_found, print_leave,
    print_line, print_names, print_ran, print_refusal, print_removal, print_spent,
    print_spent_best, print_var, put_spaced_int, put_spaced_name, put_spaced_value, put_text,
};
pub use reply::{Fixed, Lead, Refusal};
pub use stop::WriteStop;
pub use writer::{Writer, write_text};
