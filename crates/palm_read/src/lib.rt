//! Reading the session language: tokens, the grammar of lines, their limits, and lines that were read.
#![tactic(auto)]

mod amounts;
mod interval;
pub mod laws;
mod limits;
mod line;
mod lines;
mod mode;
mod parse;
mod reader;
mod scan;
mod tokens;

pub use amounts::{beyond, is_large};
pub use interval::is_interval;
pub use limits::{
    GREATEST_NUMBER, GREATEST_TABU, GREATEST_WEIGHT, MOST_LINE_BYTES, MOST_NAME_BYTES, MOST_VALUES,
    NO_BUDGET,
};
pub use line::{DomainText, Line, Name, NameList, NameTarget, NameTerm, NameTermList, Shape};
pub use lines::{next_feed, next_line, without_return};
pub use mode::Mode;
pub use parse::{LineError, parse_line, parse_tokens};
pub use reader::cursor::Cursor;
pub use scan::token;
pub use tokens::{Token, TokenKind};
