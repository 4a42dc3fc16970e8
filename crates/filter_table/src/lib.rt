//! The filter of a table: the values of the variables are one of the rows.
#![tactic(auto)]

mod beside;
mod indexed;
mod listing;
mod ordered;
mod row;
mod table;

pub use table::TableFilter;
