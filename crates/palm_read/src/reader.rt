//! How a line is read from its tokens: the parser's own parts.
pub mod checks;
mod comparison;
mod count;
pub mod cursor;
mod differ;
mod domains;
mod element;
mod linear;
mod lines;
mod lists;
mod numbers;
pub mod repeats;
mod shapes;
mod table;
mod within;
