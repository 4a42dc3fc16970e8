//! The text of a generated session: so many queens on a board of as many rows and columns, of which none may attack
//! another.
ghost use Rattle.std.specs.Prelude.{◌≡◌, ◌++◌, ◌<◌, ◌≤◌, ◌+◌, ◌-◌, OnOk, IfOk, string_bytes, flat_map, map, length};
ghost use Rattle.palm_lang.specs.Reply.{ended};
ghost use Rattle.palm_session.specs.Objects.{numbered, numbered_from};
ghost use Rattle.palm_cli.specs.Generator.{queen_line, differ_line, diagonal_line, pair_lines, posing_lines, easing_lines, solve_line, generated_lines, heading};
ghost use Rattle.palm_cli.specs.declared.limits.TheConstants.{MOST_QUEENS};

use crate::limits::{MOST_QUEENS, SEARCH_BUDGET};
use palm_base::NoMemory;
use std::alloc::{AllocError, Global};

/// The lines before the first `solve` line.
pub fn posing_text(alloc: Global, size: u8) -> Result<String, NoMemory>
    requires some { 1 ≤ size }
    requires few { size ≤ MOST_QUEENS }
    ensures { IfOk result (λ text. string_bytes text ≡ flat_map ended (posing_lines size)) }
{
    let mut text = String::new(alloc);
    push_queens(&mut text, size)?;
    if size > 1 {
        push_differ(&mut text, size)?;
    }
    push_pairs(&mut text, size)?;
    Ok(text)
}

/// Appends the line of each queen.
fn push_queens(text: &mut String, size: u8) -> Result<(), AllocError>
    requires { size ≤ MOST_QUEENS }
    ensures { OnOk result (string_bytes text.new ≡ string_bytes text.old ++ flat_map ended (map (queen_line size) (numbered size))) }
{
    for queen in 1..size + 1 {
        writeln!(text, "var q{queen} 1..{size}")?;
    }
    Ok(())
}

/// Appends the line on the rows of all queens.
fn push_differ(text: &mut String, size: u8) -> Result<(), AllocError>
    requires { size ≤ MOST_QUEENS }
    ensures { OnOk result (string_bytes text.new ≡ string_bytes text.old ++ ended (differ_line size)) }
{
    text.push_str("add d : differ")?;
    for queen in 1..size + 1 {
        write!(text, " q{queen}")?;
    }
    text.push_str("\n")
}

/// Appends the lines of each two queens.
fn push_pairs(text: &mut String, size: u8) -> Result<(), AllocError>
    requires some { 1 ≤ size }
    requires few { size ≤ MOST_QUEENS }
    ensures { OnOk result (string_bytes text.new ≡ string_bytes text.old
        ++ flat_map ended (flat_map (λ i. flat_map (pair_lines i) (numbered_from (i + 1) (size - i))) (numbered (size - 1)))) }
{
    for first in 1..size {
        push_pairs_of(text, first, size)?;
    }
    Ok(())
}

/// Appends the lines of this queen and each later one.
fn push_pairs_of(text: &mut String, first: u8, size: u8) -> Result<(), AllocError>
    requires first { first < size }
    requires size { size ≤ MOST_QUEENS }
    ensures { OnOk result (string_bytes text.new ≡ string_bytes text.old
        ++ flat_map ended (flat_map (pair_lines first) (numbered_from (first + 1) (size - first)))) }
{
    for second in first + 1..size + 1 {
        push_pair(text, first, second)?;
    }
    Ok(())
}

/// Appends the two lines of two queens.
fn push_pair(text: &mut String, first: u8, second: u8) -> Result<(), AllocError>
    requires { first < second }
    ensures { OnOk result (string_bytes text.new ≡ string_bytes text.old ++ flat_map ended (pair_lines first second)) }
{
    push_diagonal(text, "u", "+", first, second)?;
    push_diagonal(text, "l", "-", first, second)
}

/// Appends the line of two queens on one kind of diagonals.
fn push_diagonal(
    text: &mut String,
    letter: &str,
    sign: &str,
    first: u8,
    second: u8,
) -> Result<(), AllocError>
    requires { first < second }
    ensures { OnOk result (string_bytes text.new ≡ string_bytes text.old ++ ended (diagonal_line letter.now sign.now first second)) }
{
    let apart = second - first;
    write!(text, "add {letter}{first}_{second}")?;
    write!(text, " : q{first} != q{second}")?;
    writeln!(text, " {sign} {apart}")
}

/// The lines between the two `solve` lines.
pub fn easing_text(alloc: Global, size: u8) -> Result<String, NoMemory>
    ensures { IfOk result (λ text. string_bytes text ≡ flat_map ended (easing_lines size)) }
{
    let lines = if size > 1 { "retract d\n" } else { "" };
    Ok(String::from_str(alloc, lines)?)
}

/// A `solve` line.
pub fn solve_text(alloc: Global) -> Result<String, NoMemory>
    ensures { IfOk result (λ text. string_bytes text ≡ ended solve_line) }
{
    Ok(format!(in alloc; "solve dbt budget {SEARCH_BUDGET}\n")?)
}

/// The first two lines of the summary.
pub fn heading_text(alloc: Global, size: u8) -> Result<String, NoMemory>
    requires some { 1 ≤ size }
    requires few { size ≤ MOST_QUEENS }
    ensures { IfOk result (λ text. string_bytes text ≡ heading size) }
{
    let lines = line_count(size);
    Ok(format!(in alloc; "queens {size}\nlines {lines}\n")?)
}

/// How many lines the session has.
fn line_count(size: u8) -> u16
    requires some { 1 ≤ size }
    requires few { size ≤ MOST_QUEENS }
    ensures { result ≡ length (generated_lines size) }
{
    let size = u16::from(size);
    if size == 1 { 3 } else { size * size + 4 }
}
