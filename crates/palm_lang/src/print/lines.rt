//! Lines at the end of what was written.
#![tactic(auto, using(crate::proofs::PrintLemmas::keeping))]

ghost use Rattle.std.specs.Prelude.{◌≡◌, [], ◌∷◌, codes, decimal};
ghost use Rattle.std.specs.Fmt.{signed_decimal};
ghost use Rattle.palm_read.specs.declared.line.Line.TheVariants.{SolveDbt, SolveRepair, Minimize, Prefer, PreferNone};
ghost use Rattle.palm_lang.specs.Print.{Puts, bare_words};
ghost use Rattle.palm_read.specs.Domain.{domain_text};
ghost use Rattle.palm_read.specs.Text.{shape_words, text_of};
ghost use Rattle.palm_read.specs.Words.{spaced};

use crate::print::domains::put_domain;
use crate::print::shapes::put_shape;
use crate::print::words::{put_name, put_spaced_int, put_spaced_name, put_spaced_value, put_text};
use palm_base::{NoMemory, Value};
use palm_read::{DomainText, Line, NO_BUDGET, Name, Shape};

/// `var NAME DOMAIN`
fn put_declaration(name: &Name, domain: &DomainText, out: &mut Vec<u8>) -> Result<(), NoMemory>
    ensures { Puts out.old.items out.new.items (spaced (codes "var" ∷ name.now ∷ domain_text domain.now ∷ [])) result }
{
    put_text("var", out)?;
    put_spaced_name(name, out)?;
    put_text(" ", out)?;
    put_domain(domain, out)
}

/// `var NAME DOMAIN in DOMAIN`
fn put_declaration_in(
    name: &Name,
    universe: &DomainText,
    domain: &DomainText,
    out: &mut Vec<u8>,
) -> Result<(), NoMemory>
    ensures { Puts out.old.items out.new.items (spaced (codes "var" ∷ name.now ∷ domain_text universe.now ∷ codes "in" ∷ domain_text domain.now ∷ [])) result }
{
    put_declaration(name, universe, out)?;
    put_text(" in ", out)?;
    put_domain(domain, out)
}

/// `add NAME : CONSTRAINT`
fn put_addition(name: &Name, shape: &Shape, out: &mut Vec<u8>) -> Result<(), NoMemory>
    ensures { Puts out.old.items out.new.items (spaced (codes "add" ∷ name.now ∷ codes ":" ∷ shape_words shape.now)) result }
{
    put_text("add", out)?;
    put_spaced_name(name, out)?;
    put_text(" : ", out)?;
    put_shape(shape, out)
}

/// A word with a name.
fn put_named(word: &str, name: &Name, out: &mut Vec<u8>) -> Result<(), NoMemory>
    ensures { Puts out.old.items out.new.items (spaced (word.now ∷ name.now ∷ [])) result }
{
    put_text(word, out)?;
    put_spaced_name(name, out)
}

/// A word with a name and a value.
fn put_query(word: &str, name: &Name, value: &Value, out: &mut Vec<u8>) -> Result<(), NoMemory>
    ensures { Puts out.old.items out.new.items (spaced (word.now ∷ name.now ∷ signed_decimal value.now ∷ [])) result }
{
    put_text(word, out)?;
    put_spaced_name(name, out)?;
    put_spaced_value(value, out)
}

/// Words with a number.
fn put_numbered(words: &str, number: u64, out: &mut Vec<u8>) -> Result<(), NoMemory>
    ensures { Puts out.old.items out.new.items (spaced (words.now ∷ decimal number ∷ [])) result }
{
    put_text(words, out)?;
    put_spaced_int(i128::from(number), out)
}

/// `solve dbt`, with `budget N` where there is a limit
fn put_solve_dbt(budget: u64, out: &mut Vec<u8>) -> Result<(), NoMemory>
    ensures { Puts out.old.items out.new.items (text_of (SolveDbt budget)) result }
{
    put_text("solve dbt", out)?;
    if budget == NO_BUDGET {
        return Ok(());
    }
    put_numbered(" budget", budget, out)
}

/// `solve repair tabu N budget N`
fn put_solve_repair(tabu: u32, budget: u64, out: &mut Vec<u8>) -> Result<(), NoMemory>
    ensures { Puts out.old.items out.new.items (text_of (SolveRepair tabu budget)) result }
{
    put_numbered("solve repair tabu", u64::from(tabu), out)?;
    put_numbered(" budget", budget, out)
}

/// `minimize NAME budget N`
fn put_minimize(target: &Name, budget: u64, out: &mut Vec<u8>) -> Result<(), NoMemory>
    ensures { Puts out.old.items out.new.items (text_of (Minimize target.now budget)) result }
{
    put_named("minimize", target, out)?;
    put_numbered(" budget", budget, out)
}

/// `prefer NAME N`
fn put_prefer(name: &Name, weight: u32, out: &mut Vec<u8>) -> Result<(), NoMemory>
    ensures { Puts out.old.items out.new.items (text_of (Prefer name.now weight)) result }
{
    put_named("prefer", name, out)?;
    put_spaced_int(i128::from(weight), out)
}

/// `prefer NAME none`
fn put_prefer_none(name: &Name, out: &mut Vec<u8>) -> Result<(), NoMemory>
    ensures { Puts out.old.items out.new.items (text_of (PreferNone name.now)) result }
{
    put_named("prefer", name, out)?;
    put_text(" none", out)
}

/// The words of a line that is always printed alike, and none of another line.
fn bare_words(line: &Line) -> &'static str
    ensures { result.now ≡ bare_words line.now }
{
    match line {
        Line::Header => "palm 2",
        Line::Domains => "domains",
        Line::List => "list",
        Line::Log => "log",
        Line::Conflict => "conflict",
        Line::MinimalConflict => "minimal conflict",
        Line::Pause => "pause",
        Line::Resume => "resume",
        Line::Preferred => "preferred",
        Line::CertConflict => "cert conflict",
        Line::GuideNone => "guide none",
        Line::OrderNone => "order none",
        Line::Quit => "quit",
        _ => "",
    }
}

/// A line without a line feed.
pub(crate) fn put_line(line: &Line, out: &mut Vec<u8>) -> Result<(), NoMemory>
    ensures { Puts out.old.items out.new.items (text_of line.now) result }
{
    match line {
        Line::Var { name, domain } => put_declaration(name, domain, out),
        Line::VarIn {
            name,
            universe,
            domain,
        } => put_declaration_in(name, universe, domain, out),
        Line::Add { name, shape } => put_addition(name, shape, out),
        Line::Relax(name) => put_named("relax", name, out),
        Line::Enforce(name) => put_named("enforce", name, out),
        Line::Retract(name) => put_named("retract", name, out),
        Line::Prefer { name, weight } => put_prefer(name, *weight, out),
        Line::PreferNone(name) => put_prefer_none(name, out),
        Line::Domain(name) => put_named("domain", name, out),
        Line::Why { name, value } => put_query("why", name, value, out),
        Line::Minimal { name, value } => put_query("minimal", name, value, out),
        Line::Cert { name, value } => put_query("cert", name, value, out),
        Line::Step(number) => put_numbered("step", *number, out),
        Line::SolveDbt { budget } => put_solve_dbt(*budget, out),
        Line::SolveRepair { tabu, budget } => put_solve_repair(*tabu, *budget, out),
        Line::Prove { budget } => put_numbered("prove budget", *budget, out),
        Line::Minimize { target, budget } => put_minimize(target, *budget, out),
        Line::Guide(number) => put_numbered("guide", u64::from(*number), out),
        Line::Order(number) => put_numbered("order", u64::from(*number), out),
        Line::DropGuide(number) => put_numbered("drop guide", u64::from(*number), out),
        Line::DropOrder(number) => put_numbered("drop order", u64::from(*number), out),
        _ => put_text(bare_words(line), out),
    }
}
