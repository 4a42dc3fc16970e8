//! Answers and journals as text: the answer, and a line for each turn behind it.
use palm_base::{Cid, NoMemory, Pair, Value, ValueList, Var};
use palm_best::Best;
use palm_dbt::Answer;
use palm_repair::RepairAnswer;
use palm_search::{Pick, Turn};
use std::alloc::Global;

/// The pair of a variable and a value.
pub fn pair(var: u32, value: i32) -> Pair {
    Pair {
        var: Var(var),
        value: Value(value),
    }
}

/// The text that has the answer in its first line, and these lines behind it.
pub fn text_of(alloc: Global, answer: &str, lines: &[&str]) -> Result<String, NoMemory> {
    let mut text = String::new(alloc);
    writeln!(text, "{answer}")?;
    for line in lines {
        writeln!(text, "{line}")?;
    }
    Ok(text)
}

/// Appends the word and the values.
fn put_values(text: &mut String, word: &str, values: &[Value]) -> Result<(), NoMemory> {
    text.push_str(word)?;
    for value in values {
        write!(text, " {}", value.0)?;
    }
    Ok(())
}

/// Appends the word and the names: of a decision its variable, of a negation its pair, of a user's constraint its number.
fn put_cids(text: &mut String, word: &str, cids: &[Cid]) -> Result<(), NoMemory> {
    text.push_str(word)?;
    for cid in cids {
        match cid {
            Cid::Decide(var) => write!(text, " x{}", var.0)?,
            Cid::Not(pair) => write!(text, " x{}!={}", pair.var.0, pair.value.0)?,
            Cid::User(number) => write!(text, " c{number}")?,
        }
    }
    Ok(())
}

/// Appends the answer of a search by mac-dbt.
pub fn put_answer(text: &mut String, answer: &Answer) -> Result<(), NoMemory> {
    match answer {
        Answer::Found(values) => put_values(text, "found", values.as_slice())?,
        Answer::NoSolution(users) => put_cids(text, "none", users.as_slice())?,
        Answer::Spent(turns) => write!(text, "spent {turns}")?,
    }
    Ok(())
}

/// Appends the answer of a repair.
pub fn put_repair_answer(text: &mut String, answer: &RepairAnswer) -> Result<(), NoMemory> {
    match answer {
        RepairAnswer::Found(values) => put_values(text, "found", values.as_slice())?,
        RepairAnswer::NoSolution(users) => put_cids(text, "none", users.as_slice())?,
        RepairAnswer::Spent { turns, dropped } => {
            write!(text, "spent {turns} dropped {dropped}")?;
        }
    }
    Ok(())
}

/// Appends the best values so far, where there are some.
fn put_so_far(text: &mut String, best: &Option<ValueList>) -> Result<(), NoMemory> {
    match best {
        Some(values) => put_values(text, " best", values.as_slice()),
        None => Ok(()),
    }
}

/// Appends the answer of a minimization.
pub fn put_best(text: &mut String, best: &Best) -> Result<(), NoMemory> {
    match best {
        Best::Least { values, users } => {
            put_values(text, "least", values.as_slice())?;
            put_cids(text, " by", users.as_slice())?;
        }
        Best::NoSolution(users) => put_cids(text, "none", users.as_slice())?,
        Best::Spent { turns, best } => {
            write!(text, "spent {turns}")?;
            put_so_far(text, best)?;
        }
    }
    Ok(())
}

/// Appends what the guide answered, where there is one.
fn put_pick(text: &mut String, pick: &Pick) -> Result<(), NoMemory> {
    match pick {
        Pick::NoGuide => {}
        Pick::Nothing => text.push_str(" after nothing")?,
        Pick::Asked(pair) => write!(text, " after x{} = {}", pair.var.0, pair.value.0)?,
    }
    Ok(())
}

/// Appends the turn.
fn put_turn(text: &mut String, turn: &Turn) -> Result<(), NoMemory> {
    match turn {
        Turn::Decide { pair, pick } => {
            write!(text, "x{} = {}", pair.var.0, pair.value.0)?;
            put_pick(text, pick)?;
        }
        Turn::Undo { gone, conflict } => {
            write!(text, "not x{} = {}", gone.var.0, gone.value.0)?;
            put_cids(text, " by", conflict.as_slice())?;
        }
    }
    text.push_str("\n")?;
    Ok(())
}

/// Ends the line, and appends the turns.
pub fn put_turns(text: &mut String, turns: &[Turn]) -> Result<(), NoMemory> {
    text.push_str("\n")?;
    for turn in turns {
        put_turn(text, turn)?;
    }
    Ok(())
}
