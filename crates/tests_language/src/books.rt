//! The readers and writers of a book.
use crate::samples::{Question, add_two, ask, name};
use palm_base::{NoMemory, Value, ValueList, Var};
use palm_lang::{Book, Name};
use std::alloc::Global;
use std::test::Fail;

/// The variable that the text names.
fn variable(alloc: Global, book: &Book, text: &str) -> Result<Option<Var>, NoMemory> {
    Ok(book.variable_named(&name(alloc, text)?))
}

/// The place of the constraint that the text names.
fn constraint(alloc: Global, book: &Book, text: &str) -> Result<Option<usize>, NoMemory> {
    Ok(book.constraint_named(&name(alloc, text)?))
}

/// The name as text.
fn text_of(alloc: Global, name: &Name) -> Result<String, NoMemory> {
    Ok(format!(in alloc; "{}", name.as_slice().escape_ascii())?)
}

/// What the names stand for.
struct Names;

impl Question for Names {
    /// The variables y and m, and the constraints m and x.
    type Answer = (Option<Var>, Option<Var>, Option<usize>, Option<usize>);

    fn answer(&self, alloc: Global, book: &mut Book) -> Result<Self::Answer, NoMemory> {
        add_two(alloc, book)?;
        let variables = (variable(alloc, book, "y")?, variable(alloc, book, "m")?);
        let constraints = (constraint(alloc, book, "m")?, constraint(alloc, book, "x")?);
        Ok((variables.0, variables.1, constraints.0, constraints.1))
    }
}

#[test]
fn names_stand_for_variables_and_constraints(rt: HostRuntime) -> Result<(), Fail> {
    let expected = (Some(Var(1)), None, Some(1), None);
    assert_eq!(rt;
        ask(rt.alloc(), &Names)?,
        expected,
        "variables y and m, constraints m and x"
    );
    Ok(())
}

/// The variables.
struct Variables;

impl Question for Variables {
    /// How many there are, and the name and the values of the second.
    type Answer = (u32, String, ValueList);

    fn answer(&self, alloc: Global, book: &mut Book) -> Result<Self::Answer, NoMemory> {
        add_two(alloc, book)?;
        let name = text_of(alloc, book.variable_name(Var(1)))?;
        Ok((book.variables(), name, book.initial(Var(1)).copy()?))
    }
}

#[test]
fn a_book_tells_its_variables(rt: HostRuntime) -> Result<(), Fail> {
    let values = ValueList::from_slice(rt.alloc(), &[Value(1), Value(2)])?;
    let expected = (2, String::from_str(rt.alloc(), "y")?, values);
    assert_eq!(rt;
        ask(rt.alloc(), &Variables)?,
        expected,
        "variables, and the second, y"
    );
    Ok(())
}

/// The constraints by their numbers.
struct Numbers;

impl Question for Numbers {
    /// How many there are, where 2 and 3 stand, and whose name 2 has.
    type Answer = (usize, Option<usize>, Option<usize>, String);

    fn answer(&self, alloc: Global, book: &mut Book) -> Result<Self::Answer, NoMemory> {
        add_two(alloc, book)?;
        let name = text_of(alloc, book.constraint_name(2))?;
        Ok((book.constraints(), book.place_of(2), book.place_of(3), name))
    }
}

#[test]
fn a_book_finds_constraints_by_number(rt: HostRuntime) -> Result<(), Fail> {
    let expected = (2, Some(1), None, String::from_str(rt.alloc(), "m")?);
    assert_eq!(rt;
        ask(rt.alloc(), &Numbers)?,
        expected,
        "constraints, and 2 and 3, and m"
    );
    Ok(())
}

/// The number of each constraint of the book, and whether it is active.
fn states(alloc: Global, book: &Book) -> Result<Vec<(u32, bool)>, NoMemory> {
    let mut states = Vec::new(alloc);
    for place in 0..book.constraints() {
        let con = book.constraint(place);
        states.push((con.number, con.active))?;
    }
    Ok(states)
}

/// What is left when the first constraint was relaxed and the second removed.
struct Changes;

impl Question for Changes {
    /// The number of each constraint, and whether it is active.
    type Answer = Vec<(u32, bool)>;

    fn answer(&self, alloc: Global, book: &mut Book) -> Result<Self::Answer, NoMemory> {
        add_two(alloc, book)?;
        book.set_active(0, false);
        book.remove(1);
        states(alloc, book)
    }
}

#[test]
fn a_constraint_is_relaxed_and_removed(rt: HostRuntime) -> Result<(), Fail> {
    assert_eq!(rt;
        ask(rt.alloc(), &Changes)?.as_slice(),
        [(1, false)].as_slice()
    );
    Ok(())
}
