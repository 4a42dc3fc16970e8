//! The constraints of a book that are marked: their users, and whether these are their names.
ghost use Rattle.std.specs.Prelude.{◌≡◌, Some, map, slice_get, All, IfOk};
ghost use Rattle.palm_base.specs.Tells.{Tells};
ghost use Rattle.palm_book.specs.Book.{HasConstraint};
ghost use Rattle.proof_check.specs.Marks.{is_marked, marked_in};
ghost use Rattle.proof_text.specs.Draft.{users_of};

use palm_base::{Cid, CidList, NoMemory};
use palm_book::Book;
use palm_read::Name;
use std::alloc::Global;

/// Whether each of the names is that of a constraint.
pub fn are_listed(book: &Book, names: &[Name]) -> bool
    ensures { Tells result (All (HasConstraint book.now) names.now) }
{
    for name in names {
        if !book.has_constraint(name) {
            return false;
        }
    }
    true
}

/// Whether the number is marked.
fn is_marked(marks: &[bool], number: u32) -> bool
    ensures { result ≡ is_marked marks.now number }
{
    match marks.get(number as usize) {
        Some(mark) => *mark,
        None => false,
    }
}

/// The users of the constraints whose numbers are marked.
pub fn marked_users(alloc: Global, book: &Book, marks: &[bool]) -> Result<CidList, NoMemory>
    ensures { IfOk result (λ users. users ≡ users_of (marked_in marks.now book.now.constraints)) }
{
    let mut users = CidList::new(alloc);
    for place in 0..book.constraints() {
        let number = book.constraint(place).number;
        if is_marked(marks, number) {
            users.push(Cid::User(number))?;
        }
    }
    Ok(users)
}

/// Whether the name stands at a place of these.
fn is_at(names: &[Name], place: usize, name: &Name) -> bool
    ensures { Tells result (slice_get names.now place ≡ Some name.now) }
{
    if place >= names.len() {
        return false;
    }
    names[place] == *name
}

/// Whether these are the names of the constraints whose numbers are marked, in their order.
pub fn are_names(book: &Book, marks: &[bool], names: &[Name]) -> bool
    ensures { Tells result (names.now ≡ map (λ c. c.name) (marked_in marks.now book.now.constraints)) }
{
    let mut matched = 0;
    for place in 0..book.constraints() {
        let constraint = book.constraint(place);
        if is_marked(marks, constraint.number) {
            if !is_at(names, matched, &constraint.name) {
                return false;
            }
            matched += 1;
        }
    }
    matched == names.len()
}
