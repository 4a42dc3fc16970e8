//! Variables and constraints as lines of a text: `var x 1..4` and `add a : x < y + 1`.
ghost use Rattle.std.specs.Prelude.{◌≡◌, ◌<◌, length, true, IfOk, IfSome};
ghost use Rattle.palm_book.specs.Book.{HasVariable};
ghost use Rattle.palm_book.specs.declared.limits.TheConstants.{MOST_VARIABLES};
ghost use Rattle.palm_model.specs.Constraint.{IsWellFormed};
ghost use Rattle.palm_model.specs.declared.limits.TheConstants.{MOST_SCOPE};
ghost use Rattle.palm_read.specs.Limits.{HasManyRows, IsBeyond, Repeats, names_of};
ghost use Rattle.palm_read.specs.Sound.{IsSound, IsSoundShape};

use palm_base::NoMemory;
use palm_book::{Book, MOST_VARIABLES, Unresolved};
use palm_model::Con;
use palm_read::{Line, LineError, Mode, Name, Shape, beyond, parse_line};
use std::alloc::Global;

/// The line, unless it is beyond the limits.
fn within(line: Line) -> Option<Line>
    requires { IsSound line }
    ensures sound { IfSome result IsSound }
    ensures within { IfSome result (λ line. IsBeyond line → ⊥) }
{
    if beyond(&line) { None } else { Some(line) }
}

/// The line that the text says, where it says one within the limits.
pub fn line_of(alloc: Global, text: &str) -> Result<Option<Line>, NoMemory>
    ensures sound { IfOk result (λ found. IfSome found IsSound) }
    ensures within { IfOk result (λ found. IfSome found (λ line. IsBeyond line → ⊥)) }
{
    match parse_line(alloc, text.as_bytes(), Mode::Two) {
        Ok(line) => Ok(within(line)),
        Err(LineError::NoMemory) => Err(NoMemory),
        Err(_) => Ok(None),
    }
}

/// Whether the book has room for a variable of the name.
pub fn has_room(book: &Book, name: &Name) -> bool
    ensures fresh { result ≡ true → HasVariable book.now name.now → ⊥ }
    ensures room { result ≡ true → length book.now.variables < MOST_VARIABLES }
{
    !book.has_variable(name) && (book.variables() as usize) < MOST_VARIABLES
}

/// The constraint that the shape says of the variables of the book, where it says one.
pub fn con_of(alloc: Global, book: &Book, shape: Shape) -> Result<Option<Con>, NoMemory>
    requires once { Repeats (names_of shape) → ⊥ }
    requires sound { IsSoundShape shape }
    requires narrow { MOST_SCOPE < length (names_of shape) → ⊥ }
    requires few { HasManyRows shape → ⊥ }
    ensures { IfOk result (λ found. IfSome found (IsWellFormed (length book.now.variables))) }
{
    match book.resolve(alloc, shape) {
        Ok(con) => Ok(Some(con)),
        Err(Unresolved::NoMemory) => Err(NoMemory),
        Err(_) => Ok(None),
    }
}
