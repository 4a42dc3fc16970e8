//! What is printed, one text at least for each printer of replies.
ghost use Rattle.std.specs.Prelude.{◌≡◌, ◌∷◌, [], length, IfOk};
ghost use Rattle.palm_book.specs.Book.{HasNumber};
ghost use Rattle.palm_base.specs.declared.terms.Cid.TheVariants.{User};

use crate::samples::{Question, add_two, ask, declare_two, name};
use palm_base::{Cid, CidList, NoMemory, Pair, Value, ValueList, Var};
use palm_lang::{
    Book, Fixed, Lead, Name, Refusal, print_best, print_con, print_domain, print_entry,
    print_fixed, print_found, print_leave, print_names, print_ran, print_refusal, print_removal,
    print_spent, print_spent_best, print_var,
};
use palm_model::Con;
use std::alloc::Global;
use std::test::Fail;
use tests_compare::first_difference;

/// The fixed replies, and what each is printed as.
const FIXED: &[(Fixed, &str)] = &[
    (Fixed::Done, "ok\n"),
    (Fixed::Contradiction, "contradiction\n"),
    (Fixed::Paused, "paused\n"),
    (Fixed::Present, "present\n"),
    (Fixed::Consistent, "consistent\n"),
    (Fixed::Bye, "bye\n"),
    (Fixed::End, "end\n"),
];

#[test]
fn prints_fixed_replies(rt: HostRuntime) -> Result<(), Fail> {
    for (reply, text) in FIXED {
        let mut out = Vec::new(rt.alloc());
        print_fixed(*reply, &mut out)?;
        assert_eq!(rt; first_difference(text.as_bytes(), &out), None);
    }
    Ok(())
}

/// The refusals, and what each is printed as.
const REFUSALS: &[(Refusal, &str)] = &[
    (Refusal::E1, "error E1 bytes or length\n"),
    (Refusal::E2, "error E2 no such form\n"),
    (Refusal::E3, "error E3 name taken\n"),
    (Refusal::E4, "error E4 unknown variable\n"),
    (Refusal::E5, "error E5 unknown constraint\n"),
    (Refusal::E6, "error E6 number out of range\n"),
    (Refusal::E7, "error E7 limit\n"),
    (Refusal::E8, "error E8 repeated variable\n"),
    (Refusal::E9, "error E9 empty or zero\n"),
    (Refusal::E10, "error E10 wrong state\n"),
    (Refusal::E11, "error E11 no such object\n"),
    (Refusal::E12, "error E12 value never declared\n"),
];

#[test]
fn prints_refusals(rt: HostRuntime) -> Result<(), Fail> {
    for (refusal, text) in REFUSALS {
        let mut out = Vec::new(rt.alloc());
        print_refusal(*refusal, &mut out)?;
        assert_eq!(rt; first_difference(text.as_bytes(), &out), None);
    }
    Ok(())
}

fn print_numbers(out: &mut Vec<u8>) -> Result<(), NoMemory> {
    print_ran(3, out)?;
    print_spent(10, None, out)?;
    print_spent(6, Some(1), out)
}

#[test]
fn prints_numbers(rt: HostRuntime) -> Result<(), Fail> {
    let mut out = Vec::new(rt.alloc());
    print_numbers(&mut out)?;
    let text = b"ran 3\nspent 10\nspent 6 dropped 1\n";
    assert_eq!(rt; first_difference(text, &out), None);
    Ok(())
}

fn print_domains(name: &Name, out: &mut Vec<u8>) -> Result<(), NoMemory> {
    print_domain(name, &[Value(1), Value(2)], out)?;
    print_var(name, &[Value(1), Value(2), Value(3)], out)?;
    print_var(name, &[Value(1), Value(5)], out)?;
    print_var(name, &[Value(5)], out)
}

#[test]
fn prints_domains(rt: HostRuntime) -> Result<(), Fail> {
    let x = name(rt.alloc(), "x")?;
    let mut out = Vec::new(rt.alloc());
    print_domains(&x, &mut out)?;
    let text = b"x: 1 2\nvar x 1..3\nvar x {1,5}\nvar x 5..5\n";
    assert_eq!(rt; first_difference(text, &out), None);
    Ok(())
}

/// Prints the second constraint, and a line for each of the two.
fn print_constraints(book: &Book, out: &mut Vec<u8>) -> Result<(), NoMemory>
    requires { length book.now.constraints ≡ 2 }
{
    print_con(book, &book.constraint(1).con, out)?;
    out.push(b'\n')?;
    print_entry(book, 0, out)?;
    print_entry(book, 1, out)
}

/// The constraints of a book.
struct Constraints;

impl Question for Constraints {
    type Answer = Vec<u8>;

    fn answer(&self, alloc: Global, book: &mut Book) -> Result<Vec<u8>, NoMemory> {
        add_two(alloc, book)?;
        let mut out = Vec::new(alloc);
        print_constraints(book, &mut out)?;
        Ok(out)
    }
}

#[test]
fn prints_constraints_of_a_book(rt: HostRuntime) -> Result<(), Fail> {
    let text = b"x < y\n1 active s : sum -2*x + y <= 3\n2 relaxed m : x < y\n";
    let got = ask(rt.alloc(), &Constraints)?;
    assert_eq!(rt; first_difference(text, &got), None);
    Ok(())
}

/// Prints that the first variable has one of the values.
fn print_within(
    alloc: Global,
    book: &Book,
    values: &[Value],
    out: &mut Vec<u8>,
) -> Result<(), NoMemory>
    requires { length book.now.variables ≡ 2 }
{
    let within = Con::Within {
        var: Var(0),
        values: ValueList::from_slice(alloc, values)?,
    };
    print_con(book, &within, out)?;
    out.push(b'\n')?;
    Ok(())
}

/// That a variable has one of some values, all from the first to the last or not.
struct Withins;

impl Question for Withins {
    type Answer = Vec<u8>;

    fn answer(&self, alloc: Global, book: &mut Book) -> Result<Vec<u8>, NoMemory> {
        declare_two(alloc, book)?;
        let mut out = Vec::new(alloc);
        print_within(alloc, book, &[Value(-1), Value(0), Value(1)], &mut out)?;
        print_within(alloc, book, &[Value(1), Value(3)], &mut out)?;
        Ok(out)
    }
}

#[test]
fn prints_a_domain_in_a_constraint(rt: HostRuntime) -> Result<(), Fail> {
    let text = b"x in -1..1\nx in {1,3}\n";
    let got = ask(rt.alloc(), &Withins)?;
    assert_eq!(rt; first_difference(text, &got), None);
    Ok(())
}

fn pair(var: u32, value: i32) -> Pair
    ensures { result ≡ record { var = var; value = value } }
{
    Pair {
        var: Var(var),
        value: Value(value),
    }
}

/// Prints a removal that has no reasons, and one that has two.
fn print_removals(book: &Book, out: &mut Vec<u8>) -> Result<(), NoMemory>
    requires variables { length book.now.variables ≡ 2 }
    requires constraint { HasNumber book.now 2 }
{
    print_removal(book, pair(0, 2), 2, &[], out)?;
    print_removal(book, pair(1, 3), 2, &[pair(0, 2), pair(1, -1)], out)
}

/// Removals by the second constraint.
struct Removals;

impl Question for Removals {
    type Answer = Vec<u8>;

    fn answer(&self, alloc: Global, book: &mut Book) -> Result<Vec<u8>, NoMemory> {
        add_two(alloc, book)?;
        let mut out = Vec::new(alloc);
        print_removals(book, &mut out)?;
        Ok(out)
    }
}

#[test]
fn prints_removals(rt: HostRuntime) -> Result<(), Fail> {
    let text = b"x 2 by m\ny 3 by m from x 2, y -1\n";
    let got = ask(rt.alloc(), &Removals)?;
    assert_eq!(rt; first_difference(text, &got), None);
    Ok(())
}

fn two_users(alloc: Global) -> Result<CidList, NoMemory>
    ensures { IfOk result (λ users. users ≡ User 1 ∷ User 2 ∷ []) }
{
    CidList::from_slice(alloc, &[Cid::User(1), Cid::User(2)])
}

fn one_user(alloc: Global) -> Result<CidList, NoMemory>
    ensures { IfOk result (λ users. users ≡ User 2 ∷ []) }
{
    CidList::from_slice(alloc, &[Cid::User(2)])
}

/// Prints both names behind each text that leads names.
fn print_each_lead(alloc: Global, book: &Book, out: &mut Vec<u8>) -> Result<(), NoMemory>
    requires first { HasNumber book.now 1 }
    requires second { HasNumber book.now 2 }
{
    let users = two_users(alloc)?;
    print_names(book, Lead::Because, &users, out)?;
    print_names(book, Lead::Conflict, &users, out)?;
    print_names(book, Lead::NoSolution, &users, out)?;
    print_names(book, Lead::Proved, &users, out)?;
    print_names(book, Lead::Proved, &CidList::new(alloc), out)?;
    print_names(book, Lead::HardConflict, &users, out)?;
    print_names(book, Lead::Keep, &users, out)?;
    print_names(book, Lead::Keep, &CidList::new(alloc), out)
}

/// The names of the two constraints.
struct Names;

impl Question for Names {
    type Answer = Vec<u8>;

    fn answer(&self, alloc: Global, book: &mut Book) -> Result<Vec<u8>, NoMemory> {
        add_two(alloc, book)?;
        let mut out = Vec::new(alloc);
        print_each_lead(alloc, book, &mut out)?;
        Ok(out)
    }
}

#[test]
fn prints_names(rt: HostRuntime) -> Result<(), Fail> {
    let text =
        b"because s m\nconflict s m\nnone s m\nproved by s m\nproved by\nhard conflict s m\nkeep s m\nkeep\n";
    let got = ask(rt.alloc(), &Names)?;
    assert_eq!(rt; first_difference(text, &got), None);
    Ok(())
}

/// Prints that each of the two constraints is left out: the first with both, and the second alone.
fn print_leaves(alloc: Global, book: &Book, out: &mut Vec<u8>) -> Result<(), NoMemory>
    requires first { HasNumber book.now 1 }
    requires second { HasNumber book.now 2 }
{
    print_leave(book, 1, &two_users(alloc)?, out)?;
    print_leave(book, 2, &one_user(alloc)?, out)
}

/// The two constraints left out.
struct Leaves;

impl Question for Leaves {
    type Answer = Vec<u8>;

    fn answer(&self, alloc: Global, book: &mut Book) -> Result<Vec<u8>, NoMemory> {
        add_two(alloc, book)?;
        let mut out = Vec::new(alloc);
        print_leaves(alloc, book, &mut out)?;
        Ok(out)
    }
}

#[test]
fn prints_what_is_left_out(rt: HostRuntime) -> Result<(), Fail> {
    let text = b"leave s conflict s m\nleave m conflict m\n";
    let got = ask(rt.alloc(), &Leaves)?;
    assert_eq!(rt; first_difference(text, &got), None);
    Ok(())
}

/// Prints a solution of no variable, and one of x and y.
fn print_solutions(alloc: Global, book: &mut Book, out: &mut Vec<u8>) -> Result<(), NoMemory>
    requires { book.old ≡ record { variables = []; constraints = [] } }
{
    print_found(book, &ValueList::new(alloc), out)?;
    declare_two(alloc, book)?;
    let values = ValueList::from_slice(alloc, &[Value(1), Value(2)])?;
    print_found(book, &values, out)
}

/// Solutions before and after the two variables are declared.
struct Solutions;

impl Question for Solutions {
    type Answer = Vec<u8>;

    fn answer(&self, alloc: Global, book: &mut Book) -> Result<Vec<u8>, NoMemory> {
        let mut out = Vec::new(alloc);
        print_solutions(alloc, book, &mut out)?;
        Ok(out)
    }
}

#[test]
fn prints_solutions(rt: HostRuntime) -> Result<(), Fail> {
    let text = b"found\nfound x=1 y=2\n";
    let got = ask(rt.alloc(), &Solutions)?;
    assert_eq!(rt; first_difference(text, &got), None);
    Ok(())
}

/// Prints the best solution and how far a search came with it, of no variable and of x and y.
fn print_bests(alloc: Global, book: &mut Book, out: &mut Vec<u8>) -> Result<(), NoMemory>
    requires { book.old ≡ record { variables = []; constraints = [] } }
{
    let none = ValueList::new(alloc);
    print_best(book, &none, out)?;
    print_spent_best(book, 1, &none, out)?;
    declare_two(alloc, book)?;
    let values = ValueList::from_slice(alloc, &[Value(-1), Value(2)])?;
    print_best(book, &values, out)?;
    print_spent_best(book, u64::MAX, &values, out)
}

/// Best solutions before and after the two variables are declared.
struct Bests;

impl Question for Bests {
    type Answer = Vec<u8>;

    fn answer(&self, alloc: Global, book: &mut Book) -> Result<Vec<u8>, NoMemory> {
        let mut out = Vec::new(alloc);
        print_bests(alloc, book, &mut out)?;
        Ok(out)
    }
}

#[test]
fn prints_best_solutions(rt: HostRuntime) -> Result<(), Fail> {
    let text = b"best\nspent 1 best\nbest x=-1 y=2\nspent 18446744073709551615 best x=-1 y=2\n";
    let got = ask(rt.alloc(), &Bests)?;
    assert_eq!(rt; first_difference(text, &got), None);
    Ok(())
}
