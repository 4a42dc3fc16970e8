//! The slow way beside the filters.
ghost use Rattle.std.specs.Prelude.{◌≡◌, IfOk, All, length};
ghost use Rattle.palm_book.specs.Book.{active_of, initial_of};
ghost use Rattle.palm_model.specs.Constraint.{IsWellFormed};
ghost use Rattle.palm_model.specs.Domains.{AllAscend};
ghost use Rattle.palm_model.specs.Log.{cons_of};

use crate::fresh::{Question, ask, bytes_of, feed};
use crate::guides::Scripted;
use palm_agenda::LastOrder;
use palm_base::{NoMemory, SteadySink, Steps, ValueList, Var};
use palm_lang::{Book, Fixed, print_domain, print_fixed};
use palm_model::{ConList, DomainList, copy_of, scratch};
use palm_session::{Session, Stop};
use std::alloc::Global;
use std::sync::ledger::Ledger;
use std::test::Fail;
use tests_compare::first_difference;

/// The initial values of each variable.
fn initial_domains(alloc: Global, book: &Book) -> Result<DomainList, NoMemory>
    ensures initial { IfOk result (λ list. list ≡ initial_of book.now) }
    ensures ascend { IfOk result AllAscend }
{
    let mut list = DomainList::new(alloc);
    for index in 0..book.variables() {
        list.push(ValueList::from_slice(alloc, book.initial(Var(index)).as_slice())?)?;
    }
    Ok(list)
}

/// The active constraints.
fn active_constraints(alloc: Global, book: &Book) -> Result<ConList, NoMemory>
    ensures active { IfOk result (λ list. list ≡ cons_of (active_of book.now)) }
    ensures formed { IfOk result (All (IsWellFormed (length book.now.variables))) }
{
    let mut list = ConList::new(alloc);
    for place in 0..book.constraints() {
        let entry = book.constraint(place);
        if entry.active {
            list.push(copy_of(alloc, &entry.con)?)?;
        }
    }
    Ok(list)
}

/// The greatest closed domains of a book, computed the slow way.
fn slow_domains(alloc: Global, book: &Book) -> Result<DomainList, NoMemory> {
    let initial = initial_domains(alloc, book)?;
    let constraints = active_constraints(alloc, book)?;
    scratch(alloc, &initial, &constraints)
}

/// Appends what `domains` is to reply of the book where these are the domains.
fn print_domains(book: &Book, domains: &DomainList, text: &mut Vec<u8>) -> Result<(), NoMemory> {
    if domains
        .as_slice()
        .iter()
        .any(|values| values.as_slice().is_empty())
    {
        return print_fixed(Fixed::Contradiction, text);
    }
    for index in 0..book.variables() {
        if let Some(values) = domains.as_slice().get(index as usize) {
            print_domain(book.variable_name(Var(index)), values.as_slice(), text)?;
        }
    }
    print_fixed(Fixed::End, text)
}

/// The replies, and then what `domains` is to reply after them.
fn expected_text(alloc: Global, replies: &[u8], book: &Book) -> Result<Vec<u8>, NoMemory> {
    let mut text = Vec::new(alloc);
    text.extend_from_slice(replies)?;
    print_domains(book, &slow_domains(alloc, book)?, &mut text)?;
    Ok(text)
}

/// A text that ends in the line `domains`, and the replies to the lines before it.
#[derive(Clone, Copy)]
struct Agreement<'a> {
    text: &'a str,
    replies: &'a str,
}

/// The replies and then what the slow way computes, and what a session replied.
#[derive(Drop)]
struct Replies {
    expected: Vec<u8>,
    got: Vec<u8>,
}

impl Question for Agreement<'_> {
    type Answer = Replies;

    fn answer<L: Ledger>(
        &self,
        alloc: Global,
        session: &mut Session<Scripted, LastOrder>,
        steps: &mut Steps<L>,
    ) -> Result<Replies, Stop> {
        let mut sink = SteadySink::new(alloc);
        feed(session, self.text.as_bytes(), &mut sink, steps)?;
        let expected = expected_text(alloc, self.replies.as_bytes(), session.book())?;
        let got = bytes_of(alloc, &sink)?;
        Ok(Replies { expected, got })
    }
}

/// These replies and then what the slow way computes, and what a fresh session replies to the text.
fn both(alloc: Global, text: &str, replies: &str) -> Result<Replies, Stop> {
    ask(alloc, Vec::new(alloc), &Agreement { text, replies })
}

/// Sessions with comparisons: a text that ends in the line `domains`, and the replies to the lines before it.
const COMPARISONS: &[(&str, &str)] = &[
    (
        "var x 1..3\nvar y 1..3\nadd a : x < y\ndomains\n",
        "ok\nok\nok\n",
    ),
    (
        "var x 1..3\nvar y 1..3\nvar z 1..3\nadd a : x < y\nadd b : y < z\nadd c : z < x\ndomains\n",
        "ok\nok\nok\nok\nok\ncontradiction\n",
    ),
    (
        "var x 1..3\nvar y {1,5}\nadd s : sum -2*x + y <= 3\nadd m : x < y\ndomains\n",
        "ok\nok\nok\nok\n",
    ),
];

#[test]
fn filters_and_the_slow_way_agree_on_comparisons(rt: HostRuntime) -> Result<(), Fail> {
    for (text, replies) in COMPARISONS {
        let Replies { expected, got } = both(rt.alloc(), text, replies)?;
        assert_eq!(rt; first_difference(&expected, &got), None, "{text}");
    }
    Ok(())
}

/// Sessions with sums.
const SUMS: &[(&str, &str)] = &[
    (
        "var u 0..1\nvar v 1..1\nadd h : sum u + v != 1\ndomains\n",
        "ok\nok\nok\n",
    ),
    (
        "var x 0..5\nvar y 0..5\nadd s : sum 3*x - 2*y = 1\ndomains\n",
        "ok\nok\nok\n",
    ),
    (
        "var x 999999..1000000\nvar y -1000000..-999999\nadd g : sum 100000*x - 100000*y >= 200000000000\ndomains\n",
        "ok\nok\nok\n",
    ),
];

#[test]
fn filters_and_the_slow_way_agree_on_sums(rt: HostRuntime) -> Result<(), Fail> {
    for (text, replies) in SUMS {
        let Replies { expected, got } = both(rt.alloc(), text, replies)?;
        assert_eq!(rt; first_difference(&expected, &got), None, "{text}");
    }
    Ok(())
}

/// Sessions with constraints of the other kinds.
const OTHERS: &[(&str, &str)] = &[
    (
        "var x 1..3\nvar y 1..3\nadd t : table x y : (1,2) (2,3) (3,9)\nadd f : x != 1\ndomains\n",
        "ok\nok\nok\nok\n",
    ),
    (
        "var x {1,5,200}\nvar y 1..4\nadd t : table x y : (1,2) (5,3) (200,4) (5,9)\nadd f : y != 3\ndomains\n",
        "ok\nok\nok\nok\n",
    ),
    (
        "var x {1,3,9}\nvar y 0..2\nadd t : table y x : (0,1) (1,3) (2,9) (1,4)\nadd f : x != 3\ndomains\n",
        "ok\nok\nok\nok\n",
    ),
    // Values 63 apart, of which bits are kept, and 64 apart, of which none are.
    (
        "var x 0..63\nvar y 0..1\nadd t : table x y : (0,1) (63,0) (63,1) (5,0)\nadd f : y != 0\ndomains\n",
        "ok\nok\nok\nok\n",
    ),
    (
        "var x 0..64\nvar y 0..1\nadd t : table x y : (0,1) (64,0) (64,1) (5,0)\nadd f : y != 0\ndomains\n",
        "ok\nok\nok\nok\n",
    ),
    // Bits that are shown from the middle of a word of marks on, into the next one.
    (
        "var x 0..90\nvar y 0..1\nadd t : table x y : (40,0) (70,1) (90,1)\nadd f : x != 90\ndomains\n",
        "ok\nok\nok\nok\n",
    ),
    (
        "var z {3,5,7}\nvar y 0..4\nadd e : element z y (5,3,5)\nadd f : z != 5\ndomains\n",
        "ok\nok\nok\nok\n",
    ),
    (
        "var a 1..2\nvar b 1..2\nvar c 1..2\nvar n 0..3\nadd p : a = 1\nadd q : c != 1\n\
         add k : count 1 a b c = n\nadd r : n = 2\ndomains\n",
        "ok\nok\nok\nok\nok\nok\nok\nok\n",
    ),
    (
        "var x 1..3\nvar y 1..3\nvar z 1..3\nadd d : differ x y z\nadd e : x = 1\ndomains\n",
        "ok\nok\nok\nok\nok\n",
    ),
    (
        "palm 2\nvar x 0..5 in 1..9\nvar y {0,2,4} in 0..3\nadd a : x < y\nrelax y\nadd b : y in {-1,2,4}\ndomains\n",
        "ok\nok\nok\nok\nok\nok\n",
    ),
];

#[test]
fn filters_and_the_slow_way_agree_on_the_other_kinds(rt: HostRuntime) -> Result<(), Fail> {
    for (text, replies) in OTHERS {
        let Replies { expected, got } = both(rt.alloc(), text, replies)?;
        assert_eq!(rt; first_difference(&expected, &got), None, "{text}");
    }
    Ok(())
}
