//! Guides and orders that are handed in: numbers that choose and drop them, and what is asked and told.
ghost use Rattle.palm_base.specs.Memory.{sink_state};

use crate::outcomes::{Outcome, accepted, no_guides, no_orders, run_with, words_of};
use crate::stock::outcome_with_two_orders;
use palm_agenda::Order;
use palm_base::{ByteList, Cid, Failed, NoMemory, Pair, Sink, SteadySink, SteadySource, Var};
use palm_cli::{Status, top};
use palm_guide::{FirstGuide, Guide, ViewRow};
use std::alloc::Global;
use std::cell::Cell;
use std::test::Fail;
use tests_compare::first_difference;

#[test]
fn numbers_without_an_object(rt: HostRuntime) -> Result<(), Fail> {
    let text = b"guide 1\norder 3\ndrop guide 9\ndrop order 4\nguide 0\norder 1000001\n\
        guide none\norder none\npause\nguide 1\norder none\n";
    let replies = b"error E11 no such object\nerror E11 no such object\nerror E11 no such object\n\
        error E11 no such object\nerror E6 number out of range\nerror E6 number out of range\n\
        ok\nok\nok\nerror E11 no such object\nok\n";
    let outcome = outcome_with_two_orders(rt.alloc(), text, no_guides(rt.alloc()))?;
    assert_eq!(rt; outcome.status, Status::Done);
    assert_eq!(rt; first_difference(replies, &outcome.output), None);
    Ok(())
}

/// One guide.
fn one_guide(alloc: Global) -> Result<Vec<FirstGuide>, NoMemory> {
    let mut guides = Vec::new(alloc);
    guides.push(FirstGuide::new())?;
    Ok(guides)
}

#[test]
fn a_dropped_object_is_gone(rt: HostRuntime) -> Result<(), Fail> {
    let text = b"guide 1\norder 2\ndrop guide 1\nguide 1\ndrop guide 1\n\
        drop order 2\norder 2\norder 1\ndrop order 1\ndrop order 1\n";
    let replies = b"ok\nok\nok\nerror E11 no such object\nerror E11 no such object\n\
        ok\nerror E11 no such object\nok\nok\nerror E11 no such object\n";
    let guides = one_guide(rt.alloc())?;
    let outcome = outcome_with_two_orders(rt.alloc(), text, guides)?;
    assert_eq!(rt; outcome.status, Status::Done);
    assert_eq!(rt; first_difference(replies, &outcome.output), None);
    Ok(())
}

/// A session in which three constraints wait, and some lines about orders come before they are filtered.
fn waiting(alloc: Global, lines: &str) -> Result<Vec<u8>, NoMemory> {
    let mut text = Vec::new(alloc);
    text.extend_from_slice(
        b"var x 1..3\nvar y 1..3\npause\nadd c : x != 2\nadd a : x = y\nadd d : y != 2\n",
    )?;
    text.extend_from_slice(lines.as_bytes())?;
    text.extend_from_slice(b"resume\nlog\ndomains\n")?;
    Ok(text)
}

/// The end of its log, and the domains, which no order changes.
const END: &str = "end\nx: 1 3\ny: 1 3\nend\n";

/// Its replies: `ok` so often, the log, and the domains.
fn filtered(alloc: Global, count: usize, log: &str) -> Result<String, NoMemory> {
    let mut replies = accepted(alloc, count, log)?;
    replies.push_str(END)?;
    Ok(replies)
}

/// The log without an order, and with the order of the last one.
const PLAIN: &str = "x 2 by c\ny 2 by a from x 2\n";

const LAST: &str = "y 2 by d\nx 2 by a from y 2\n";

/// Lines about orders, how many lines are accepted with them, and the log.
const ORDERS: &[(&str, usize, &str)] = &[
    ("", 7, PLAIN),
    ("order 1\n", 8, LAST),
    ("order 1\norder none\n", 9, PLAIN),
    ("order 1\ndrop order 1\n", 9, PLAIN),
    ("order 1\ndrop order 2\n", 9, LAST),
];

#[test]
fn an_order_changes_the_log_and_not_the_domains(rt: HostRuntime) -> Result<(), Fail> {
    for (lines, count, log) in ORDERS {
        let text = waiting(rt.alloc(), lines)?;
        let outcome = outcome_with_two_orders(rt.alloc(), &text, no_guides(rt.alloc()))?;
        let wanted = filtered(rt.alloc(), *count, log)?;
        assert_eq!(rt; outcome.status, Status::Done, "{lines}");
        assert_eq!(rt;
            first_difference(wanted.as_bytes(), &outcome.output),
            None,
            "{lines}"
        );
    }
    Ok(())
}

/// Answers 1 until it is told of a revision, and 0 from then on.
#[derive(Drop)]
struct SecondOnce {
    index: usize,
}

impl Order for SecondOnce {
    ghost use Rattle.std.specs.Prelude.{◌≡◌, [], ◌∷◌};

    ghost state = { λ order. order.index ∷ [] };

    ghost answers = { λ order pending index after. (index ≡ order.index) × (after ≡ order.index ∷ []) };

    ghost hears = { λ order cid removed after. after ≡ 0 ∷ [] };

    fn next(&mut self, _pending: &[Cid]) -> usize {
        self.index
    }

    fn ran(&mut self, _cid: Cid, _removed: u32) {
        self.index = 0;
    }
}

/// Answers an index that no list has.
#[derive(Drop)]
struct Beyond;

impl Order for Beyond {
    ghost use Rattle.std.specs.Prelude.{◌≡◌, []};

    ghost state = { λ order. [] };

    ghost answers = { λ order pending index after. after ≡ [] };

    ghost hears = { λ order cid removed after. after ≡ [] };

    fn next(&mut self, _pending: &[Cid]) -> usize {
        usize::MAX
    }

    fn ran(&mut self, _cid: Cid, _removed: u32) {}
}

/// How such a session ends where this order was handed in and is chosen.
fn outcome_by_order<O: Order>(alloc: Global, order: O) -> Result<Outcome, NoMemory> {
    let text = waiting(alloc, "order 1\n")?;
    let mut orders = Vec::new(alloc);
    orders.push(order)?;
    run_with(alloc, &text, no_guides(alloc), orders)
}

#[test]
fn an_order_is_told_what_ran(rt: HostRuntime) -> Result<(), Fail> {
    let outcome = outcome_by_order(rt.alloc(), SecondOnce { index: 1 })?;
    let wanted = filtered(rt.alloc(), 8, PLAIN)?;
    assert_eq!(rt; outcome.status, Status::Done);
    assert_eq!(rt; first_difference(wanted.as_bytes(), &outcome.output), None);
    Ok(())
}

#[test]
fn an_index_that_no_list_has_counts_for_nothing(rt: HostRuntime) -> Result<(), Fail> {
    let outcome = outcome_by_order(rt.alloc(), Beyond)?;
    let wanted = filtered(rt.alloc(), 8, PLAIN)?;
    assert_eq!(rt; outcome.status, Status::Done);
    assert_eq!(rt; first_difference(wanted.as_bytes(), &outcome.output), None);
    Ok(())
}

/// A guide that counts how many of its kind were dropped.
struct Counted<'a> {
    dropped: &'a Cell<usize>,
}

impl Drop for Counted<'_> {
    fn drop(self) {
        let Self { dropped } = self;
        dropped.set(dropped.get().saturating_add(1));
    }
}

impl Guide for Counted<'_> {
    ghost use Rattle.std.specs.Prelude.{◌≡◌, [], None};

    ghost state = { λ guide. [] };

    ghost answers = { λ guide view answer after. (answer ≡ None) × (after ≡ []) };

    ghost hears = { λ guide conflict after. after ≡ [] };

    fn pick(&mut self, _view: &[ViewRow]) -> Option<Pair> {
        None
    }

    fn learned(&mut self, _conflict: &[Var]) {}
}

/// A sink that looks, at each write, how many were dropped.
#[derive(Drop)]
struct Looking<'a> {
    inner: SteadySink,
    dropped: &'a Cell<usize>,
    seen: [usize; 4],
    writes: usize,
}

impl<'a> Sink for Looking<'a> {
    ghost state = { λ s. sink_state s.inner 0 };

    fn write(&mut self, piece: &[u8]) -> Result<usize, Failed> {
        if self.writes < 4 {
            self.seen[self.writes] = self.dropped.get();
        }
        self.writes = self.writes.saturating_add(1);
        self.inner.write(piece)
    }
}

#[test]
fn an_object_is_dropped_at_its_line(rt: HostRuntime) -> Result<(), Fail> {
    let words = words_of(rt.alloc(), &["run"])?;
    let bytes = ByteList::from_slice(rt.alloc(), b"guide 2\ndrop guide 2\nguide 1\nguide 2\n")?;
    let dropped = Cell::new(0);
    let mut guides = Vec::new(rt.alloc());
    guides.push(Counted { dropped: &dropped })?;
    guides.push(Counted { dropped: &dropped })?;
    let mut sink = Looking {
        inner: SteadySink::new(rt.alloc()),
        dropped: &dropped,
        seen: [9; 4],
        writes: 0,
    };
    let mut source = SteadySource::new(bytes, 64);
    let orders = no_orders(rt.alloc());
    let status = top(rt.alloc(), &words, &mut source, &mut sink, guides, orders);
    assert_eq!(rt; status, Status::Done);
    let [first, _, third, fourth] = sink.seen;
    assert_eq!(rt; first, 0);
    assert_eq!(rt; third, 1);
    assert_eq!(rt; fourth, 1);
    assert_eq!(rt; dropped.get(), 2);
    Ok(())
}
