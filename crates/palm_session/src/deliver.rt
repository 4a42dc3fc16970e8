//! Writing replies, a line at a time, so that no whole reply is held.
ghost use Rattle.std.specs.Prelude.{◌≡◌, ◌<◌, length, flat_map, All, OnOk};
ghost use Rattle.palm_book.specs.Book.{IsUser, name_of};
ghost use Rattle.palm_cert.specs.Certificate.{certificate_text};
ghost use Rattle.palm_cert.specs.Needs.{CanClaim};
ghost use Rattle.palm_domain.specs.Rows.{present_of, present_values};
ghost use Rattle.palm_lang.specs.Reply.{domain_line, entry_line};
ghost use Rattle.palm_lang.specs.Writer.{Wrote};
ghost use Rattle.palm_lang.specs.Writing.{Writes};
ghost use Rattle.palm_model.specs.Domains.{AllAscend, values_of};
ghost use Rattle.palm_session.specs.Answers.{domains_text, least_text, left_text, list_text, log_text, preferred_text};
ghost use Rattle.palm_session.specs.Logged.{AreLogged, log_line_at};
ghost use Rattle.palm_session.specs.ReplyText.{reply_text, LeavesUsers, NamesUsers, ReplyFits};
ghost use Rattle.palm_session.specs.State.{IsHeld};

use crate::desk::Desk;
use crate::reply::Reply;
use crate::stop::Stop;
use palm_agenda::Order;
use palm_base::{CidList, NoMemory, Pair, Sink, Value, ValueList, Var};
use palm_cert::{number_of, write_cert};
use palm_domain::DomainStore;
use palm_explain::ExplainStore;
use palm_guide::Guide;
use palm_lang::{Book, Claim, Fixed, Lead, Writer};
use palm_prefer::{LeftList, Preferred};

/// Writes a reply.
pub(crate) fn deliver<G: Guide, O: Order, K: Sink>(
    desk: &Desk<G, O>,
    reply: &Reply,
    out: &mut K,
    buffer: &mut Vec<u8>,
) -> Result<(), Stop>
    requires held { IsHeld desk.now.state }
    requires fits { ReplyFits desk.now.state reply.now }
    ensures { Writes (K.state out.old) (K.state out.new) (reply_text desk.now.state reply.now) result }
{
    let mut writer = Writer::new(out, buffer);
    let book = desk.book();
    match reply {
        Reply::Nothing => Ok(()),
        Reply::Word(word) => writer.word(*word),
        Reply::Refused(refusal) => writer.refusal(*refusal),
        Reply::Ran(revisions) => writer.ran(*revisions),
        Reply::Domains => write_domains(desk, &mut writer),
        Reply::Domain(var) => write_one_domain(desk, *var, &mut writer),
        Reply::Listing => write_list(book, &mut writer),
        Reply::Log => write_log(desk, &mut writer),
        Reply::Users { lead, users } => writer.names(book, *lead, users),
        Reply::Certificate(claim) => write_certificate(desk, claim, &mut writer),
        Reply::Found(values) => writer.found(book, values),
        Reply::Spent { turns, dropped } => writer.spent(*turns, *dropped),
        Reply::Best { values, users } => write_least(book, values, users, &mut writer),
        Reply::SpentBest { turns, values } => writer.spent_best(book, *turns, values),
        Reply::Weighed(preferred) => write_preferred(book, preferred, &mut writer),
    }
}

/// Writes the certificate of a claim.
fn write_certificate<G: Guide, O: Order, K: Sink>(
    desk: &Desk<G, O>,
    claim: &Claim,
    writer: &mut Writer<'_, K>,
) -> Result<(), Stop>
    requires held { IsHeld desk.now.state }
    requires holds { CanClaim desk.now.state.engine claim.now }
    ensures { Wrote K.state writer.old writer.new (certificate_text desk.now.state.book desk.now.state.engine.log claim.now) result }
{
    write_cert(
        desk.alloc(),
        desk.engine(),
        desk.book(),
        claim.copy(),
        writer.out,
    )
}

/// Writes a value for each variable, the users' constraints that prove that it is the best, and `end`.
fn write_least<K: Sink>(
    book: &Book,
    values: &ValueList,
    users: &CidList,
    writer: &mut Writer<'_, K>,
) -> Result<(), Stop>
    requires long { length values.now ≡ length book.now.variables }
    requires users { All (IsUser book.now) users.now }
    ensures { Wrote K.state writer.old writer.new (least_text book.now values.now users.now) result }
{
    writer.best(book, values)?;
    writer.names(book, Lead::Proved, users)?;
    writer.word(Fixed::End)
}

/// Writes what is preferred.
fn write_preferred<K: Sink>(
    book: &Book,
    preferred: &Preferred,
    writer: &mut Writer<'_, K>,
) -> Result<(), Stop>
    requires { NamesUsers book.now preferred.now }
    ensures { Wrote K.state writer.old writer.new (preferred_text book.now preferred.now) result }
{
    match preferred {
        Preferred::Hard(conflict) => writer.names(book, Lead::HardConflict, conflict),
        Preferred::Kept { keep, left } => write_kept(book, keep, left, writer),
    }
}

/// Writes which constraints are kept, those that are left out, and `end`.
fn write_kept<K: Sink>(
    book: &Book,
    keep: &CidList,
    left: &LeftList,
    writer: &mut Writer<'_, K>,
) -> Result<(), Stop>
    requires users { All (IsUser book.now) keep.now }
    requires left { All (LeavesUsers book.now) left.now }
    ensures { Wrote K.state writer.old writer.new (preferred_text book.now (Preferred.Kept keep.now left.now)) result }
{
    writer.names(book, Lead::Keep, keep)?;
    write_all_left(book, left, writer)?;
    writer.word(Fixed::End)
}

/// Writes each constraint that is left out, with its conflict.
fn write_all_left<K: Sink>(
    book: &Book,
    left: &LeftList,
    writer: &mut Writer<'_, K>,
) -> Result<(), Stop>
    requires { All (LeavesUsers book.now) left.now }
    ensures { Wrote K.state writer.old writer.new (flat_map (left_text book.now) left.now) result }
{
    for entry in left.as_slice() {
        writer.leave(book, entry.number, &entry.conflict)?;
    }
    Ok(())
}

/// Makes the list the present values of a variable.
fn collect_values(store: &DomainStore, var: Var, values: &mut Vec<Value>) -> Result<(), NoMemory>
    requires variable { var < length store.now }
    requires ascend { AllAscend (present_of store.now) }
    ensures { OnOk result (values.new.items ≡ present_values store.now var) }
{
    values.clear();
    for value in store.initial_values(var) {
        if store.contains(Pair { var, value: *value }) {
            values.push(*value)?;
        }
    }
    Ok(())
}

/// Writes a variable's values.
fn write_domain<K: Sink>(
    book: &Book,
    store: &DomainStore,
    var: Var,
    values: &mut Vec<Value>,
    writer: &mut Writer<'_, K>,
) -> Result<(), Stop>
    requires variable { var < length book.now.variables }
    requires domain { var < length store.now }
    requires ascend { AllAscend (present_of store.now) }
    ensures { Wrote K.state writer.old writer.new (domain_line (name_of book.now.variables var) (values_of (present_of store.now) var)) result }
{
    collect_values(store, var, values)?;
    writer.domain(book, var, values)
}

/// Writes the values of one variable.
fn write_one_domain<G: Guide, O: Order, K: Sink>(
    desk: &Desk<G, O>,
    var: Var,
    writer: &mut Writer<'_, K>,
) -> Result<(), Stop>
    requires held { IsHeld desk.now.state }
    requires variable { var < length desk.now.state.book.variables }
    ensures { Wrote K.state writer.old writer.new (reply_text desk.now.state (Reply.Domain var)) result }
{
    let mut values = Vec::new(desk.alloc());
    write_domain(desk.book(), desk.engine().store(), var, &mut values, writer)
}

/// Writes the values of all variables.
fn write_domains<G: Guide, O: Order, K: Sink>(
    desk: &Desk<G, O>,
    writer: &mut Writer<'_, K>,
) -> Result<(), Stop>
    requires { IsHeld desk.now.state }
    ensures { Wrote K.state writer.old writer.new (reply_text desk.now.state Reply.Domains) result }
{
    let mut values = Vec::new(desk.alloc());
    write_each_domain(desk.book(), desk.engine().store(), &mut values, writer)
}

/// Writes the values of each variable, one list after another in the same memory.
fn write_each_domain<K: Sink>(
    book: &Book,
    store: &DomainStore,
    values: &mut Vec<Value>,
    writer: &mut Writer<'_, K>,
) -> Result<(), Stop>
    requires long { length store.now ≡ length book.now.variables }
    requires ascend { AllAscend (present_of store.now) }
    ensures { Wrote K.state writer.old writer.new (domains_text book.now.variables (present_of store.now)) result }
{
    for index in 0..book.variables() {
        write_domain(book, store, Var(index), values, writer)?;
    }
    writer.word(Fixed::End)
}

/// Writes the book.
fn write_list<K: Sink>(book: &Book, writer: &mut Writer<'_, K>) -> Result<(), Stop>
    ensures { Wrote K.state writer.old writer.new (list_text book.now) result }
{
    writer.variables(book)?;
    write_constraints(book, writer)?;
    writer.word(Fixed::End)
}

/// Writes the constraints as `list` shows them.
fn write_constraints<K: Sink>(book: &Book, writer: &mut Writer<'_, K>) -> Result<(), Stop>
    ensures { Wrote K.state writer.old writer.new (flat_map (entry_line book.now.variables) book.now.constraints) result }
{
    for place in 0..book.constraints() {
        writer.entry(book, place)?;
    }
    Ok(())
}

/// Writes the log.
fn write_log<G: Guide, O: Order, K: Sink>(
    desk: &Desk<G, O>,
    writer: &mut Writer<'_, K>,
) -> Result<(), Stop>
    requires { IsHeld desk.now.state }
    ensures { Wrote K.state writer.old writer.new (log_text desk.now.state.book desk.now.state.engine.log) result }
{
    let mut reasons = Vec::new(desk.alloc());
    write_removals(desk.book(), desk.engine().log(), &mut reasons, writer)
}

/// Writes each removal, the reasons of one after another in the same memory.
fn write_removals<K: Sink>(
    book: &Book,
    log: &ExplainStore,
    reasons: &mut Vec<Pair>,
    writer: &mut Writer<'_, K>,
) -> Result<(), Stop>
    requires { AreLogged book.now log.now.log }
    ensures { Wrote K.state writer.old writer.new (log_text book.now log.now.log) result }
{
    for place in 0..log.removals() {
        write_removal(book, log, place, reasons, writer)?;
    }
    writer.word(Fixed::End)
}

/// Writes the removal at a place.
fn write_removal<K: Sink>(
    book: &Book,
    log: &ExplainStore,
    place: usize,
    reasons: &mut Vec<Pair>,
    writer: &mut Writer<'_, K>,
) -> Result<(), Stop>
    requires logged { AreLogged book.now log.now.log }
    requires place { place < length log.now.log }
    ensures { Wrote K.state writer.old writer.new (log_line_at book.now log.now.log place) result }
{
    log.reasons(place, reasons)?;
    let by = number_of(log.by_at(place));
    writer.removal(book, log.pair_at(place), by, reasons)
}
