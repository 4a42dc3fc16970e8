//! The ways of searching, an arm each.
ghost use Rattle.std.specs.Prelude.{◌≡◌, [], IfErr, IfOk, is_some};
ghost use Rattle.palm_base.specs.Streams.{IsSameSink};
ghost use Rattle.palm_engine.specs.Following.{OrderFollows};
ghost use Rattle.palm_lang.specs.declared.reply.Lead.TheVariants.{NoSolution};
ghost use Rattle.palm_lang.specs.Writing.{IsCounted};
ghost use Rattle.palm_model.specs.State.{IsValid};
ghost use Rattle.palm_search.specs.Following.{GuideFollows};
ghost use Rattle.palm_search.specs.Machine.{RunsOn};
ghost use Rattle.proof_write.specs.Proving.{IsListedInBook};
ghost use Rattle.palm_session.specs.Ways.{CanRun, RunsTo, StopsSo, reply_of};
ghost use Rattle.palm_session.specs.declared.reply.Reply.TheVariants.{Spent, Users};

use crate::reply::Reply;
use crate::request::Procedure;
use crate::stop::Stop;
use palm_agenda::Order;
use palm_base::{CidList, Sink};
use palm_best::{Best, minimize_by};
use palm_dbt::{Answer, solve_by};
use palm_guide::Guide;
use palm_kind::Kind;
use palm_lang::{Book, Lead};
use palm_repair::{RepairAnswer, repair_by};
use palm_search::Machine;
use proof_write::prove_by;
use std::sync::ledger::Ledger;

/// How a search ended, by the way of searching.
#[derive(Debug, Drop)]
pub(crate) enum Searched {
    /// mac-dbt ended so.
    Dbt(Answer),
    /// Decision-repair ended so.
    Repair(RepairAnswer),
    /// mac-dbt ended, and its proof is written.
    Proof,
    /// mac-dbt for the least value ended so.
    Least(Best),
}

impl Searched {
    /// What is left to reply.
    pub(crate) fn reply(self) -> Reply
        ensures { result ≡ reply_of self }
    {
        match self {
            Searched::Dbt(Answer::Found(values)) => Reply::Found(values),
            Searched::Dbt(Answer::NoSolution(users)) => no_solution(users),
            Searched::Dbt(Answer::Spent(turns)) => told_spent(turns, None),
            Searched::Repair(RepairAnswer::Found(values)) => Reply::Found(values),
            Searched::Repair(RepairAnswer::NoSolution(users)) => no_solution(users),
            Searched::Repair(RepairAnswer::Spent { turns, dropped }) => told_spent(
                turns,
                Some(dropped),
            ),
            Searched::Proof => Reply::Nothing,
            Searched::Least(Best::Least { values, users }) => Reply::Best { values, users },
            Searched::Least(Best::NoSolution(users)) => no_solution(users),
            Searched::Least(Best::Spent { turns, best: None }) => told_spent(turns, None),
            Searched::Least(
                Best::Spent {
                    turns,
                    best: Some(values),
                },
            ) => Reply::SpentBest { turns, values },
        }
    }
}

/// These users' constraints have no solution.
fn no_solution(users: CidList) -> Reply
    ensures { result ≡ Users NoSolution users }
{
    Reply::Users {
        lead: Lead::NoSolution,
        users,
    }
}

/// So many turns were taken, and so many nogoods dropped, where that is told.
fn told_spent(turns: u64, dropped: Option<u64>) -> Reply
    ensures { result ≡ Spent turns dropped }
{
    Reply::Spent { turns, dropped }
}

/// Searches in this way with what the machine was lent. A proof is written while the search runs.
pub(crate) fn run<G: Guide, O: Order, K: Sink, L: Ledger>(
    machine: &mut Machine<Kind, G, O, L>,
    book: &Book,
    by: Procedure,
    out: &mut K,
) -> Result<Searched, Stop>
    requires fresh { machine.old.search.now ≡ record { decisions = []; journal = [] } }
    requires listed { IsListedInBook book.now machine.old.engine.now.state }
    requires can { CanRun machine.old.engine.now.state by }
    ensures ok { IfOk result (λ answer. RunsTo (GuideFollows G.answers G.hears G.state)
        (OrderFollows O.answers O.hears O.state)
        machine.old.guide.now machine.new.guide.now machine.old.order.now machine.new.order.now
        by book.now machine.old.engine.now.state machine.new.search.now.journal answer machine.new.engine.now.state
        (K.state out.old).written (K.state out.new).written) }
    ensures front { IfErr result (λ stop. StopsSo stop
        (is_some machine.old.guide.now) (is_some machine.old.order.now) by book.now machine.old.engine.now.state
        (K.state out.old).written (K.state out.new).written) }
    ensures counted { IsCounted (K.state out.old).faults (K.state out.new).faults result }
    ensures stands { IsSameSink (K.state out.old) (K.state out.new) result }
    ensures runs { RunsOn machine.old machine.new }
    ensures valid { IsValid machine.new.engine.now.state }
{
    // What holds of every engine is known once its store is read.
    let _store = machine.engine.store();
    match by {
        Procedure::Dbt { budget } => Ok(Searched::Dbt(solve_by(machine, budget)?)),
        Procedure::Repair { tabu, budget } => {
            Ok(Searched::Repair(repair_by(machine, tabu, budget)?))
        }
        Procedure::Proof { budget } => {
            prove_by(machine, book, budget, out)?;
            Ok(Searched::Proof)
        }
        Procedure::Least { target, budget } => {
            Ok(Searched::Least(minimize_by(machine, target, budget)?))
        }
    }
}
