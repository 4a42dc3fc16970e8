//! When a request's own reply is withheld: two tables of requests, for `paused` and for `contradiction`.
ghost use Rattle.std.specs.Prelude.{◌≡◌, true};
ghost use Rattle.palm_base.specs.Tells.{Tells};
ghost use Rattle.palm_session.specs.Answers.{IsContradictable, IsPausable, WaitsFor};
ghost use Rattle.palm_session.specs.State.{IsContradiction, IsState};

use crate::desk::Desk;
use crate::request::{Question, Request};
use palm_agenda::Order;
use palm_guide::Guide;

/// Whether a request waits while filtering waits.
fn is_pausable(request: &Request) -> bool
    ensures { Tells result (IsPausable request.now) }
{
    match request {
        Request::Ask(question) => !matches!(question, Question::List),
        Request::Solve(_) => true,
        _ => false,
    }
}

/// Whether a request is told of a contradiction.
pub(crate) fn is_contradictable(request: &Request) -> bool
    ensures { Tells result (IsContradictable request.now) }
{
    match request {
        Request::Declare { .. }
        | Request::DeclareIn { .. }
        | Request::Add { .. }
        | Request::Relax(_)
        | Request::Enforce(_)
        | Request::Retract(_)
        | Request::Resume => true,
        Request::Ask(question) => matches!(
            question,
            Question::Domains
                | Question::Domain(_)
                | Question::Why(_)
                | Question::Minimal(_)
                | Question::Cert(_)
        ),
        _ => false,
    }
}

impl<G: Guide, O: Order> Desk<G, O> {
    /// Whether filtering waits, and the request with it.
    pub(crate) fn waits(&self, request: &Request) -> bool
        ensures { Tells result (WaitsFor self.now.state request.now) }
    {
        self.is_paused() && is_pausable(request)
    }

    /// Whether a contradiction is to be told, and there is one.
    pub(crate) fn contradicts(&self, is_told: bool) -> bool
        requires { IsState self.now.state }
        ensures { Tells result ((is_told ≡ true) × IsContradiction self.now.state) }
    {
        is_told && self.is_contradiction()
    }

    /// Whether filtering does not wait and some variable has no value.
    fn is_contradiction(&self) -> bool
        requires { IsState self.now.state }
        ensures { Tells result (IsContradiction self.now.state) }
    {
        !self.is_paused() && self.engine().empty_variable().is_some()
    }
}
