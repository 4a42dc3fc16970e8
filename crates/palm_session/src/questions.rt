//! Answers to questions.
ghost use Rattle.std.specs.Prelude.{◌≡◌, IfOk, false};
ghost use Rattle.palm_book.specs.Book.{active_of, initial_of};
ghost use Rattle.palm_model.specs.Domains.{Has};
ghost use Rattle.palm_model.specs.Minimal.{AreConflict};
ghost use Rattle.palm_model.specs.State.{present};
ghost use Rattle.palm_session.specs.Answers.{IsAnswer, SaysCert, SaysMinimal, SaysMinimalConflict, SaysPreferred, SaysWhy};
ghost use Rattle.palm_session.specs.ReplyText.{reply_text, ReplyFits};
ghost use Rattle.palm_session.specs.Requests.{CanAsk};
ghost use Rattle.palm_session.specs.Serving.{IsOpen};
ghost use Rattle.palm_session.specs.State.{IsHeld, IsState};
ghost use Rattle.palm_session.specs.declared.request.Question.TheVariants as Question;
ghost use Rattle.palm_session.specs.declared.request.Request.TheVariants as Request;

use crate::desk::Desk;
use crate::reply::Reply;
use crate::request::Question;
use palm_agenda::Order;
use palm_base::{CidList, NoMemory, Pair};
use palm_guide::Guide;
use palm_lang::{Claim, Fixed, Lead};
use palm_prefer::preferred;
use palm_reduce::{minimal_conflict, minimal_why};

impl<G: Guide, O: Order> Desk<G, O> {
    /// The answer to a question that is not withheld.
    pub(crate) fn answer_of(&self, question: Question) -> Result<Reply, NoMemory>
        requires state { IsState self.now.state }
        requires can { CanAsk self.now.state question }
        requires open { IsOpen self.now.state (Request.Ask question) }
        ensures answers { IfOk result (λ reply. IsAnswer self.now.state question (reply_text self.now.state reply)) }
        ensures fits { IfOk result (ReplyFits self.now.state) }
    {
        match question {
            Question::Domains => Ok(Reply::Domains),
            Question::Domain(var) => Ok(Reply::Domain(var)),
            Question::List => Ok(Reply::Listing),
            Question::Log => Ok(Reply::Log),
            Question::Why(pair) => self.why(pair),
            Question::Conflict => self.conflict(),
            Question::Minimal(pair) => self.minimal(pair),
            Question::MinimalConflict => self.minimal_conflict(),
            Question::Cert(pair) => Ok(self.cert(pair)),
            Question::CertConflict => Ok(self.cert_conflict()),
            Question::Preferred => self.preferred(),
        }
    }

    /// `present`, or the constraints of the kept explanation of a removed pair.
    fn why(&self, pair: Pair) -> Result<Reply, NoMemory>
        requires held { IsHeld self.now.state }
        requires declared { Has self.now.state.engine.initial pair.var pair.value }
        ensures tells { IfOk result (λ reply. SaysWhy self.now.state (present self.now.state.engine) pair.var pair.value (reply_text self.now.state reply)) }
        ensures fits { IfOk result (ReplyFits self.now.state) }
    {
        let Pair { var, value } = pair;
        let log = self.engine().log();
        if log.place_of(Pair { var, value }).is_none() {
            return Ok(Reply::Word(Fixed::Present));
        }
        let mut users = CidList::new(self.alloc());
        log.explanation(Pair { var, value }, &mut users)?;
        Ok(Reply::Users {
            lead: Lead::Because,
            users,
        })
    }

    /// `present`, or the minimal explanation of the pair's absence.
    fn minimal(&self, pair: Pair) -> Result<Reply, NoMemory>
        requires held { IsHeld self.now.state }
        requires declared { Has self.now.state.engine.initial pair.var pair.value }
        requires filled { AreConflict (initial_of self.now.state.book) (active_of self.now.state.book) → ⊥ }
        ensures tells { IfOk result (λ reply. SaysMinimal self.now.state.book pair (reply_text self.now.state reply)) }
        ensures fits { IfOk result (ReplyFits self.now.state) }
    {
        match minimal_why(self.alloc(), self.book(), pair, self.engine())? {
            Some(users) => Ok(Reply::Users {
                lead: Lead::Because,
                users,
            }),
            None => Ok(Reply::Word(Fixed::Present)),
        }
    }

    /// `consistent`, or the minimal conflict.
    fn minimal_conflict(&self) -> Result<Reply, NoMemory>
        requires { IsHeld self.now.state }
        ensures tells { IfOk result (λ reply. SaysMinimalConflict self.now.state.book (reply_text self.now.state reply)) }
        ensures fits { IfOk result (ReplyFits self.now.state) }
    {
        match minimal_conflict(self.alloc(), self.book(), self.engine())? {
            Some(users) => Ok(Reply::Users {
                lead: Lead::Conflict,
                users,
            }),
            None => Ok(Reply::Word(Fixed::Consistent)),
        }
    }

    /// What is preferred, by the weights.
    fn preferred(&self) -> Result<Reply, NoMemory>
        requires { IsHeld self.now.state }
        ensures tells { IfOk result (λ reply. SaysPreferred self.now.state (reply_text self.now.state reply)) }
        ensures fits { IfOk result (ReplyFits self.now.state) }
    {
        let weights = self.weights().to_list(self.alloc())?;
        let preferred = preferred(self.alloc(), self.book(), &weights, self.engine())?;
        Ok(Reply::Weighed(preferred))
    }

    /// `consistent`, or the conflict that the engine keeps.
    fn conflict(&self) -> Result<Reply, NoMemory>
        requires state { IsState self.now.state }
        requires awake { self.now.state.paused ≡ false }
        ensures tells { IfOk result (λ reply. IsAnswer self.now.state Question.Conflict (reply_text self.now.state reply)) }
        ensures fits { IfOk result (ReplyFits self.now.state) }
    {
        let engine = self.engine();
        if engine.empty_variable().is_none() {
            return Ok(Reply::Word(Fixed::Consistent));
        }
        let mut users = CidList::new(self.alloc());
        engine.conflict(&mut users)?;
        Ok(Reply::Users {
            lead: Lead::Conflict,
            users,
        })
    }

    /// `present`, or the certificate of a removed pair.
    fn cert(&self, pair: Pair) -> Reply
        requires { Has self.now.state.engine.initial pair.var pair.value }
        ensures tells { SaysCert self.now.state (present self.now.state.engine) pair (reply_text self.now.state result) }
        ensures fits { ReplyFits self.now.state result }
    {
        let Pair { var, value } = pair;
        if self.engine().log().place_of(Pair { var, value }).is_none() {
            return Reply::Word(Fixed::Present);
        }
        Reply::Certificate(Claim::Gone(Pair { var, value }))
    }

    /// `consistent`, or the certificate of the lowest variable without a value.
    fn cert_conflict(&self) -> Reply
        requires state { IsState self.now.state }
        requires awake { self.now.state.paused ≡ false }
        ensures tells { IsAnswer self.now.state Question.CertConflict (reply_text self.now.state result) }
        ensures fits { ReplyFits self.now.state result }
    {
        match self.engine().empty_variable() {
            Some(var) => Reply::Certificate(Claim::Conflict(var)),
            None => Reply::Word(Fixed::Consistent),
        }
    }
}
